// Recovery of a failed card, and a dead card that joins again: what they write in the memory of a
// rack that passed its checks, and the directory after a recovery; which calls are refused is decided
// above.
#![tactic(auto)]

ghost use Rattle.std.specs.Prelude.{◌≡◌, ◌<◌, length};
ghost use Rattle.directory.specs.NewHome.{even_home};
ghost use Rattle.area.specs.Prelude.{desk_size};
ghost use Rattle.protocol.specs.Recovery.{failed_release, recovered_memory, recovered_directory};
ghost use Rattle.protocol.specs.Join.{joined_memory};
ghost use Rattle.release.specs.Stepping.{HomesOf};
ghost use Rattle.recovery.specs.Closing.{ReleasesIn, record_of, recovered_closed};
ghost use Rattle.recovery.specs.Rack.{RackIn, SomeLive, OtherLive, FailedIn};

use directory::{Directory, Status};

mod closing;
mod homes;
mod joining;
mod records;
mod restoring;

// What a recovery gives beside the failed card's desk: the directory from then on, and the failed
// card's stamp.
#[derive(Clone, Copy)]
pub struct Recovered {
    pub directory: Directory,
    pub number: u64,
}

// Recovers a rack whose releases are closed: reads the failed card's record, rolls all pages
// forward or back, gives those that lost a home their new ones, and writes the records.
fn recover_closed(
    memory: &mut [u32],
    directory: Directory,
    failed: u32,
    desk: &mut [u32],
) -> Recovered
    requires rack_in { RackIn directory (length memory.old) }
    requires homes_of { HomesOf directory (length memory.old) }
    requires other_live { OtherLive directory }
    requires failed_in { FailedIn directory failed }
    requires desk_len { length desk.old ≡ desk_size }
    ensures directory { result.directory ≡ recovered_directory even_home directory failed }
    ensures number { result.number
        ≡ (record_of directory failed memory.old).number }
    ensures desk { desk.new
        ≡ (record_of directory failed memory.old).desk }
    ensures memory { memory.new
        ≡ recovered_closed directory failed memory.old }
{
    let size = area::layout::area_size(directory.pages);
    let at = failed as usize;
    let holder = directory.next_live(failed) as usize;
    let number = area::records::load_record(memory, size, holder, at, desk);
    let forward = area::records::under_way(memory, size, holder, at);
    restoring::restore_pages(memory, directory.lend(), forward);
    let moved = homes::move_homes(memory, directory, failed);
    records::write_records(memory, directory, failed, number, desk);
    Recovered {
        directory: moved.with_status(Status::Running),
        number,
    }
}

// Recovers a failed card: closes the open releases, restores the copies, gives pages that lost a
// home a new one, and writes the records. Gives the failed card's stamp, and its desk.
pub fn recover_memory(
    memory: &mut [u32],
    directory: Directory,
    failed: u32,
    desk: &mut [u32],
) -> Recovered
    requires rack_in { RackIn directory (length memory.old) }
    requires homes_of { HomesOf directory (length memory.old) }
    requires other_live { OtherLive directory }
    requires failed_in { FailedIn directory failed }
    requires desk_len { length desk.old ≡ desk_size }
    requires releases_in { ReleasesIn directory memory.old }
    ensures directory { result.directory ≡ recovered_directory even_home directory failed }
    ensures number { result.number
        ≡ (failed_release directory failed memory.old).number }
    ensures desk { desk.new
        ≡ (failed_release directory failed memory.old).desk }
    ensures memory { memory.new
        ≡ recovered_memory even_home directory failed memory.old }
{
    closing::close_releases(memory, directory, failed);
    recover_closed(memory, directory, failed, desk)
}

// Makes a dead card's area what it must be once the card is live: its own stamp and desk, and the
// records that it then holds.
pub fn join_memory(memory: &mut [u32], directory: Directory, joining: u32)
    requires rack_in { RackIn directory (length memory.old) }
    requires some_live { SomeLive directory }
    requires joining_lt_cards { joining < directory.cards }
    ensures { memory.new
        ≡ joined_memory directory joining memory.old }
{
    let live = directory.live;
    let after = directory.mark_live(joining);
    joining::reset_area(memory, directory, joining);
    joining::copy_dead_records(memory, directory, joining);
    records::write_own_records(memory, &live, after, after, joining);
}
