// Open releases, each run to its close.
ghost use Rattle.std.specs.Prelude.{◌≡◌, true, ◌<◌, length};
ghost use Rattle.directory.specs.Directory.{backup_of};
ghost use Rattle.directory.specs.Lent.{lent};
ghost use Rattle.area.specs.Prelude.{has_open_release, area_size};
ghost use Rattle.protocol.specs.Recovery.{close_releases};
ghost use Rattle.release.specs.Stepping.{CardOf, HomesOf, GoodRelease};
ghost use Rattle.recovery.specs.Closing.{ReleasesIn, close_with};
ghost use Rattle.recovery.specs.Rack.{RackIn, SomeLive};

use directory::Directory;
use directory::lent::LentDirectory;

// A count past all the steps that a release can have left.
const ALL_STEPS: u32 = u32::MAX;

// Runs the release that is open on a card, if one is, to its close. `before` is the directory from
// before the failure: it tells the card's backup.
fn run_to_close(memory: &mut [u32], directory: LentDirectory<'_>, before: Directory, card: u32)
    requires homes_of { HomesOf (lent directory) (length memory.old) }
    requires card_in { CardOf directory.header (length memory.old) card }
    requires backup_in { CardOf directory.header (length memory.old) (backup_of before card) }
    requires good_release { has_open_release directory.header.live
        (area_size directory.header.pages) memory.old card ≡ true
        → GoodRelease directory.header.pages memory.old card }
    ensures { memory.new
        ≡ close_with (lent directory.entry) (backup_of before card) card memory.old }
{
    let LentDirectory {
        header,
        primary,
        secondary,
    } = directory;
    let at = card as usize;
    let live = header.live;
    let size = area::layout::area_size(header.pages);
    if area::releases::is_open(memory, size, &live, at) {
        let backup = before.backup(card) as usize;
        release::make_steps(memory, header, primary, secondary, backup, at, ALL_STEPS);
    }
}

// Runs every open release to its close.
pub(crate) fn close_releases(memory: &mut [u32], directory: Directory, failed: u32)
    requires rack_in { RackIn directory (length memory.old) }
    requires homes_of { HomesOf directory (length memory.old) }
    requires some_live { SomeLive directory }
    requires failed_bound { failed < 8 }
    requires releases_in { ReleasesIn directory memory.old }
    ensures { memory.new
        ≡ close_releases directory failed memory.old }
{
    let before = directory.mark_live(failed);
    for card in 0..directory.cards {
        run_to_close(memory, directory.lend(), before, card);
    }
}
