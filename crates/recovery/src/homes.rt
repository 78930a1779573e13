// Pages that lost a home: the home that each keeps, and its copies and homes from then on.
ghost use Rattle.std.specs.Prelude.{◌≡◌, cond, ◌||◌, length, eqb};
ghost use Rattle.directory.specs.NewHome.{even_home};
ghost use Rattle.protocol.specs.Recovery.{copy_to_new_homes, moved_below};
ghost use Rattle.release.specs.Stepping.{HomesOf};
ghost use Rattle.recovery.specs.Rack.{RackIn, OtherLive, FailedIn};

use directory::Directory;

// Whether a home of a page failed.
fn lost_home(primary: u32, secondary: u32, failed: u32) -> bool
    ensures { result ≡ (eqb primary failed || eqb secondary failed) }
{
    primary == failed || secondary == failed
}

// The home that a page keeps: its primary, or its secondary if the primary failed.
fn kept_home(primary: u32, secondary: u32, failed: u32) -> u32
    ensures { result ≡ cond (eqb primary failed) secondary primary }
{
    if primary == failed {
        secondary
    } else {
        primary
    }
}

// Each page that lost a home gets both copies at its new one, and its homes from then on. Pages are
// counted once; from then on each choice is counted for the next.
pub(crate) fn move_homes(memory: &mut [u32], directory: Directory, failed: u32) -> Directory
    requires rack_in { RackIn directory (length memory.old) }
    requires homes_of { HomesOf directory (length memory.old) }
    requires other_live { OtherLive directory }
    requires failed_in { FailedIn directory failed }
    ensures memory { memory.new
        ≡ copy_to_new_homes even_home directory failed memory.old }
    ensures homes { result ≡ moved_below even_home directory failed directory.pages }
{
    let size = area::layout::area_size(directory.pages);
    let mut counts = directory.count_pages();
    let mut moved = directory;
    for page in 0..directory.pages {
        let at = page as usize;
        let primary = directory.primary[at];
        let secondary = directory.secondary[at];
        if lost_home(primary, secondary, failed) {
            let kept = kept_home(primary, secondary, failed);
            let new = moved.even_home(counts, kept);
            area::pages::copy_page(memory, size, kept as usize, new as usize, at);
            moved = moved.move_home(page, kept, new);
            directory::homes::count_home(&mut counts, new);
        }
    }
    moved
}
