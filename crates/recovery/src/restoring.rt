// Pages rolled forward or back: at each live home tentative is copied to committed, or committed to
// tentative.
ghost use Rattle.std.specs.Prelude.{◌≡◌, ◌+◌, ◌<◌, ◌≤◌, length};
ghost use Rattle.directory.specs.Lent.{lent};
ghost use Rattle.area.specs.Prelude.{page_size, stored_page_size};
ghost use Rattle.protocol.specs.Recovery.{restore_page, restore_pages};
ghost use Rattle.release.specs.Stepping.{CardOf, HomesOf};
ghost use Rattle.recovery.specs.Rack.{copy_at_home};

use area::layout;
use directory::Header;
use directory::lent::LentDirectory;

// At a live home of a page, copies one half of the page to the other; at a dead one, nothing. A
// half is named by its place in the page.
#[tactic(auto, unfolding(crate::specs::Rack::copy_at_home))]
fn copy_at_home(memory: &mut [u32], header: Header, home: u32, page: usize, from: usize, to: usize)
    requires card_in { CardOf header (length memory.old) home }
    requires page_lt_pages { (page < header.pages) × (header.pages ≤ 64) }
    requires page_size_bound { (from + page_size ≤ stored_page_size) × (to + page_size ≤ stored_page_size) }
    ensures { memory.new
        ≡ copy_at_home header home page from to memory.old }
{
    if header.is_live(home) {
        let size = layout::area_size(header.pages);
        area::pages::copy_half(memory, size, home as usize, page, from, to);
    }
}

// Restores a page at each live home. Source document 004, section 4.5.2, "Restoring shared memory
// consistency", makes the two copies of a page equal again in one of two cases (its second
// paragraph): these are the two, in its order. There each home has one copy, here each has both.
// `forward` says that the stamp and the done mark of the failed card's record differ.
#[tactic(auto, using(crate::proofs::restoring::Cases::rolled_forward_lem, crate::proofs::restoring::Cases::rolled_back_lem, crate::proofs::restoring::Homes::primary_card, crate::proofs::restoring::Homes::secondary_card))]
fn restore_page(memory: &mut [u32], directory: LentDirectory<'_>, forward: bool, page: usize)
    requires homes_of { HomesOf (lent directory) (length memory.old) }
    requires page_lt_pages { page < directory.header.pages }
    ensures { memory.new
        ≡ restore_page (lent directory.entry) forward page memory.old }
{
    let header = directory.header;
    let secondary = directory.secondary[page];
    let primary = directory.primary[page];
    let tentative = layout::TENTATIVE_HALF;
    let committed = layout::COMMITTED_HALF;
    if forward {
        // Roll forward, up to the completion of the interrupted release: tentative to committed.
        copy_at_home(memory, header, secondary, page, tentative, committed);
        copy_at_home(memory, header, primary, page, tentative, committed);
    } else {
        // Roll back, to the failed card's last successful release: committed to tentative.
        copy_at_home(memory, header, secondary, page, committed, tentative);
        copy_at_home(memory, header, primary, page, committed, tentative);
    }
}

// Restores every page, all in one case. 004 rolls forward the pages of the failed card's release
// alone; here, on a rack that only calls have written, both copies of any other page are equal at
// each live home.
#[tactic(auto, using(laws::proofs::Search::in_turn_none, laws::proofs::Search::in_turn_more), unfolding(protocol::specs::Recovery::restore_pages))]
pub(crate) fn restore_pages(memory: &mut [u32], directory: LentDirectory<'_>, forward: bool)
    requires { HomesOf (lent directory) (length memory.old) }
    ensures { memory.new
        ≡ restore_pages (lent directory.entry) forward memory.old }
{
    for page in 0..directory.header.pages {
        restore_page(memory, directory, forward, page as usize);
    }
}
