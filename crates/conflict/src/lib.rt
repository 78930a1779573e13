// Open releases that stand in the way of a call: any (refusal 15), one that prices a word of a list
// handed in (refusal 8, `sharing`), and one that counts already and names a page asked for (refusal
// 10, `motion`). The searches for 8 and 10 answer the lowest such card.
#![tactic(auto)]

ghost use Rattle.std.specs.Prelude.{◌≡◌, ◌<◌, length};
ghost use Rattle.laws.specs.Search.{any_below};
ghost use Rattle.area.specs.Prelude.{MemoryOf, area_size, list_size, has_open_release, open_list};
ghost use Rattle.conflict.specs.Others.{is_other};

mod motion;
mod sharing;

use area::releases;
use directory::Header;
use laws::numbers;
pub use motion::{lowest_in_motion, mark_in_motion};
pub use sharing::lowest_sharing;

// Whether it is another card, with a release open.
#[tactic(auto, unfolding(crate::specs::Others::is_other))]
pub(crate) fn is_other(memory: &[u32], header: Header, card: u32, other: u32) -> bool
    requires memory_of { MemoryOf header (length memory.now) }
    requires other_lt_cards { other < header.cards }
    ensures { result
        ≡ is_other header.live (area_size header.pages) memory.now card other }
{
    other != card && releases::is_open_on(memory, header, other)
}

// The list of the release that is open on a card.
pub(crate) fn open_list(memory: &[u32], header: Header, card: u32) -> &[u32]
    requires memory_of { MemoryOf header (length memory.now) }
    requires card_lt_cards { card < header.cards }
    ensures result_value { result.now ≡ open_list (area_size header.pages) memory.now card }
    ensures result_len { length result.now ≡ list_size }
{
    let size = area::layout::area_size(header.pages);
    releases::open_list(memory, size, card as usize)
}

// Whether a release is open on any card but this one.
pub(crate) fn any_other(memory: &[u32], header: Header, card: u32) -> bool
    requires { MemoryOf header (length memory.now) }
    ensures { result
        ≡ any_below
        (is_other header.live (area_size header.pages) memory.now card)
        header.cards }
{
    numbers::any_below(header.cards, |other| {
        is_other(memory, header, card, other)
    })
}

// Whether a release is open on any card.
pub fn any_open(memory: &[u32], header: Header) -> bool
    requires { MemoryOf header (length memory.now) }
    ensures { result
        ≡ any_below (has_open_release header.live (area_size header.pages) memory.now)
        header.cards }
{
    numbers::any_below(header.cards, |card| {
        releases::is_open_on(memory, header, card)
    })
}
