// 20: a stamp or done mark on a live card's area that one word does not hold.
ghost use Rattle.std.specs.Prelude.{◌≡◌, ◌<◌, ◌≤◌, length};
ghost use Rattle.laws.specs.Search.{any_below};
ghost use Rattle.area.specs.Prelude.{AreaIn, MemoryOf, area_size, pages_start, record_count};
ghost use Rattle.mover.specs.Move.{high_record, high_area, high_card};

use area::layout;
use area::numbers::load_number;
use directory::Header;
use laws::numbers::any_below;

// The highest number of one word.
const HIGHEST: u64 = u32::MAX as u64;

#[tactic(auto, unfolding(crate::specs::Move::high_record))]
fn high_record(memory: &[u32], size: usize, holder: usize, card: u32) -> bool
    requires area_in { (pages_start ≤ size) × AreaIn (length memory.now) size holder }
    requires card_lt_record_count { card < record_count }
    ensures { result ≡ high_record size memory.now holder card }
{
    let card = card as usize;
    HIGHEST < load_number(memory, size, holder, layout::record_stamp(card))
        || HIGHEST < load_number(memory, size, holder, layout::record_done(card))
}

// Its own stamp, or one of all eight records: also of those of cards that the rack has not.
#[tactic(auto, unfolding(crate::specs::Move::high_area))]
fn high_area(memory: &[u32], size: usize, card: usize) -> bool
    requires { (pages_start ≤ size) × AreaIn (length memory.now) size card }
    ensures { result ≡ high_area size memory.now card }
{
    HIGHEST < load_number(memory, size, card, layout::OWN_STAMP)
        || any_below(layout::RECORD_COUNT as u32, |recorded| {
            high_record(memory, size, card, recorded)
        })
}

fn high_card(memory: &[u32], header: Header, card: u32) -> bool
    requires memory_of { MemoryOf header (length memory.now) }
    requires card_lt_cards { card < header.cards }
    ensures { result ≡ high_card header.live (area_size header.pages) memory.now card }
{
    let size = layout::area_size(header.pages);
    header.is_live(card) && high_area(memory, size, card as usize)
}

pub fn too_high(memory: &[u32], header: Header) -> bool
    requires { MemoryOf header (length memory.now) }
    ensures { result
        ≡ any_below (high_card header.live (area_size header.pages) memory.now)
        header.cards }
{
    any_below(header.cards, |card| high_card(memory, header, card))
}
