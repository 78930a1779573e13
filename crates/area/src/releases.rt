// What a card's area says of the release that is open on the card.
ghost use Rattle.std.specs.Prelude.{◌≡◌, ◌<◌, ◌≤◌, length};
ghost use Rattle.memory.specs.Words.{AreaIn};
ghost use Rattle.area.specs.Layout.{list_size, pages_start, area_size};
ghost use Rattle.area.specs.RackMemory.{MemoryOf};
ghost use Rattle.area.specs.Releases.{open_list, steps_of, has_open_release};

use crate::layout;
use directory::Header;

// Whether a release is open on the card, which must be live.
#[tactic(auto, unfolding(crate::specs::Releases::has_open_release))]
pub fn is_open(memory: &[u32], size: usize, live: &[bool], card: usize) -> bool
    requires pages_start_le_size { (pages_start ≤ size) × AreaIn (length memory.now) size card }
    requires card_in_bounds { card < length live.now }
    ensures { result ≡ has_open_release live.now size memory.now card }
{
    live[card] && memory::load_word(memory, size, card, layout::OPEN_FLAG) == 1
}

// The same of a card of a rack with this header.
pub fn is_open_on(memory: &[u32], header: Header, card: u32) -> bool
    requires memory_of { MemoryOf header (length memory.now) }
    requires card_lt_cards { card < header.cards }
    ensures { result
        ≡ has_open_release header.live (area_size header.pages) memory.now card }
{
    let size = layout::area_size(header.pages);
    let live = header.live;
    is_open(memory, size, &live, card as usize)
}

// How many steps it has made.
pub fn steps_made(memory: &[u32], size: usize, card: usize) -> u32
    requires { (pages_start ≤ size) × AreaIn (length memory.now) size card }
    ensures { result ≡ steps_of size memory.now card }
{
    memory::load_word(memory, size, card, layout::STEPS_MADE)
}

// Its list.
pub fn open_list(memory: &[u32], size: usize, card: usize) -> &[u32]
    requires { (pages_start ≤ size) × AreaIn (length memory.now) size card }
    ensures result_value { result.now ≡ open_list size memory.now card }
    ensures result_len { length result.now ≡ list_size }
{
    let from = card * size + layout::LIST_START;
    let end = from + layout::LIST_SIZE;
    &memory[from..end]
}
