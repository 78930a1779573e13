// 2: a memory of either form and a directory that do not fit each other. What an area says of an open
// release is read where its form has it; the rest is told by `checks`.
ghost use Rattle.std.specs.Prelude.{◌≡◌, ◌<◌, length};
ghost use Rattle.directory.specs.Lent.{lent};
ghost use Rattle.protocol.specs.Checks.{unfit_by};
ghost use Rattle.mover.specs.Forms.{MemoryBy};
ghost use Rattle.mover.specs.Move.{bad_card_at};

use crate::forms::Places;
use area::layout;
use directory::Header;
use directory::lent::LentDirectory;
use laws::numbers;

// A card whose area has these places.
#[tactic(auto, unfolding(memory::specs::Words::load_run))]
fn bad_card(memory: &[u32], at: Places, header: Header, card: u32) -> bool
    requires memory_by { MemoryBy at header (length memory.now) }
    requires card_lt_cards { card < header.cards }
    ensures { result ≡ bad_card_at at header.live header.pages memory.now card }
{
    if !header.is_live(card) {
        return false;
    }
    let card = card as usize;
    match memory::load_word(memory, at.size, card, at.flag) {
        0 => false,
        1 => {
            let steps = memory::load_word(memory, at.size, card, at.steps);
            let start = card * at.size + at.list;
            let end = start + layout::LIST_SIZE;
            checks::bad_release(reader::read(&memory[start..end], header.pages), steps)
        }
        _ => true,
    }
}

// A memory within its limits that has these places.
#[tactic(auto, unfolding(protocol::specs::Checks::few_live))]
pub fn unfit_at(memory: &[u32], at: Places, directory: LentDirectory<'_>) -> bool
    requires { MemoryBy at directory.header (length memory.now) }
    ensures { result
        ≡ unfit_by (lent directory.entry)
        (bad_card_at at directory.entry.header.live directory.entry.header.pages memory.now) }
{
    let header = directory.header;
    checks::count_live(header) < 2
        || numbers::any_below(header.pages, |page| {
            checks::bad_page(header, directory.primary, directory.secondary, page)
        })
        || checks::bad_status(header)
        || numbers::any_below(header.cards, |card| bad_card(memory, at, header, card))
}
