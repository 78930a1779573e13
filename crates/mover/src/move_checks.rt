// What moves refuse: 1, 2, 11 and 15, of which 2 and 15 are read in the form that is moved from, and on
// the way back 20.
ghost use Rattle.std.specs.Prelude.{◌≡◌, ◌<◌, length};
ghost use Rattle.laws.specs.Search.{any_below};
ghost use Rattle.answer.specs.Refusal.{checked};
ghost use Rattle.directory.specs.Lent.{lent};
ghost use Rattle.protocol.specs.Checks.{first_refusal};
ghost use Rattle.mover.specs.Forms.{width, places_in, MemoryBy};
ghost use Rattle.mover.specs.Move.{outside_limits_of, open_at, move_checks};
ghost use Rattle.mover.specs.Moving.{words_of, checks_from};

use crate::forms::{Form, Places};
use crate::{high, unfit};
use answer::Refusal;
use directory::Header;
use directory::lent::LentDirectory;
use laws::numbers;

// 1: cards or pages outside their limits, or either memory not of its length.
fn outside_limits(old: usize, new: usize, cards: u32, pages: u32) -> bool
    ensures { result ≡ outside_limits_of old new cards pages }
{
    checks::outside_limits(new, cards, pages)
        || old != (cards as usize) * Form::Old.places(pages).size
}

// Whether a release is open on a live card: what `area::releases` tells of the new form alone.
fn open_at(memory: &[u32], at: Places, header: Header, card: u32) -> bool
    requires memory_by { MemoryBy at header (length memory.now) }
    requires card_lt_cards { card < header.cards }
    ensures { result ≡ open_at at header.live memory.now card }
{
    header.is_live(card) && memory::load_word(memory, at.size, card as usize, at.flag) == 1
}

// 15: a release is open on a live card.
fn any_open(memory: &[u32], at: Places, header: Header) -> bool
    requires { MemoryBy at header (length memory.now) }
    ensures { result
        ≡ any_below (open_at at header.live memory.now) header.cards }
{
    numbers::any_below(header.cards, |card| open_at(memory, at, header, card))
}

// 1, 2, 11 and 15; `old` and `new` are the lengths of the two memories, of which the source is one.
#[tactic(auto, unfolding(protocol::specs::Checks::first_refusal))]
fn check_source(
    source: &[u32],
    from: Form,
    old: usize,
    new: usize,
    directory: LentDirectory<'_>,
) -> Result<(), Refusal>
    requires { length source.now ≡ words_of from old new }
    ensures { checked result
        ≡ first_refusal
        (move_checks (places_in (width from) directory.entry.header.pages) (lent directory.entry) old new
        source.now)
        0 }
{
    let header = directory.header;
    if outside_limits(old, new, header.cards, header.pages) {
        return Err(Refusal::Limits);
    }
    let at = from.places(header.pages);
    if unfit::unfit_at(source, at, directory) {
        return Err(Refusal::Unfit);
    }
    if checks::awaits_recovery(header.status) {
        return Err(Refusal::RecoveryAwaited);
    }
    checks::last_check(any_open(source, at, header), Refusal::JoinWhileOpen)
}

// All that a move from this form refuses. On the way back 20 comes last.
pub fn check_move(
    source: &[u32],
    from: Form,
    target: &[u32],
    directory: LentDirectory<'_>,
) -> Result<(), Refusal>
    ensures { checked result
        ≡ first_refusal (checks_from from (lent directory.entry) source.now target.now) 0 }
{
    match from {
        Form::Old => check_source(source, from, source.len(), target.len(), directory),
        Form::New => {
            check_source(source, from, target.len(), source.len(), directory)?;
            checks::last_check(
                high::too_high(source, directory.header),
                Refusal::StampTooHigh,
            )
        }
    }
}
