// The mover (document 02, request 5): takes a rack's memory from document 01's form, in which a number
// is one word, to the form of two words, and back. Like the calls of the rack it answers on any memory
// and directory, and a refusal changes no word of what was lent.
#![tactic(auto)]

ghost use Rattle.std.specs.Prelude.{◌≡◌};
ghost use Rattle.answer.specs.Refusal.{outcome_of};
ghost use Rattle.directory.specs.Lent.{lent};
ghost use Rattle.laws.specs.Examples.{AllHold};
ghost use Rattle.mover.specs.Moving.{move_from};
ghost use Rattle.mover.specs.Move.{move_in, move_back};
ghost use Rattle.mover.specs.Theorems.{MovedBackIsOld, HighWordsZero, SaysWhatOldSaid};
ghost use Rattle.mover.specs.Theorems.{LowWordsKept, NumbersKept, RefusedMoves};
ghost use Rattle.mover.specs.Theorems.{NewFormIsLayout};
ghost use Rattle.mover.specs.Examples.{examples};

mod fields;
mod forms;
mod high;
mod move_checks;
mod unfit;

use answer::Refusal;
use directory::Directory;
use directory::lent::LentDirectory;
use forms::Form;
use rack::Reply;

// A move from this form: what it answers.
fn move_from(
    source: &[u32],
    from: Form,
    directory: LentDirectory<'_>,
    target: &mut [u32],
) -> Result<u64, Refusal>
    ensures answer { outcome_of result
        ≡ (move_from from (lent directory.entry) source.now target.old).outcome }
    ensures memory { target.new
        ≡ (move_from from (lent directory.entry) source.now target.old).memory }
{
    move_checks::check_move(source, from, target, directory)?;
    let header = directory.header;
    fields::move_memory(source, from, target, header.cards, header.pages);
    Ok(0)
}

// From an old memory into one of the new form. The old one is kept, and so is the directory.
pub fn move_in(old: &[u32], directory: Directory, new: &mut [u32]) -> Reply
    ensures answer { outcome_of result.answer
        ≡ (move_in directory old.now new.old).outcome }
    ensures directory { result.directory
        ≡ (move_in directory old.now new.old).directory }
    ensures memory { new.new
        ≡ (move_in directory old.now new.old).memory }
{
    let answer = move_from(old, Form::Old, directory.lend(), new);
    Reply { directory, answer }
}

// From a memory of the new form into an old one. That of the new form is kept, and so is the
// directory.
pub fn move_back(new: &[u32], directory: Directory, old: &mut [u32]) -> Reply
    ensures answer { outcome_of result.answer
        ≡ (move_back directory new.now old.old).outcome }
    ensures directory { result.directory
        ≡ (move_back directory new.now old.old).directory }
    ensures memory { old.new
        ≡ (move_back directory new.now old.old).memory }
{
    let answer = move_from(new, Form::New, directory.lend(), old);
    Reply { directory, answer }
}

// ---- what is proved of it: each function does nothing when it is called, and is where the gate shows
// a theorem

// Going back after going in, into any memory of the old length, is accepted and returns every old
// word, of dead cards too.
#[tactic(auto, using(crate::proofs::Theorems::moved_back_is_old))]
pub fn moved_back_is_old()
    ensures { MovedBackIsOld }
{}

// Going in, every high word is 0, of dead cards too.
#[tactic(auto, using(crate::proofs::Theorems::high_words_zero))]
pub fn high_words_are_zero()
    ensures { HighWordsZero }
{}

// A rack that was moved in says what the old one said: every word but the high ones, what its records
// tell, and what fetches and desk questions answer.
#[tactic(auto, using(crate::proofs::Theorems::says_what_old_said))]
pub fn says_what_old_said()
    ensures { SaysWhatOldSaid }
{}

// Going back, every word but the high ones is kept, of dead cards too.
#[tactic(auto, using(crate::proofs::Theorems::low_words_kept))]
pub fn low_words_are_kept()
    ensures { LowWordsKept }
{}

// Going back, every stamp and done mark of a live card is kept whole: that is what 20 is for.
#[tactic(auto, using(crate::proofs::Theorems::numbers_kept))]
pub fn numbers_are_kept()
    ensures { NumbersKept }
{}

// A refused move keeps the memory that it would have written, and the directory, and has the number 1,
// 2, 11, 15 or, going back, 20.
#[tactic(auto, using(crate::proofs::Theorems::refused_moves))]
pub fn refused_moves_change_nothing()
    ensures { RefusedMoves }
{}

// The new form is the layout that the calls go by.
#[tactic(auto, using(crate::proofs::Theorems::new_form_is_layout))]
pub fn new_form_is_layout()
    ensures { NewFormIsLayout }
{}

// Worked examples of moves, computed from the definitions.
#[tactic(auto, using(crate::proofs::Examples::examples_hold))]
pub fn examples_hold()
    ensures { AllHold examples }
{}
