// The diff (document 01's list of changes): its definitions, and the theorems on the one that
// prices, marked words, two states of the pages, or two diffs make.
// The types are declared here; the code that reads and makes diffs stands in the crates above.
#![tactic(auto)]

ghost use Rattle.std.specs.Prelude.{◌≡◌, ◌<◌};
ghost use Rattle.laws.specs.Examples.{AllHold};
ghost use Rattle.answer.specs.declared.Refusal.TheVariants.{FaultyList};
ghost use Rattle.diff.specs.Prices.{label_of};
ghost use Rattle.diff.specs.OnlyDiff.{OneDiffForPrices};
ghost use Rattle.diff.specs.MadeDiff.{MadeOfMarksOnly, MakesAllowedDiff, MarksAreChanges};
ghost use Rattle.diff.specs.MadeDiff.{StoresChanges, MadeIsOnlyDiff};
ghost use Rattle.diff.specs.MergedDiff.{MergedIsBoth, AnswersMerges, MergesEitherWay};
ghost use Rattle.diff.specs.MergedDiff.{EmptyChangesNothing};
ghost use Rattle.diff.specs.Examples.{examples};
ghost use Rattle.diff.specs.MergeExamples.{merge_examples};

pub mod format;

use answer::Refusal;

// Where the reading of a diff stands.
#[derive(Clone, Copy)]
pub struct Cursor {
    // The lowest page that a page word may name: one more than the last one named, 0 before the
    // first.
    pub next: u32,
    // The word of the last page that the next price is for; between runs, the end of the run
    // before.
    pub word: u32,
    // How far past `word` the next run must start: 0 right after a page word, which has no run yet;
    // else 1.
    pub gap: u32,
    // Prices of the run that are still to come.
    pub due: u32,
    // Prices read.
    pub prices: u32,
}

// What one word does to the reading. It has three cases of one weight, which no `Option` or `Result`
// names.
#[derive(Clone, Copy)]
pub enum Step {
    Next(Cursor),
    End,
    Fault,
}

// How much a diff has that was read to its end word.
#[derive(Clone, Copy)]
pub struct Extent {
    pub prices: u32,
    // The end word among them.
    pub words: u32,
}

// Why a diff was not read to an end word.
#[derive(Clone, Copy)]
pub struct ReadError {
    // The first word that breaks a rule, or the length of a list that stops early.
    pub place: u32,
}

impl From<ReadError> for Refusal {
    ghost from_gives = { λ error refusal. refusal ≡ FaultyList error.place };

    fn from(error: ReadError) -> Refusal {
        Refusal::FaultyList(error.place)
    }
}

// One word of one page, and the price that it is set to.
#[derive(Clone, Copy)]
pub struct Price {
    pub page: u32,
    pub word: u32,
    pub price: u32,
}

impl Price {
    // The number of its word among those of all pages.
    pub fn label(self) -> u32
        requires { (self.page < 64) × (self.word < 32) }
        ensures { result ≡ label_of self }
    {
        32 * self.page + self.word
    }
}

// For each set of labels and their prices document 01 allows one diff, where the gate shows it. It
// does nothing when it is called.
pub fn one_diff_for_prices()
    ensures { OneDiffForPrices }
{}

// The diff made of marked words names just these at their working prices, and is the only such diff
// that document 01 allows, where the gate shows it; and the list maker makes it wherever there is
// one, with room for it. It does nothing when it is called.
pub fn made_of_marks()
    ensures made { MadeOfMarksOnly }
    ensures accepted { MakesAllowedDiff }
{}

// The marks of the changes mark just the words that differ from their twins, and the diff made with
// them is that of the differences, where the gate shows it. It does nothing when it is called.
pub fn marks_are_changes()
    ensures made { MarksAreChanges }
    ensures accepted { StoresChanges }
{}

// Demand 2 on diffs, where the gate shows it: the diff made with the marks of the changes turns the
// twins into the working pages, and is the only one that document 01 allows for those changes. It
// does nothing when it is called.
pub fn made_is_only_diff()
    ensures { MadeIsOnlyDiff }
{}

// The diff that two others are merged into does what the first and then the second do, and is the
// only such diff that document 01 allows, where the gate shows it; and what merging answers, for
// three diffs in either bracketing, and for the diff that changes nothing. It does nothing when it
// is called.
pub fn merged_is_both()
    ensures merged { MergedIsBoth }
    ensures answered { AnswersMerges }
    ensures three { MergesEitherWay }
    ensures empty { EmptyChangesNothing }
{}

// Worked examples of diffs, computed from the definitions. It does nothing when it is called.
pub fn examples_hold()
    ensures lists { AllHold examples }
    ensures merges { AllHold merge_examples }
{}
