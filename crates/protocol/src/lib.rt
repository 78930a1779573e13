// The demands on the rack, over the definitions that the calls' contracts cite. The functions here
// do nothing when they are called: they are where the gate shows the theorems. Demand 3 and what
// follows from it hold by the rule for new homes that recovery has, and by any other that names a
// live card other than the home that a page keeps.
#![tactic(auto)]

ghost use Rattle.laws.specs.Examples.{AllHold};
ghost use Rattle.protocol.specs.Demand1.{Demand1};
ghost use Rattle.protocol.specs.Demand3.{Demand3, Demand3By, ByAnyRule};
ghost use Rattle.protocol.specs.AnswersAsModel.{AnswersAsModel, AnswersAsModelBy};
ghost use Rattle.protocol.specs.AnswersAsBefore.{AnswersAsBefore, AnswersByAnyRule};
ghost use Rattle.protocol.specs.PastLimits.{PastLimits};
ghost use Rattle.protocol.specs.Corollaries.{AlwaysFits, AlwaysFitsBy};
ghost use Rattle.protocol.specs.Corollaries.{ResendsRefused, ResendsRefusedBy};
ghost use Rattle.protocol.specs.Corollaries.{CountsOnce, CountsOnceBy};
ghost use Rattle.protocol.specs.Examples.Releases.{release_examples};
ghost use Rattle.protocol.specs.Examples.Refusals.{refusal_examples};
ghost use Rattle.protocol.specs.Examples.Recoveries.{recovery_examples};
ghost use Rattle.protocol.specs.Examples.Joins.{join_examples};

// Demand 1: a refused call leaves everything that was lent as it was.
pub fn refused_changes_nothing()
    ensures { Demand1 }
{}

// What stands past a directory's cards and pages is read by no call, kept by each, and blank after
// formatting.
pub fn nothing_past_is_read()
    ensures { PastLimits }
{}

// Demand 3: after every list of calls, and whatever the areas of cards that are offline hold,
// accepted calls answer what the book holds.
pub fn calls_conform_to_book()
    ensures demand3 { Demand3 }
    ensures any_rule { ByAnyRule Demand3By }
{}

// Every call so made, refused or not, comes to the reference model's number, place and value, and
// hands back its words.
pub fn calls_answer_as_model()
    ensures answers_as_model { AnswersAsModel }
    ensures any_rule { ByAnyRule AnswersAsModelBy }
{}

// Two racks that get the same calls, one by document 01's rule for new homes and one by that of
// document 02, request 4, answer alike; so do any two whose rules name live cards.
pub fn calls_answer_as_before()
    ensures answers_as_before { AnswersAsBefore }
    ensures any_rule { AnswersByAnyRule }
{}

// No call on a rack so reached is refused with 2.
pub fn rack_always_fits()
    ensures always_fits { AlwaysFits }
    ensures any_rule { ByAnyRule AlwaysFitsBy }
{}

// A release resent to its card is refused with 4 or 5, unless a recovery undid it.
pub fn resends_are_refused()
    ensures resends_refused { ResendsRefused }
    ensures any_rule { ByAnyRule ResendsRefusedBy }
{}

// Each call counts at most the next number of a card, so no release counts twice.
pub fn releases_count_once()
    ensures counts_once { CountsOnce }
    ensures any_rule { ByAnyRule CountsOnceBy }
{}

// Worked examples of the calls, computed from the definitions: words, numbers, places and orders,
// also those that no theorem sees.
pub fn examples_hold()
    ensures releases { AllHold release_examples }
    ensures refusals { AllHold refusal_examples }
    ensures recoveries { AllHold recovery_examples }
    ensures joins { AllHold join_examples }
{}
