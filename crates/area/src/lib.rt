// A card's area in the lent memory (document 01, "Cards, pages, memory"): where things stand in it,
// and what it says of releases, lists, records and pages.
#![tactic(auto)]

ghost use Rattle.laws.specs.Examples.{AllHold};
ghost use Rattle.area.specs.Examples.{examples};

pub mod layout;
pub mod numbers;
pub mod pages;
pub mod records;
pub mod releases;

// Worked examples of the layout and of records, computed from the definitions. It does nothing when it is called.
pub fn examples_hold()
    ensures { AllHold examples }
{}
