// Document 01's worked numbers, from the definitions that the calls' contracts cite. The functions
// do nothing when they are called.
#![tactic(auto)]

ghost use Rattle.laws.specs.Examples.{AllHold};
ghost use Rattle.worked.specs.Rows.{rows, shown};

// The twelve rows with ◆.
pub fn numbers_of_document_01()
    ensures { AllHold rows }
{}

// What accepted fetches show after recoveries.
pub fn recoveries_show()
    ensures { AllHold shown }
{}
