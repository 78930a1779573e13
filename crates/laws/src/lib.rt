// Searches over the numbers below a bound, as cards and pages are, and laws on lists and tests that
// the proofs of several crates cite.
#![tactic(auto)]

pub mod numbers;
