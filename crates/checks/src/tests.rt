// Callers that have numbers alone for their refusals.
ghost use Rattle.std.specs.Prelude.{◌≡◌, [], ◌∷◌};
ghost use Rattle.protocol.specs.Checks.{check, first_refusal};
ghost use Rattle.checks.specs.Numbers.{checked_by_number};

use crate::last_check;

#[tactic(auto, using(crate::proofs::Order::last_numbered))]
fn last_check_by_number(refuses: bool, number: u32) -> Result<(), u32>
    ensures { checked_by_number result ≡ first_refusal (check refuses number ∷ []) 0 }
{
    last_check(refuses, number)
}

#[test]
fn any_number_refuses(rt: HostRuntime) {
    assert_eq!(rt; last_check_by_number(true, 300), Err(300));
    assert_eq!(rt; last_check_by_number(false, 300), Ok(()));
}
