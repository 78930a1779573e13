// Callers that have numbers alone for their refusals.
ghost use Rattle.std.specs.Prelude.{◌≡◌};
ghost use Rattle.diff.specs.Room.{room_for};
ghost use Rattle.encoder.specs.Room.{outcome_by_number};

use crate::room_for;

#[tactic(auto, using(crate::proofs::Room::room_numbered))]
fn room_by_number(too_long: u32, words: usize, room: usize) -> Result<u64, u32>
    ensures { outcome_by_number result ≡ room_for too_long words room }
{
    room_for(too_long, words, room)
}

#[test]
fn any_number_refuses(rt: HostRuntime) {
    assert_eq!(rt; room_by_number(300, 513, 600), Err(300));
    assert_eq!(rt; room_by_number(300, 512, 511), Err(17));
    assert_eq!(rt; room_by_number(300, 512, 512), Ok(512));
}
