// What the next step of a release does, by the number of its prices and of the steps that it has
// made.
ghost use Rattle.std.specs.Prelude.{◌≡◌, ◌+◌, ◌*◌, ◌<◌, ◌≤◌};
ghost use Rattle.area.specs.Prelude.{list_size};
ghost use Rattle.protocol.specs.Release.{steps_in};
ghost use Rattle.release.specs.Phases.{IsNext};

use area::layout;

// The steps that store the desk, one for each word.
const DESK_STEPS: u32 = layout::DESK_SIZE as u32;

// A release stores the desk's words and the stamp in its record once the tentative prices are stored,
// and the done mark once the committed ones are.
#[derive(Clone, Copy)]
pub(crate) enum Phase {
    StorePrice(PriceStore),
    StoreRecord(RecordStore),
    Close,
}

// One of the stores that write one half of the pages, two for each price in order: at the
// secondary, then at the primary. The price is number at / 2.
#[derive(Clone, Copy)]
pub(crate) struct PriceStore {
    // Where the half starts in a page.
    pub half: usize,
    pub at: u32,
}

// A store in the release's record at the backup.
#[derive(Clone, Copy)]
pub(crate) enum RecordStore {
    // This word of the desk.
    Desk(usize),
    Stamp,
    Done,
}

// How many steps a release of k prices has: the stores of both halves and of the desk, the stamp,
// the done mark and the close.
pub(crate) fn steps_in(k: u32) -> u32
    requires { k < list_size }
    ensures { result ≡ steps_in k }
{
    4 * k + DESK_STEPS + 3
}

// The next step, after so many of a release of k prices.
pub(crate) fn next_phase(k: u32, steps: u32) -> Phase
    requires { (k < list_size) × (steps < steps_in k) }
    ensures { IsNext k steps result }
{
    let stamp = 2 * k + DESK_STEPS;
    let committed = stamp + 1;
    let done = committed + 2 * k;
    if steps < 2 * k {
        let half = layout::TENTATIVE_HALF;
        Phase::StorePrice(PriceStore { half, at: steps })
    } else if steps < stamp {
        let word = (steps - 2 * k) as usize;
        Phase::StoreRecord(RecordStore::Desk(word))
    } else if steps == stamp {
        Phase::StoreRecord(RecordStore::Stamp)
    } else if steps < done {
        let half = layout::COMMITTED_HALF;
        let at = steps - committed;
        Phase::StorePrice(PriceStore { half, at })
    } else if steps == done {
        Phase::StoreRecord(RecordStore::Done)
    } else {
        Phase::Close
    }
}
