// Whether a memory and a directory fit each other, whether the rack runs, and whether there is such
// a card: refusals 1, 2, 11 and 3. A function that answers a `bool` is true where its check refuses;
// one that begins with `check_` makes several checks in order, and answers the first refusal.
#![tactic(auto)]

ghost use Rattle.std.specs.Prelude.{◌≡◌, ◌*◌, ◌<◌, ◌≤◌, cond, not, ◌||◌, length, leb, Ok, Err};
ghost use Rattle.laws.specs.Search.{any_below, count_below};
ghost use Rattle.answer.specs.Refusal.{checked};
ghost use Rattle.directory.specs.Directory.{live_at, awaits_card, directory_by};
ghost use Rattle.directory.specs.Lent.{lent};
ghost use Rattle.area.specs.Prelude.{area_size, AreaIn, MemoryOf};
ghost use Rattle.protocol.specs.Checks.{outside_limits, bad_home, bad_page, bad_status, bad_release};
ghost use Rattle.protocol.specs.Checks.{bad_card, unfit_rack, first_refusal, fitting_checks};
ghost use Rattle.protocol.specs.Checks.{awaits_recovery, running_checks, card_checks, live_card_checks};
ghost use Rattle.checks.specs.Homes.{misplaced, misplaced_page};

use answer::Refusal;
use diff::{Extent, ReadError};
use directory::lent::LentDirectory;
use directory::{Header, Status};
use laws::numbers;

#[cfg(test)]
mod tests;

// 1: cards or pages outside their limits, or a memory not of the stated length.
#[tactic(auto, unfolding(protocol::specs::Checks::outside_limits))]
pub fn outside_limits(words: usize, cards: u32, pages: u32) -> bool
    ensures { result ≡ outside_limits words cards pages }
{
    cards < 3
        || 8 < cards
        || pages < 1
        || 64 < pages
        || words != (cards as usize) * area::layout::area_size(pages)
}

// ---- 2: memory and directory that do not fit each other

// The number of live cards.
pub fn count_live(header: Header) -> u32
    requires { header.cards ≤ 8 }
    ensures { result ≡ count_below (live_at header.live) header.cards }
{
    numbers::count_below(header.cards, |card| header.is_live(card))
}

// Whether recovery of `card` is awaited.
fn awaits(status: Status, card: u32) -> bool
    ensures { result ≡ awaits_card status card }
{
    match status {
        Status::Running => false,
        Status::Awaiting(awaited) => awaited == card,
    }
}

#[tactic(auto, unfolding(protocol::specs::Checks::bad_home))]
fn bad_home(header: Header, home: u32) -> bool
    ensures { result ≡ bad_home header.cards header.live header.status home }
{
    header.cards <= home || !header.is_live(home) && !awaits(header.status, home)
}

#[tactic(auto, unfolding(protocol::specs::Checks::bad_page))]
pub fn bad_page(header: Header, primary: &[u32], secondary: &[u32], page: u32) -> bool
    requires { (page < length primary.now) × (page < length secondary.now) }
    ensures { result ≡ bad_page (directory_by header primary.now secondary.now) page }
{
    let primary = primary[page as usize];
    let secondary = secondary[page as usize];
    primary == secondary || bad_home(header, primary) || bad_home(header, secondary)
}

fn bad_pages(directory: LentDirectory<'_>) -> bool
    requires { directory.header.pages ≤ 64 }
    ensures { result ≡ any_below (bad_page (lent directory.entry)) directory.entry.header.pages }
{
    let LentDirectory {
        header,
        primary,
        secondary,
    } = directory;
    numbers::any_below(
        header.pages,
        |page| bad_page(header, primary, secondary, page),
    )
}

// Whether the homes of a page are the same, or one of them is no card of the rack.
#[tactic(auto, unfolding(crate::specs::Homes::misplaced))]
fn misplaced(cards: u32, primary: u32, secondary: u32) -> bool
    ensures { result ≡ misplaced cards primary secondary }
{
    primary == secondary || cards <= primary || cards <= secondary
}

// The number of such pages. The loop looks at all of them, though one is enough to refuse: without
// an exit several pages are compared at once.
fn count_misplaced(directory: LentDirectory<'_>) -> u32
    requires { directory.header.pages ≤ 64 }
    ensures { result
        ≡ count_below
        (misplaced_page directory.entry.header.cards directory.entry.primary.now directory.entry.secondary.now)
        directory.entry.header.pages }
{
    numbers::count_below(directory.header.pages, |page| {
        let primary = directory.primary[page as usize];
        let secondary = directory.secondary[page as usize];
        misplaced(directory.header.cards, primary, secondary)
    })
}

// Whether a page has bad homes; `count` cards are live. Where all are, the homes' numbers tell.
fn bad_homes(directory: LentDirectory<'_>, count: u32) -> bool
    requires pages_bound { directory.header.pages ≤ 64 }
    requires count_value { count
        ≡ count_below (live_at directory.header.live) directory.header.cards }
    ensures { result ≡ any_below (bad_page (lent directory.entry)) directory.entry.header.pages }
{
    if count == directory.header.cards {
        return 0 < count_misplaced(directory);
    }
    bad_pages(directory)
}

#[tactic(auto, unfolding(protocol::specs::Checks::bad_status))]
pub fn bad_status(header: Header) -> bool
    ensures { result ≡ bad_status header.cards header.live header.status }
{
    match header.status {
        Status::Running => false,
        Status::Awaiting(awaited) => header.cards <= awaited || header.is_live(awaited),
    }
}

#[tactic(auto, unfolding(protocol::specs::Checks::bad_release))]
pub fn bad_release(read: Result<Extent, ReadError>, steps: u32) -> bool
    ensures { result ≡ bad_release read steps }
{
    match read {
        Ok(extent) => 4 * (extent.prices as u64) + 10 < steps as u64,
        Err(_) => true,
    }
}

#[tactic(auto, unfolding(protocol::specs::Checks::bad_card))]
fn bad_card(memory: &[u32], header: Header, card: u32) -> bool
    requires memory_of { MemoryOf header (length memory.now) }
    requires card_lt_cards { card < header.cards }
    ensures { result ≡ bad_card header.live header.pages memory.now card }
{
    if !header.is_live(card) {
        return false;
    }
    let size = area::layout::area_size(header.pages);
    let card = card as usize;
    match memory::load_word(memory, size, card, area::layout::OPEN_FLAG) {
        0 => false,
        1 => {
            let steps = area::releases::steps_made(memory, size, card);
            let list = area::releases::open_list(memory, size, card);
            bad_release(reader::read(list, header.pages), steps)
        }
        _ => true,
    }
}

fn bad_cards(memory: &[u32], header: Header) -> bool
    requires { MemoryOf header (length memory.now) }
    ensures { result
        ≡ any_below (bad_card header.live header.pages memory.now)
        header.cards }
{
    numbers::any_below(header.cards, |card| bad_card(memory, header, card))
}

// 2, of a rack within its limits.
#[tactic(auto, unfolding(protocol::specs::Checks::unfit_rack, protocol::specs::Checks::few_live))]
fn unfit_rack(memory: &[u32], directory: LentDirectory<'_>) -> bool
    requires { MemoryOf directory.header (length memory.now) }
    ensures { result ≡ unfit_rack (lent directory.entry) memory.now }
{
    let count = count_live(directory.header);
    count < 2
        || bad_homes(directory, count)
        || bad_status(directory.header)
        || bad_cards(memory, directory.header)
}

// ---- the checks in order

// A check after which none follows, by whatever its caller has for a refusal: a `Refusal`, or its
// number alone.
pub fn last_check<E: Drop>(refuses: bool, refusal: E) -> Result<(), E>
    ensures { result ≡ cond refuses (Err refusal) (Ok tt) }
{
    if refuses { Err(refusal) } else { Ok(()) }
}

// 1 and 2: whether the two fit.
pub fn check_fitting(memory: &[u32], directory: LentDirectory<'_>) -> Result<(), Refusal>
    ensures { checked result
        ≡ first_refusal (fitting_checks (lent directory.entry) memory.now) 0 }
{
    let header = directory.header;
    if outside_limits(memory.len(), header.cards, header.pages) {
        return Err(Refusal::Limits);
    }
    last_check(unfit_rack(memory, directory), Refusal::Unfit)
}

// Whether any recovery is awaited.
#[tactic(auto, unfolding(protocol::specs::Checks::awaits_recovery))]
pub fn awaits_recovery(status: Status) -> bool
    ensures { result ≡ awaits_recovery status }
{
    match status {
        Status::Running => false,
        Status::Awaiting(_) => true,
    }
}

// 1, 2 and 11: whether the rack runs.
pub fn check_running(memory: &[u32], directory: LentDirectory<'_>) -> Result<(), Refusal>
    ensures { checked result
        ≡ first_refusal (running_checks (lent directory.entry) memory.now) 0 }
{
    check_fitting(memory, directory)?;
    let awaited = awaits_recovery(directory.header.status);
    last_check(awaited, Refusal::RecoveryAwaited)
}

// 1, 2, 11 and 3: whether there is such a card, live or dead.
pub fn check_card(memory: &[u32], directory: LentDirectory<'_>, card: u32) -> Result<(), Refusal>
    ensures { checked result
        ≡ first_refusal (card_checks (lent directory.entry) memory.now card) 0 }
{
    check_running(memory, directory)?;
    last_check(directory.header.cards <= card, Refusal::NoCard)
}

// Whether there is no such card, or it is dead.
fn no_live_card(header: Header, card: u32) -> bool
    ensures { result ≡ (leb header.cards card || not (live_at header.live card)) }
{
    header.cards <= card || !header.is_live(card)
}

// 1, 2, 11 and 3: whether there is such a card, and it is live.
pub fn check_live_card(
    memory: &[u32],
    directory: LentDirectory<'_>,
    card: u32,
) -> Result<(), Refusal>
    ensures { checked result
        ≡ first_refusal (live_card_checks (lent directory.entry) memory.now card) 0 }
{
    check_running(memory, directory)?;
    last_check(no_live_card(directory.header, card), Refusal::NoCard)
}
