// Which calls the rack refuses: document 01's checks, in its order, for each call. A function
// answers the first refusal.
#![tactic(auto)]

ghost use Rattle.std.specs.Prelude.{◌≡◌, ◌<◌, length};
ghost use Rattle.answer.specs.Refusal.{checked};
ghost use Rattle.directory.specs.Lent.{lent};
ghost use Rattle.area.specs.Prelude.{MemoryOf};
ghost use Rattle.protocol.specs.Checks.{first_refusal};
ghost use Rattle.protocol.specs.Calls.{opening_checks, step_checks, page_checks, fetch_checks};
ghost use Rattle.protocol.specs.Calls.{failure_checks, recovery_checks, join_checks, desk_checks};
ghost use Rattle.refusals.specs.Parts.{list_checks, number_checks};

use answer::Refusal;
use directory::Header;
use directory::lent::LentDirectory;

// ---- opening a release

// 7 and 8: the list, and words of it that another card's open release prices.
fn check_list(memory: &[u32], header: Header, card: u32, list: &[u32]) -> Result<(), Refusal>
    requires { MemoryOf header (length memory.now) }
    ensures { checked result
        ≡ first_refusal (list_checks header memory.now card list.now) 0 }
{
    reader::check(list, header.pages)?;
    match conflict::lowest_sharing(memory, header, card, list) {
        Some(other) => Err(Refusal::WordInUse(other)),
        None => Ok(()),
    }
}

// 4, 5 and 6, then the list.
fn check_number(
    memory: &[u32],
    header: Header,
    card: u32,
    number: u64,
    list: &[u32],
) -> Result<(), Refusal>
    requires memory_of { MemoryOf header (length memory.now) }
    requires card_lt_cards { card < header.cards }
    ensures { checked result
        ≡ first_refusal (number_checks header memory.now card number list.now)
        0 }
{
    if area::releases::is_open_on(memory, header, card) {
        return Err(Refusal::ReleaseOpen);
    }
    let size = area::layout::area_size(header.pages);
    let stamp = area::numbers::load_number(memory, size, card as usize, area::layout::OWN_STAMP);
    if number <= stamp {
        return Err(Refusal::NumberUsed(stamp));
    }
    if stamp + 1 < number {
        return Err(Refusal::NumberAhead);
    }
    check_list(memory, header, card, list)
}

pub fn opening(
    memory: &[u32],
    directory: LentDirectory<'_>,
    card: u32,
    number: u64,
    list: &[u32],
) -> Result<(), Refusal>
    ensures { checked result
        ≡ first_refusal
        (opening_checks (lent directory.entry) memory.now card number list.now)
        0 }
{
    checks::check_live_card(memory, directory, card)?;
    check_number(memory, directory.header, card, number, list)
}

// ---- the other calls

pub fn step(memory: &[u32], directory: LentDirectory<'_>, card: u32) -> Result<(), Refusal>
    ensures { checked result
        ≡ first_refusal (step_checks (lent directory.entry) memory.now card) 0 }
{
    checks::check_live_card(memory, directory, card)?;
    checks::last_check(
        !area::releases::is_open_on(memory, directory.header, card),
        Refusal::NoneOpen,
    )
}

// 1, 2, 11, 9 and 10: those of a page that is to be shown.
fn check_page(memory: &[u32], directory: LentDirectory<'_>, page: u32) -> Result<(), Refusal>
    ensures { checked result
        ≡ first_refusal (page_checks (lent directory.entry) memory.now page) 0 }
{
    checks::check_running(memory, directory)?;
    if directory.header.pages <= page {
        return Err(Refusal::NoPage);
    }
    match conflict::lowest_in_motion(memory, directory.header, page) {
        Some(card) => Err(Refusal::PageInMotion(card)),
        None => Ok(()),
    }
}

// `room`: how many words the page buffer has.
pub fn fetch(
    memory: &[u32],
    directory: LentDirectory<'_>,
    page: u32,
    room: usize,
) -> Result<(), Refusal>
    ensures { checked result
        ≡ first_refusal (fetch_checks (lent directory.entry) memory.now page room) 0 }
{
    check_page(memory, directory, page)?;
    checks::last_check(room != area::layout::PAGE_SIZE, Refusal::WrongBuffer)
}

pub fn failure(memory: &[u32], directory: LentDirectory<'_>, card: u32) -> Result<(), Refusal>
    ensures { checked result
        ≡ first_refusal (failure_checks (lent directory.entry) memory.now card) 0 }
{
    checks::check_live_card(memory, directory, card)?;
    checks::last_check(checks::count_live(directory.header) <= 2, Refusal::TwoLive)
}

pub fn desk_question(memory: &[u32], directory: LentDirectory<'_>, card: u32) -> Result<(), Refusal>
    ensures { checked result
        ≡ first_refusal (desk_checks (lent directory.entry) memory.now card) 0 }
{
    checks::check_card(memory, directory, card)
}

// The stamp that an accepted recovery answers is not known yet.
pub fn recovery(memory: &[u32], directory: LentDirectory<'_>) -> Result<(), Refusal>
    ensures { checked result
        ≡ first_refusal (recovery_checks (lent directory.entry) memory.now) 0 }
{
    checks::check_fitting(memory, directory)?;
    checks::last_check(
        !checks::awaits_recovery(directory.header.status),
        Refusal::NoneAwaited,
    )
}

pub fn join(memory: &[u32], directory: LentDirectory<'_>, card: u32) -> Result<(), Refusal>
    ensures { checked result
        ≡ first_refusal (join_checks (lent directory.entry) memory.now card) 0 }
{
    checks::check_card(memory, directory, card)?;
    if directory.header.is_live(card) {
        return Err(Refusal::CardLive);
    }
    checks::last_check(
        conflict::any_open(memory, directory.header),
        Refusal::JoinWhileOpen,
    )
}
