// Several calls in one. Each answers and leaves what the single calls, made one after the other,
// would; inside, the rack is checked once.
#![tactic(auto)]

ghost use Rattle.std.specs.Prelude.{◌≡◌, ℕ, List, false, not, ◌*◌, ◌<◌, length, get_or, min};
ghost use Rattle.laws.specs.Search.{in_turn};
ghost use Rattle.answer.specs.Refusal.{checked, outcome_of};
ghost use Rattle.directory.specs.Directory.{backup_of, directory_by, header_of};
ghost use Rattle.directory.specs.Lent.{lent};
ghost use Rattle.area.specs.Prelude.{page_size, MemoryOf};
ghost use Rattle.protocol.specs.Checks.{first_refusal};
ghost use Rattle.protocol.specs.Recovery.{step_times};
ghost use Rattle.release.specs.Stepping.{CardOf, HomesOf, GoodRelease, left_of};
ghost use Rattle.batch.specs.Steps.{steps, stopped_at};
ghost use Rattle.batch.specs.FetchAll.{fetch_all_checks, fetch_all, fetched_pages};
ghost use Rattle.batch.specs.Showing.{words_after, show_next, PrimariesIn};
ghost use Rattle.batch.specs.Demand1.{BatchedDemand1};

use answer::Refusal;
use area::layout;
use directory::lent::LentDirectory;
use directory::{Directory, Header};

// ---- steps

// How many steps were made; the answer is that number, or the refusal that stopped them.
#[derive(Clone, Copy)]
pub struct StepsReply {
    pub directory: Directory,
    pub made: u32,
    pub answer: Result<u64, Refusal>,
}

// Makes so many steps of a release, or all that it has left if they are fewer; answers how many.
fn make_steps(memory: &mut [u32], directory: Directory, card: u32, count: u32) -> u32
    requires homes_of { HomesOf directory (length memory.old) }
    requires card_in { CardOf (header_of directory) (length memory.old) card }
    requires backup_in { CardOf (header_of directory) (length memory.old)
        (backup_of directory card) }
    requires good_release { GoodRelease directory.pages memory.old card }
    ensures made { result ≡ min count (left_of directory.pages memory.old card) }
    ensures memory { memory.new
        ≡ step_times directory (backup_of directory card) card result memory.old }
{
    let backup = directory.backup(card) as usize;
    let LentDirectory {
        header,
        primary,
        secondary,
    } = directory.lend();
    let at = card as usize;
    release::make_steps(memory, header, primary, secondary, backup, at, count)
}

// All steps asked for are made, or no release is open for the next one.
fn answer_to(count: u32, made: u32) -> Result<u64, Refusal>
    ensures { outcome_of result ≡ stopped_at count made }
{
    if count <= made {
        Ok(made as u64)
    } else {
        Err(Refusal::NoneOpen)
    }
}

// Makes steps of the release that is open on a card, until the count or a refusal.
pub fn steps(memory: &mut [u32], directory: Directory, card: u32, count: u32) -> StepsReply
    ensures made { result.made ≡ (steps directory memory.old card count).made }
    ensures answer { outcome_of result.answer
        ≡ (steps directory memory.old card count).outcome }
    ensures directory { result.directory
        ≡ (steps directory memory.old card count).directory }
    ensures memory { memory.new
        ≡ (steps directory memory.old card count).memory }
{
    if count == 0 {
        return StepsReply {
            directory,
            made: 0,
            answer: Ok(0),
        };
    }
    match refusals::step(memory, directory.lend(), card) {
        Err(refusal) => StepsReply {
            directory,
            made: 0,
            answer: Err(refusal),
        },
        Ok(()) => {
            let made = make_steps(memory, directory, card, count);
            StepsReply {
                directory,
                made,
                answer: answer_to(count, made),
            }
        }
    }
}

// ---- fetches

// 1, 2, 11, and 17 of a buffer that has not 32 words for each page.
fn check_fetch(memory: &[u32], directory: LentDirectory<'_>, room: usize) -> Result<(), Refusal>
    ensures { checked result
        ≡ first_refusal (fetch_all_checks (lent directory.entry) memory.now room) 0 }
{
    checks::check_running(memory, directory)?;
    let whole = layout::PAGE_SIZE * (directory.header.pages as usize);
    checks::last_check(room != whole, Refusal::WrongBuffer)
}

// Copies a page into its part of the buffer, unless it is in motion: whether it is shown. It looks at
// no secondary home.
fn fetch_next(
    memory: &[u32],
    header: Header,
    primary: &[u32],
    moving: &[bool; 64],
    page: u32,
    buffer: &mut [u32],
) -> bool
    requires memory_of { MemoryOf header (length memory.now) }
    requires page_bound { (page < header.pages) × (page < length primary.now) }
    requires home_lt_cards { get_or primary.now page 0 < header.cards }
    requires buffer_len { length buffer.old ≡ page_size * header.pages }
    ensures shown { result ≡ not (get_or moving.now page false) }
    ensures buffer { (secondary : List ℕ) → buffer.new
        ≡ words_after moving.now (directory_by header primary.now secondary)
        memory.now page buffer.old }
{
    let at = page as usize;
    if moving[at] {
        return false;
    }
    let size = layout::area_size(header.pages);
    let home = primary[at] as usize;
    let from = layout::PAGE_SIZE * at;
    let end = from + layout::PAGE_SIZE;
    area::pages::load_committed(memory, size, home, at, &mut buffer[from..end]);
    true
}

// Copies each page that is not in motion.
fn fetch_pages(
    memory: &[u32],
    directory: LentDirectory<'_>,
    moving: &[bool; 64],
    buffer: &mut [u32],
    shown: &mut [bool; 64],
)
    requires memory_of { MemoryOf directory.header (length memory.now) }
    requires primaries_in { PrimariesIn directory.header.cards directory.header.pages
        directory.primary.now }
    requires buffer_len { length buffer.old ≡ page_size * directory.header.pages }
    ensures { fetched_pages buffer.new shown.new
        ≡ in_turn
        (show_next moving.now (lent directory.entry) memory.now)
        directory.entry.header.pages (fetched_pages buffer.old shown.old) }
{
    let LentDirectory {
        header,
        primary,
        secondary: _,
    } = directory;
    for page in 0..header.pages {
        shown[page as usize] = fetch_next(memory, header, primary, moving, page, buffer);
    }
}

// The answer, and which pages were shown: none if the call is refused.
#[derive(Clone, Copy)]
pub struct FetchAllAnswer {
    pub answer: Result<u64, Refusal>,
    pub shown: [bool; 64],
}

// Fetches every page into its part of one buffer of 32 words for each page. The words of a page in
// motion are kept. For a directory that is lent.
pub fn fetch_all_lent(
    memory: &[u32],
    directory: LentDirectory<'_>,
    buffer: &mut [u32],
) -> FetchAllAnswer
    ensures answer { outcome_of result.answer
        ≡ (fetch_all (lent directory.entry) memory.now buffer.old).outcome }
    ensures pages { fetched_pages buffer.new result.shown
        ≡ (fetch_all (lent directory.entry) memory.now buffer.old).pages }
{
    let mut shown = [false; 64];
    match check_fetch(memory, directory, buffer.len()) {
        Err(refusal) => FetchAllAnswer {
            answer: Err(refusal),
            shown,
        },
        Ok(()) => {
            let mut moving = [false; 64];
            conflict::mark_in_motion(memory, directory.header, &mut moving);
            fetch_pages(memory, directory, &moving, buffer, &mut shown);
            FetchAllAnswer {
                answer: Ok(0),
                shown,
            }
        }
    }
}

// The same, with the directory handed back.
#[derive(Clone, Copy)]
pub struct FetchAllReply {
    pub directory: Directory,
    pub answer: Result<u64, Refusal>,
    pub shown: [bool; 64],
}

// The same, of a directory that is handed in and handed back.
pub fn fetch_all(memory: &[u32], directory: Directory, buffer: &mut [u32]) -> FetchAllReply
    ensures answer { outcome_of result.answer
        ≡ (fetch_all directory memory.now buffer.old).outcome }
    ensures directory { result.directory
        ≡ (fetch_all directory memory.now buffer.old).directory }
    ensures pages { fetched_pages buffer.new result.shown
        ≡ (fetch_all directory memory.now buffer.old).pages }
{
    let fetched = fetch_all_lent(memory, directory.lend(), buffer);
    let shown = fetched.shown;
    FetchAllReply {
        directory,
        answer: fetched.answer,
        shown,
    }
}

// ---- demand 1

// A refused fetch of all pages changes nothing; where a refusal stops a batch of steps, the steps
// made before it stand and it changes nothing more. The function does nothing when it is called: it
// is where the gate shows the theorem.
pub fn refused_keeps_steps_made()
    ensures { BatchedDemand1 }
{}
