// The calls of the rack (document 01). Each takes the lent memory and the directory, and answers
// on any of them: a refusal changes no word of what was lent. Those that end in `_lent` take a
// directory whose homes are lent.
#![tactic(auto)]

ghost use Rattle.std.specs.Prelude.{◌≡◌, ◌<◌, length};
ghost use Rattle.answer.specs.Refusal.{outcome_of};
ghost use Rattle.directory.specs.Directory.{next_live_of, header_of};
ghost use Rattle.directory.specs.Lent.{lent};
ghost use Rattle.area.specs.Prelude.{zeros, desk_size, release_of, MemoryOf};
ghost use Rattle.protocol.specs.Calls.{formatting, opening, step, fetch, failure};
ghost use Rattle.protocol.specs.Calls.{recovery, join, desk_question};
ghost use Rattle.protocol.specs.Recovery.{awaited_card};
ghost use Rattle.protocol.specs.DeskQuestion.{desk_of};

use answer::Refusal;
use directory::lent::LentDirectory;
use directory::{Directory, Status};

// What a call hands back: the directory from then on, and what it answers.
#[derive(Clone, Copy)]
pub struct Reply {
    pub directory: Directory,
    pub answer: Result<u64, Refusal>,
}

// What a call hands back that answers desk words: all zero if it is refused.
#[derive(Clone, Copy)]
pub struct DeskReply {
    pub directory: Directory,
    pub answer: Result<u64, Refusal>,
    pub desk: [u32; 8],
}

// Zeroes the memory, makes all cards live and gives each page its homes.
pub fn format_rack(memory: &mut [u32], cards: u32, pages: u32) -> Reply
    ensures answer { outcome_of result.answer
        ≡ (formatting memory.old cards pages).outcome }
    ensures directory { result.directory
        ≡ (formatting memory.old cards pages).directory }
    ensures memory { memory.new
        ≡ (formatting memory.old cards pages).memory }
{
    if checks::outside_limits(memory.len(), cards, pages) {
        return Reply {
            directory: Directory::empty(),
            answer: Err(Refusal::Limits),
        };
    }
    memory.fill(0);
    Reply {
        directory: Directory::formatted(cards, pages),
        answer: Ok(0),
    }
}

// Opens a release on a card: its number, its desk and its list of changes. For a directory that is
// lent.
fn open_lent(
    memory: &mut [u32],
    directory: LentDirectory<'_>,
    card: u32,
    number: u64,
    desk: &[u32; 8],
    list: &[u32],
) -> Result<u64, Refusal>
    ensures answer { outcome_of result
        ≡ (opening (lent directory.entry) memory.old card (release_of number desk.now)
        list.now).outcome }
    ensures memory { memory.new
        ≡ (opening (lent directory.entry) memory.old card (release_of number desk.now)
        list.now).memory }
{
    refusals::opening(memory, directory, card, number, list)?;
    let size = area::layout::area_size(directory.header.pages);
    release::open_release(memory, size, card as usize, number, desk, list);
    Ok(0)
}

// The same, of a directory that is handed in and handed back.
pub fn open_release(
    memory: &mut [u32],
    directory: Directory,
    card: u32,
    number: u64,
    desk: [u32; 8],
    list: &[u32],
) -> Reply
    ensures answer { outcome_of result.answer
        ≡ (opening directory memory.old card (release_of number desk)
        list.now).outcome }
    ensures directory { result.directory
        ≡ (opening directory memory.old card (release_of number desk)
        list.now).directory }
    ensures memory { memory.new
        ≡ (opening directory memory.old card (release_of number desk)
        list.now).memory }
{
    let answer = open_lent(memory, directory.lend(), card, number, &desk, list);
    Reply { directory, answer }
}

// Makes one step of the release that is open on a card: for a directory that is lent.
pub fn step_lent(
    memory: &mut [u32],
    directory: LentDirectory<'_>,
    card: u32,
) -> Result<u64, Refusal>
    ensures answer { outcome_of result
        ≡ (step (lent directory.entry) memory.old card).outcome }
    ensures memory { memory.new
        ≡ (step (lent directory.entry) memory.old card).memory }
{
    refusals::step(memory, directory, card)?;
    let backup = directory.header.backup(card) as usize;
    let LentDirectory {
        header,
        primary,
        secondary,
    } = directory;
    release::step_release(memory, header, primary, secondary, backup, card as usize);
    Ok(0)
}

// The same, of a directory that is handed in and handed back.
pub fn make_step(memory: &mut [u32], directory: Directory, card: u32) -> Reply
    ensures answer { outcome_of result.answer
        ≡ (step directory memory.old card).outcome }
    ensures directory { result.directory
        ≡ (step directory memory.old card).directory }
    ensures memory { memory.new
        ≡ (step directory memory.old card).memory }
{
    let answer = step_lent(memory, directory.lend(), card);
    Reply { directory, answer }
}

// Copies the committed page at its primary into the buffer: for a directory that is lent.
pub fn fetch_lent(
    memory: &[u32],
    directory: LentDirectory<'_>,
    page: u32,
    buffer: &mut [u32],
) -> Result<u64, Refusal>
    ensures answer { outcome_of result
        ≡ (fetch (lent directory.entry) memory.now page buffer.old).outcome }
    ensures buffer { buffer.new
        ≡ (fetch (lent directory.entry) memory.now page buffer.old).words }
{
    refusals::fetch(memory, directory, page, buffer.len())?;
    let size = area::layout::area_size(directory.header.pages);
    let at = page as usize;
    let home = directory.primary[at] as usize;
    area::pages::load_committed(memory, size, home, at, buffer);
    Ok(0)
}

// The same, of a directory that is handed in and handed back.
pub fn fetch_page(memory: &[u32], directory: Directory, page: u32, buffer: &mut [u32]) -> Reply
    ensures answer { outcome_of result.answer
        ≡ (fetch directory memory.now page buffer.old).outcome }
    ensures directory { result.directory
        ≡ (fetch directory memory.now page buffer.old).directory }
    ensures buffer { buffer.new
        ≡ (fetch directory memory.now page buffer.old).words }
{
    let answer = fetch_lent(memory, directory.lend(), page, buffer);
    Reply { directory, answer }
}

// Marks a card dead; its recovery is awaited.
pub fn fail_card(memory: &[u32], directory: Directory, card: u32) -> Reply
    ensures answer { outcome_of result.answer
        ≡ (failure directory memory.now card).outcome }
    ensures directory { result.directory
        ≡ (failure directory memory.now card).directory }
{
    match refusals::failure(memory, directory.lend(), card) {
        Err(refusal) => Reply {
            directory,
            answer: Err(refusal),
        },
        Ok(()) => {
            let live = directory.mark_dead(card).live;
            let status = Status::Awaiting(card);
            let failed = Directory {
                live,
                status,
                ..directory
            };
            Reply {
                directory: failed,
                answer: Ok(0),
            }
        }
    }
}

// The card whose recovery is awaited.
#[tactic(auto, unfolding(protocol::specs::Recovery::awaited_card))]
fn awaited_card(status: Status) -> u32
    ensures { result ≡ awaited_card status }
{
    match status {
        Status::Running => 0,
        Status::Awaiting(card) => card,
    }
}

// Recovers the card that failed, and answers its stamp and desk: open releases are run to their
// close, pages get two live homes again, and records their places.
pub fn recover_card(memory: &mut [u32], directory: Directory) -> DeskReply
    ensures answer { outcome_of result.answer
        ≡ (recovery directory memory.old).outcome }
    ensures directory { result.directory
        ≡ (recovery directory memory.old).directory }
    ensures desk { result.desk ≡ (recovery directory memory.old).words }
    ensures memory { memory.new
        ≡ (recovery directory memory.old).memory }
{
    let mut desk = [0u32; area::layout::DESK_SIZE];
    match refusals::recovery(memory, directory.lend()) {
        Err(refused) => DeskReply {
            directory,
            answer: Err(refused),
            desk,
        },
        Ok(()) => {
            let failed = awaited_card(directory.status);
            let recovered = recovery::recover_memory(memory, directory, failed, &mut desk);
            DeskReply {
                directory: recovered.directory,
                answer: Ok(recovered.number),
                desk,
            }
        }
    }
}

// Makes a dead card live again, with its own stamp and desk and the records that it now holds.
pub fn join_card(memory: &mut [u32], directory: Directory, card: u32) -> Reply
    ensures answer { outcome_of result.answer
        ≡ (join directory memory.old card).outcome }
    ensures directory { result.directory
        ≡ (join directory memory.old card).directory }
    ensures memory { memory.new
        ≡ (join directory memory.old card).memory }
{
    match refusals::join(memory, directory.lend(), card) {
        Err(refusal) => Reply {
            directory,
            answer: Err(refusal),
        },
        Ok(()) => {
            recovery::join_memory(memory, directory, card);
            let live = directory.mark_live(card).live;
            let joined = Directory { live, ..directory };
            Reply {
                directory: joined,
                answer: Ok(0),
            }
        }
    }
}

// Copies the own desk of a live card, or the desk that a dead card's record has.
fn load_desk(memory: &[u32], directory: Directory, card: u32, desk: &mut [u32])
    requires memory_of { MemoryOf (header_of directory) (length memory.now) }
    requires card_lt_cards { (card < directory.cards) × (next_live_of directory card < directory.cards) }
    requires desk_len { length desk.old ≡ desk_size }
    ensures { desk.new ≡ desk_of directory memory.now card }
{
    let size = area::layout::area_size(directory.pages);
    let at = card as usize;
    let header = directory.header();
    if header.is_live(card) {
        memory::load_run(memory, size, at, area::layout::OWN_DESK, desk);
        return;
    }
    let holder = directory.next_live(card) as usize;
    area::records::load_record(memory, size, holder, at, desk);
}

// The desk words of a card's last release: its own, or for a dead card those of its record.
pub fn ask_desk(memory: &[u32], directory: Directory, card: u32) -> DeskReply
    ensures answer { outcome_of result.answer
        ≡ (desk_question directory memory.now card).outcome }
    ensures directory { result.directory
        ≡ (desk_question directory memory.now card).directory }
    ensures desk { result.desk
        ≡ (desk_question directory memory.now card).words }
{
    let mut desk = [0u32; area::layout::DESK_SIZE];
    match refusals::desk_question(memory, directory.lend(), card) {
        Err(refusal) => DeskReply {
            directory,
            answer: Err(refusal),
            desk,
        },
        Ok(()) => {
            load_desk(memory, directory, card, &mut desk);
            DeskReply {
                directory,
                answer: Ok(0),
                desk,
            }
        }
    }
}
