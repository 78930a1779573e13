// The directory as words, which is how it crosses to C: cards, pages, the awaited card, 8 marks, 64
// primary homes, 64 secondary homes. Any words are a directory. No `From` says it, since neither a
// directory nor a slice is a type of this crate.
ghost use Rattle.std.specs.Prelude.{◌≡◌, ◌+◌, ◌≤◌, length, take, drop};
ghost use Rattle.directory.specs.Directory.{header_of};
ghost use Rattle.bandsawpink.specs.Words.{status_in, marks_in, directory_in, awaited_word};
ghost use Rattle.bandsawpink.specs.Words.{head_of, words_of};

use directory::lent::LentDirectory;
use directory::{Directory, Header, Status};

// How many cards have a mark, and how many pages have a primary and a secondary home.
const MARKS: usize = 8;

const HOMES: usize = 64;

// Where each part stands.
const CARDS_AT: usize = 0;

const PAGES_AT: usize = 1;

const AWAITED_AT: usize = 2;

const MARKS_AT: usize = 3;

const PRIMARY_AT: usize = MARKS_AT + MARKS;

const SECONDARY_AT: usize = PRIMARY_AT + HOMES;

// The awaited card of a rack that awaits none: in C a word is all that there is to say it with.
const RUNNING: u32 = 0xFFFFFFFF;

// ---- read

fn status_in(awaited: u32) -> Status
    ensures { result ≡ status_in awaited }
{
    if awaited == RUNNING {
        return Status::Running;
    }
    Status::Awaiting(awaited)
}

fn marks_in(words: &[u32]) -> [bool; MARKS]
    requires { length words.now ≡ 139 }
    ensures { result ≡ marks_in words.now }
{
    let mut marks = [false; MARKS];
    for card in 0..MARKS {
        marks[card] = 0 < words[MARKS_AT + card];
    }
    marks
}

// All but the homes.
fn header_in(words: &[u32]) -> Header
    requires { length words.now ≡ 139 }
    ensures { result ≡ header_of (directory_in words.now) }
{
    let live = marks_in(words);
    let status = status_in(words[AWAITED_AT]);
    Header {
        cards: words[CARDS_AT],
        pages: words[PAGES_AT],
        live,
        status,
    }
}

// The homes from `start` on.
fn homes_at(words: &[u32], start: usize) -> &[u32; HOMES]
    requires { start + 64 ≤ length words.now }
    ensures result_value { result.now ≡ take 64 (drop start words.now) }
    ensures result_len { length result.now ≡ 64 }
{
    words[start..start + HOMES].as_array().unwrap()
}

fn primary_in(words: &[u32]) -> &[u32; HOMES]
    requires { length words.now ≡ 139 }
    ensures result_value { result.now ≡ (directory_in words.now).primary }
    ensures result_len { length result.now ≡ 64 }
{
    homes_at(words, PRIMARY_AT)
}

fn secondary_in(words: &[u32]) -> &[u32; HOMES]
    requires { length words.now ≡ 139 }
    ensures result_value { result.now ≡ (directory_in words.now).secondary }
    ensures result_len { length result.now ≡ 64 }
{
    homes_at(words, SECONDARY_AT)
}

// A directory whose homes stay where they stand.
pub fn lent_in(words: &[u32]) -> LentDirectory<'_>
    requires { length words.now ≡ 139 }
    ensures header { result.header ≡ header_of (directory_in words.now) }
    ensures primary { result.primary.now ≡ (directory_in words.now).primary }
    ensures secondary { result.secondary.now ≡ (directory_in words.now).secondary }
{
    LentDirectory {
        header: header_in(words),
        primary: primary_in(words),
        secondary: secondary_in(words),
    }
}

pub fn directory_in(words: &[u32]) -> Directory
    requires { length words.now ≡ 139 }
    ensures { result ≡ directory_in words.now }
{
    let header = header_in(words);
    let live = header.live;
    let primary = *primary_in(words);
    let secondary = *secondary_in(words);
    Directory {
        cards: header.cards,
        pages: header.pages,
        live,
        primary,
        secondary,
        status: header.status,
    }
}

// ---- written

fn awaited_word(status: Status) -> u32
    ensures { result ≡ awaited_word status }
{
    match status {
        Status::Running => RUNNING,
        Status::Awaiting(card) => card,
    }
}

// The words before the homes.
fn head_of(directory: Directory) -> [u32; PRIMARY_AT]
    ensures { result ≡ head_of directory }
{
    let live = directory.live;
    [
        directory.cards,
        directory.pages,
        awaited_word(directory.status),
        live[0] as u32,
        live[1] as u32,
        live[2] as u32,
        live[3] as u32,
        live[4] as u32,
        live[5] as u32,
        live[6] as u32,
        live[7] as u32,
    ]
}

pub fn write_directory(words: &mut [u32], directory: Directory)
    requires { length words.old ≡ 139 }
    ensures { words.new ≡ words_of directory }
{
    let head = head_of(directory);
    let primary = directory.primary;
    let secondary = directory.secondary;
    memory::store_run_in(words, 0, &head);
    memory::store_run_in(words, PRIMARY_AT, &primary);
    memory::store_run_in(words, SECONDARY_AT, &secondary);
}
