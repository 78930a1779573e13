// One page of a diff: how many words it takes, and these words, by the word of its marks (bit w for
// word w). Ones of the marks size the page; trailing zeros place its runs and size each.
ghost use Rattle.std.specs.Prelude.{◌≡◌, ℕ, ◌+◌, ◌/◌, ◌^◌, ◌<◌, ◌≤◌, List, length};
ghost use Rattle.std.proofs.lemmas.List.Edits.{sets};
ghost use Rattle.diff.specs.Format.{run_word};
ghost use Rattle.encoder.specs.Page.{page_words, run_words, FirstRun};

use diff::format::{OFFSET, PAGE_WORD, RUN_WORD};

// Consecutive marked words of a page.
#[derive(Clone, Copy)]
struct Run {
    offset: u32,
    count: u32,
}

// The first run of marked words.
#[tactic(auto, using(crate::proofs::Bits::first_run))]
fn first_run(marks: u32) -> Run
    requires { 0 < marks }
    ensures { FirstRun marks result }
{
    let offset = marks.trailing_zeros();
    let from_run = marks >> offset;
    let count = (!from_run).trailing_zeros();
    Run { offset, count }
}

// The marks past the first run, shifted down: bit 0 is for the word after the run.
fn marks_behind(marks: u32, run: Run) -> u32
    requires { FirstRun marks run }
    ensures { result ≡ marks / 2 ^ (run.offset + run.count) }
{
    marks.checked_shr(run.offset + run.count).unwrap_or(0)
}

// How many words a page takes in a diff: none if no word is marked, else its page word, a word for
// each run and the prices. A run ends where the next word is not marked. Runs and prices are
// counted at once, as the ones of two words side by side. `short` is what the sum over 64 pages
// needs; a page takes 34 words at most.
pub fn page_words(marks: u32) -> u32
    ensures short { result ≤ 65 }
    ensures counted { (page : ℕ) (prices : List ℕ)
        → result ≡ length (page_words page marks prices) }
{
    if marks == 0 {
        return 0;
    }
    let run_ends = marks & !(marks >> 1);
    1 + (run_ends as u64 * 0x100000000 + marks as u64).count_ones()
}

// The word of a run.
fn run_word(offset: usize, count: usize) -> u32
    requires { offset + count ≤ 32 }
    ensures { result ≡ run_word offset count }
{
    RUN_WORD + (offset * OFFSET as usize + count) as u32
}

// Copies words one by one: most runs are short, and a block copy costs each of them a call. With it the
// list maker is no faster than the second implementation.
fn copy_words(from: &[u32], to: &mut [u32])
    requires { length from.now ≡ length to.old }
    ensures { to.new ≡ from.now }
{
    for i in 0..from.len() {
        to[i] = from[i];
    }
}

// Stores the prices of a run from `start` on.
#[tactic(auto, using(memory::proofs::Parts::sets_all_part))]
fn store_prices(list: &mut [u32], start: usize, prices: &[u32])
    requires { start + length prices.now ≤ length list.old }
    ensures { list.new ≡ sets list.old start prices.now }
{
    copy_words(prices, &mut list[start..start + prices.len()]);
}

// Writes the runs of a page from `start` on, and says where they end. They are the same on every
// page: room for those of one page will do.
fn write_runs(marks: u32, prices: &[u32], list: &mut [u32], start: usize) -> usize
    requires prices_len { length prices.now ≡ 32 }
    requires by_index { (page : ℕ) × (start + length (run_words page marks prices.now)
        ≤ length list.old) }
    ensures stopped { (page : ℕ)
        → result ≡ start + length (run_words page marks prices.now) }
    ensures written { (page : ℕ) → list.new
        ≡ sets list.old start (run_words page marks prices.now) }
{
    let mut at = start;
    let mut word: usize = 0;
    let mut left = marks;
    while left != 0 {
        let run = first_run(left);
        let first = word + run.offset as usize;
        let count = run.count as usize;
        list[at] = run_word(first, count);
        word = first + count;
        store_prices(list, at + 1, &prices[first..word]);
        at = at + 1 + count;
        left = marks_behind(left, run);
    }
    at
}

// Writes the words of a page from `start` on, and says where they end.
pub fn write_page(page: usize, marks: u32, prices: &[u32], list: &mut [u32], start: usize) -> usize
    requires page_bound { page < 64 }
    requires prices_len { length prices.now ≡ 32 }
    requires prices_in_bounds { start + length (page_words page marks prices.now) ≤ length list.old }
    ensures stopped { result ≡ start + length (page_words page marks prices.now) }
    ensures written { list.new
        ≡ sets list.old start (page_words page marks prices.now) }
{
    if marks == 0 {
        return start;
    }
    list[start] = PAGE_WORD + page as u32;
    write_runs(marks, prices, list, start + 1)
}
