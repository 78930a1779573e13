// One page of an allowed diff: its prices applied to the page, and its words marked.
ghost use Rattle.std.specs.Prelude.{ℕ, ◌≡◌, ◌+◌, ◌<◌, ◌≤◌, List, length};
ghost use Rattle.diff.specs.Marks.{is_set};
ghost use Rattle.encoder.specs.Page.{page_words};
ghost use Rattle.merger.specs.Page.{in_range, PageAt, PageApplied};

use diff::format::{KIND, OFFSET, OFFSETS, PAGE_WORD, PAGE_WORDS, RUN};

// The marks of a page, and the index behind its words.
#[derive(Clone, Copy)]
pub(crate) struct Applied {
    pub(crate) marks: u32,
    pub(crate) next: usize,
}

// The marks of so many words of a page from an offset on.
fn run_marks(offset: u32, count: u32) -> u32
    requires { offset + count ≤ 32 }
    ensures { (w : ℕ) → is_set result w ≡ in_range offset count w }
{
    let below: u64 = 1 << offset;
    let within: u64 = 1 << (offset + count);
    (within - below) as u32
}

// Applies what a diff has on a page, if anything, to the page's prices, and marks it. The words of
// the diff are not checked again.
pub(crate) fn apply_page(
    list: &[u32],
    index: usize,
    page: usize,
    prices: &mut [u32; PAGE_WORDS],
    marks: u32,
) -> Applied
    requires page_bound { page < 64 }
    requires by_index { (own : ℕ) × ((priced : List ℕ) × PageAt list.now index page own priced) }
    ensures past { (own : ℕ) (priced : List ℕ)
        → PageAt list.now index page own priced
        → result.next ≡ index + length (page_words page own priced) }
    ensures applied { (own : ℕ) (priced : List ℕ)
        → PageAt list.now index page own priced
        → PageApplied own priced marks prices.old result.marks prices.new }
{
    if list[index] != PAGE_WORD + page as u32 {
        return Applied { marks, next: index };
    }
    let mut marked = marks;
    let mut at = index + 1;
    while list[at] / KIND == RUN {
        let word = list[at];
        let offset = word / OFFSET % OFFSETS;
        let count = word % OFFSET;
        let first = at + 1;
        at = first + count as usize;
        memory::store_run_in(prices, offset as usize, &list[first..at]);
        marked |= run_marks(offset, count);
    }
    Applied {
        marks: marked,
        next: at,
    }
}
