// Two diffs made one: both are checked, and what each has on a page is applied to it, page by page,
// the second's after the first's. The diff is made apart, and is then copied into a lent buffer.
#![tactic(auto)]

ghost use Rattle.std.specs.Prelude.{◌≡◌, ◌<◌, length};
ghost use Rattle.answer.specs.Refusal.{outcome_of};
ghost use Rattle.diff.specs.OnlyDiff.{Allowed};
ghost use Rattle.diff.specs.Merging.{merge_pages, merged_diff, merge_diffs, merged_buffer};
ghost use Rattle.merger.specs.Made.{MadeIn};
ghost use Rattle.merger.specs.Page.{next_page};

mod page;

use answer::Refusal;
use diff::format::{END_WORD, KIND, MOST_PAGES, MOST_WORDS, PAGE_WORDS};

// The next page that one of two diffs names, by the next word of each, which is a page word or the
// end word.
fn next_page(of_first: u32, of_second: u32) -> Option<usize>
    ensures { result ≡ next_page of_first of_second }
{
    let word = of_first.min(of_second);
    if word < END_WORD {
        Some((word % KIND) as usize)
    } else {
        None
    }
}

// Makes one diff of two that are allowed, in a list of 512 words, and gives its length, unless it
// is longer. `prices` is not cleared between pages: what stands there from an earlier page is not
// marked, and so is not written.
fn merge_pages(first: &[u32], second: &[u32], list: &mut [u32; MOST_WORDS]) -> Option<usize>
    requires { Allowed merge_pages first.now × Allowed merge_pages second.now }
    ensures { MadeIn (merged_diff first.now second.now)
        list.old result list.new }
{
    let mut prices = [0; PAGE_WORDS];
    let mut i = 0;
    let mut j = 0;
    let mut at = 0;
    while let Some(page) = next_page(first[i], second[j]) {
        let of_first = page::apply_page(first, i, page, &mut prices, 0);
        let of_both = page::apply_page(second, j, page, &mut prices, of_first.marks);
        let words = encoder::page::page_words(of_both.marks) as usize;
        if MOST_WORDS <= at + words {
            return None;
        }
        at = encoder::page::write_page(page, of_both.marks, &prices, list, at);
        i = of_first.next;
        j = of_both.next;
    }
    list[at] = END_WORD + at as u32;
    Some(at + 1)
}

// Makes one diff of two, which does what the first and then the second do: gives its length, or
// refusal 7, 19 or 17. The words of the buffer past the diff are kept, and all of them if it is
// refused.
#[tactic(auto, using(std::proofs::lemmas::Grind::common_steps, laws::proofs::Lists::sets_front, encoder::proofs::Room::room_told), unfolding(diff::specs::Merging::merge_diffs))]
pub fn merge(first: &[u32], second: &[u32], buffer: &mut [u32]) -> Result<u64, Refusal>
    ensures answer { outcome_of result
        ≡ merge_diffs first.now second.now (length buffer.old) }
    ensures written { buffer.new
        ≡ merged_buffer first.now second.now buffer.old }
{
    reader::check(first, MOST_PAGES)?;
    reader::check(second, MOST_PAGES)?;
    let mut list = [0; MOST_WORDS];
    let words = merge_pages(first, second, &mut list).ok_or(Refusal::ListTooLong)?;
    let length = encoder::room_for(Refusal::ListTooLong, words, buffer.len())?;
    memory::store_run_in(buffer, 0, &list[0..words]);
    Ok(length)
}
