// The list maker: the diff of the marked words of working pages, written into a lent buffer; and
// the marks of what differs, for a desk that keeps none.
#![tactic(auto)]

ghost use Rattle.std.specs.Prelude.{◌≡◌, ◌*◌, ◌≤◌, length};
ghost use Rattle.answer.specs.Refusal.{outcome_of};
ghost use Rattle.diff.specs.Marks.{change_marks};
ghost use Rattle.diff.specs.Making.{lent_marked, make_diff, buffer_after, mark_changes, marks_after};

use answer::Refusal;
use diff::format::{MOST_PAGES, PAGE_WORDS};

// Whether working pages and their twins, of so many words, are 1 to 64 pages each, with one word of
// marks for each page.
#[tactic(auto, unfolding(diff::specs::Making::lent_marked, diff::specs::Making::lent_pages))]
fn lent_marked(working: usize, twins: usize, marks: usize) -> bool
    ensures { result ≡ lent_marked working twins marks }
{
    1 <= marks && marks <= MOST_PAGES as usize && working == PAGE_WORDS * marks && twins == working
}

// Makes the diff of the marked words, at the working prices: gives its length, or refusal 1 or 17.
// Of the twins only their number counts. The words of the buffer past the diff are kept, and all of
// them if it is refused.
#[tactic(auto, using(diff::proofs::Making::lent_marked_lem, diff::proofs::Making::lent_by_pages), unfolding(diff::specs::Making::make_diff))]
pub fn make(
    working: &[u32],
    twins: &[u32],
    marks: &[u32],
    buffer: &mut [u32],
) -> Result<u64, Refusal>
    ensures answer { outcome_of result
        ≡ make_diff working.now twins.now marks.now
        (length buffer.old) }
    ensures written { buffer.new
        ≡ buffer_after working.now twins.now marks.now
        buffer.old }
{
    if !lent_marked(working.len(), twins.len(), marks.len()) {
        return Err(Refusal::Limits);
    }
    encoder::write_marked(working, marks, buffer)
}

// Stores the marks of what differs, page by page.
fn mark_pages(working: &[u32], twins: &[u32], marks: &mut [u32])
    requires marks_len_bound { length marks.old ≤ 64 }
    requires working_len { length working.now ≡ 32 * length marks.old }
    requires twins_len { length twins.now ≡ 32 * length marks.old }
    ensures { marks.new
        ≡ change_marks working.now twins.now }
{
    for (page, mark) in marks.iter_mut().enumerate() {
        let first = PAGE_WORDS * page;
        let end = first + PAGE_WORDS;
        *mark = encoder::changes::changed_words(&working[first..end], &twins[first..end]);
    }
}

// Marks the words that differ from their twins: gives 0, or refusal 1, which changes no mark.
#[tactic(auto, using(diff::proofs::Making::lent_marked_lem, diff::proofs::Making::lent_by_pages), unfolding(diff::specs::Making::mark_changes))]
pub fn mark_changes(working: &[u32], twins: &[u32], marks: &mut [u32]) -> Result<u64, Refusal>
    ensures answer { outcome_of result
        ≡ mark_changes (length working.now) (length twins.now)
        (length marks.old) }
    ensures written { marks.new
        ≡ marks_after working.now twins.now marks.old }
{
    if !lent_marked(working.len(), twins.len(), marks.len()) {
        return Err(Refusal::Limits);
    }
    mark_pages(working, twins, marks);
    Ok(0)
}
