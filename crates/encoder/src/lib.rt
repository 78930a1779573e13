// Writing diffs: the one diff of the words that are marked, one word of marks for each page, at
// their prices; how many words it has, and what becomes of it by the room that there is for it.
#![tactic(auto)]

ghost use Rattle.std.specs.Prelude.{◌≡◌, ◌*◌, ◌≤◌, List, ℕ, length};
ghost use Rattle.std.proofs.lemmas.List.Edits.{sets};
ghost use Rattle.answer.specs.Outcome.{wrong_buffer};
ghost use Rattle.answer.specs.Refusal.{outcome_of};
ghost use Rattle.answer.specs.declared.Refusal.TheVariants.{WrongBuffer};
ghost use Rattle.diff.specs.Room.{room_for, written_by};
ghost use Rattle.diff.specs.Making.{made_diff};
ghost use Rattle.encoder.specs.Room.{room_answer};

use answer::Refusal;
use diff::format::{END_WORD, MOST_WORDS, PAGE_WORDS};

pub mod changes;
pub mod page;
#[cfg(test)]
mod tests;

// How many words the diff of the marked words has.
pub fn diff_words(marks: &[u32]) -> usize
    requires { length marks.now ≤ 64 }
    ensures { (prices : List ℕ)
        → length prices ≡ 32 * length marks.now
        → result ≡ length (made_diff prices marks.now) }
{
    let mut words: u32 = 1;
    for page_marks in marks {
        words += page::page_words(*page_marks);
    }
    words as usize
}

// Writes the diff of the marked words, of so many words, to the front of a list that has room for
// it. The loop ends with the last page that has a mark, when all words but the end word stand. Its
// one test tells that a page is left, too: a `for` over the pages would make two, and is slower.
pub fn write_diff(prices: &[u32], marks: &[u32], words: usize, list: &mut [u32])
    requires marks_len_bound { length marks.now ≤ 64 }
    requires prices_len { length prices.now ≡ 32 * length marks.now }
    requires words_value { words ≡ length (made_diff prices.now marks.now) }
    requires words_bound { (words ≤ 512) × (words ≤ length list.old) }
    ensures { list.new
        ≡ sets list.old 0 (made_diff prices.now marks.now) }
{
    let end = words - 1;
    let mut at = 0;
    let mut page = 0;
    while at < end {
        let first = PAGE_WORDS * page;
        at = page::write_page(
            page,
            marks[page],
            &prices[first..first + PAGE_WORDS],
            list,
            at,
        );
        page += 1;
    }
    list[end] = END_WORD + end as u32;
}

// What a caller has for a refusal, a `Refusal` or its number alone, and which of them is that of a
// wrong buffer.
pub trait BufferRefusal: Drop {
    ghost of_buffer: { Self };

    fn of_buffer() -> Self
        ensures { result ≡ of_buffer };
}

impl BufferRefusal for Refusal {
    ghost of_buffer = { WrongBuffer };

    fn of_buffer() -> Refusal {
        Refusal::WrongBuffer
    }
}

impl BufferRefusal for u32 {
    ghost of_buffer = { wrong_buffer };

    fn of_buffer() -> u32 {
        Refusal::WrongBuffer.number()
    }
}

// What becomes of a diff of so many words by the room that a buffer has for it: its length, or a
// refusal: the one that the caller has for a list over 512 words, else that of a wrong buffer.
pub fn room_for<E: BufferRefusal>(too_long: E, words: usize, room: usize) -> Result<u64, E>
    ensures { result ≡ room_answer too_long E.of_buffer words room }
{
    if MOST_WORDS < words {
        return Err(too_long);
    }
    if room < words {
        return Err(E::of_buffer());
    }
    Ok(words as u64)
}

// Writes the diff of the marked words to the front of a buffer: gives its length, or refusal 17.
// The diff is sized before a word is written, so that a refusal changes none.
#[tactic(auto, using(crate::proofs::Room::room_told))]
pub fn write_marked(prices: &[u32], marks: &[u32], buffer: &mut [u32]) -> Result<u64, Refusal>
    requires marks_len_bound { length marks.now ≤ 64 }
    requires prices_len { length prices.now ≡ 32 * length marks.now }
    ensures answer { outcome_of result
        ≡ room_for wrong_buffer (length (made_diff prices.now marks.now))
        (length buffer.old) }
    ensures written { buffer.new
        ≡ written_by
        (room_for wrong_buffer (length (made_diff prices.now marks.now))
        (length buffer.old))
        (made_diff prices.now marks.now) buffer.old }
{
    let words = diff_words(marks);
    let length = room_for(Refusal::WrongBuffer, words, buffer.len())?;
    write_diff(prices, marks, words, buffer);
    Ok(length)
}
