// Reading a diff (document 01's list of changes), whether it is handed in or stands in a card's
// area: the whole of it, one price, and its prices as a table.
#![tactic(auto)]

ghost use Rattle.std.specs.Prelude.{◌≡◌, ◌<◌, ◌≤◌, length, map, slice_get};
ghost use Rattle.std.proofs.lemmas.List.Edits.{sets};
ghost use Rattle.answer.specs.Refusal.{outcome_of};
ghost use Rattle.diff.specs.Reading.{start, past_price, page_step, run_step, end_step, word_step};
ghost use Rattle.diff.specs.Reading.{read_diff, check_diff};
ghost use Rattle.diff.specs.Prices.{prices_of};
ghost use Rattle.reader.specs.WellFormed.{WellFormed};
ghost use Rattle.reader.specs.Runs.{past_prices, nth_due};
ghost use Rattle.reader.specs.Labels.{labeled};

pub mod table;
#[cfg(test)]
mod tests;
pub mod walk;

use answer::Refusal;
use diff::format::{END, KIND, MOST_WORDS, OFFSET, OFFSETS, PAGE, PAGE_WORDS, RUN};
use diff::{Cursor, Extent, Price, ReadError, Step};
pub use table::LabeledPrice;
pub use walk::Prices;

// Where a page ends.
const PAGE_END: u32 = PAGE_WORDS as u32;

// Before the first word.
pub(crate) fn cursor() -> Cursor
    ensures { result ≡ start }
{
    Cursor {
        next: 0,
        word: 0,
        gap: 1,
        due: 0,
        prices: 0,
    }
}

// Past a price of a run.
pub(crate) fn price_read(s: Cursor) -> Cursor
    requires well_formed { WellFormed s }
    requires due_nonzero { 0 < s.due }
    ensures { result ≡ past_price s }
{
    Cursor {
        next: s.next,
        word: s.word + 1,
        gap: 1,
        due: s.due - 1,
        prices: s.prices + 1,
    }
}

fn page_word(s: Cursor, w: u32, pages: u32) -> Step
    ensures { result ≡ page_step pages s w }
{
    let page = w % KIND;
    if s.gap == 0 || page < s.next || pages <= page {
        return Step::Fault;
    }
    Step::Next(Cursor {
        next: page + 1,
        word: 0,
        gap: 0,
        due: 0,
        prices: s.prices,
    })
}

fn run_word(s: Cursor, w: u32) -> Step
    requires { WellFormed s }
    ensures { result ≡ run_step s w }
{
    let offset = w / OFFSET % OFFSETS;
    let count = w % OFFSET;
    if s.next == 0 || count == 0 || PAGE_END < offset + count || offset < s.word + s.gap {
        return Step::Fault;
    }
    Step::Next(Cursor {
        next: s.next,
        word: offset,
        gap: 1,
        due: count,
        prices: s.prices,
    })
}

fn end_word(s: Cursor, w: u32, index: usize) -> Step
    ensures { result ≡ end_step s index w }
{
    let own = (w % KIND) as usize;
    if s.gap == 0 || own != index {
        return Step::Fault;
    }
    Step::End
}

// What the word at an index does to the reading. The kind is matched on as the number that it is in the
// list, with a range for all unknown kinds: that form is a rule of the project.
#[tactic(auto, unfolding(diff::specs::Reading::word_step))]
pub(crate) fn read_word(s: Cursor, w: u32, index: usize, pages: u32) -> Step
    requires { WellFormed s }
    ensures { result ≡ word_step pages s index w }
{
    if 0 < s.due {
        return Step::Next(price_read(s));
    }
    match w / KIND {
        PAGE => page_word(s, w, pages),
        RUN => run_word(s, w),
        END => end_word(s, w, index),
        0 | 3..=14 | 16..=u32::MAX => Step::Fault,
    }
}

// Past all prices of a run: they are not looked at.
pub(crate) fn run_read(s: Cursor) -> Cursor
    requires { WellFormed s }
    ensures { result ≡ past_prices s s.due }
{
    Cursor {
        next: s.next,
        word: s.word + s.due,
        gap: s.gap,
        due: 0,
        prices: s.prices + s.due,
    }
}

// Reads a diff from its first word to its end word, as those in a card's area are read: at most 512
// words. Of a run's prices only the number is looked at, so the loop goes on by whole runs.
pub fn read(list: &[u32], pages: u32) -> Result<Extent, ReadError>
    ensures { result ≡ read_diff pages list.now }
{
    let words = list.len().min(MOST_WORDS);
    let mut s = cursor();
    let mut index: usize = 0;
    while index < words {
        match read_word(s, list[index], index, pages) {
            Step::Next(t) => {
                let due = t.due as usize;
                if words <= index + due {
                    break;
                }
                s = run_read(t);
                index += 1 + due;
            }
            Step::End => {
                return Ok(Extent {
                    prices: s.prices,
                    words: (index + 1) as u32,
                });
            }
            Step::Fault => {
                return Err(ReadError {
                    place: index as u32,
                });
            }
        }
    }
    Err(ReadError {
        place: words as u32,
    })
}

// Checks a list handed in: gives the number of its prices, or refuses it as faulty. Nothing may
// follow its end word.
pub fn check(list: &[u32], pages: u32) -> Result<u32, Refusal>
    ensures { outcome_of result ≡ check_diff pages list.now }
{
    let extent = read(list, pages)?;
    if (extent.words as usize) < list.len() {
        return Err(Refusal::FaultyList(extent.words));
    }
    Ok(extent.prices)
}

// The price numbered `n` of those that are due from an index on, unless the list stops before it.
fn nth_due(list: &[u32], index: usize, s: Cursor, n: u32) -> Option<Price>
    requires well_formed { WellFormed s }
    requires n_lt_due { (n < s.due) × (index ≤ length list.now) }
    ensures { result ≡ nth_due list.now index s n }
{
    let price = *list.get(index + n as usize)?;
    Some(Price {
        page: s.next - 1,
        word: s.word + n,
        price,
    })
}

// The price numbered `n` of a diff, from 0 on. It goes on by whole runs, so that it is no search of
// the prices one by one.
pub fn nth_price(list: &[u32], pages: u32, n: u32) -> Option<Price>
    requires { length list.now ≤ 512 }
    ensures { result ≡ slice_get (prices_of pages list.now) n }
{
    let mut at = walk::first_word();
    let mut left = n;
    while at.index < list.len() {
        let due = at.cursor.due;
        if left < due {
            return nth_due(list, at.index, at.cursor, left);
        }
        left -= due;
        at = walk::next_run(list, at, pages);
    }
    None
}

// Lists the prices of a diff, from 0 on, and answers how many they are. What stands after the last
// one is kept.
pub fn list_prices(list: &[u32], pages: u32, prices: &mut [Price; 512]) -> u32
    requires { length list.now ≤ 512 }
    ensures count { result ≡ length (prices_of pages list.now) }
    ensures prices { prices.new ≡ sets prices.old 0 (prices_of pages list.now) }
{
    let mut count: usize = 0;
    for price in Prices::new(list, pages) {
        prices[count] = price;
        count += 1;
    }
    count as u32
}

// The same with their labels, which takes 8 bytes a price in place of 12. A label has 32 bits: of a page
// from 2^27 on, which no rack has, it loses the number.
pub fn list_labeled_prices(list: &[u32], pages: u32, prices: &mut [LabeledPrice; 512]) -> u32
    requires { length list.now ≤ 512 }
    ensures count { result ≡ length (prices_of pages list.now) }
    ensures prices { prices.new
        ≡ sets prices.old 0 (map labeled (prices_of pages list.now)) }
{
    let mut count: usize = 0;
    for price in Prices::new(list, pages) {
        prices[count] = LabeledPrice::new(price);
        count += 1;
    }
    count as u32
}
