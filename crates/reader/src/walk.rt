// A walk over a list, word by word or run by run, and the prices that it comes to.
ghost use Rattle.std.specs.Prelude.{◌≡◌, ◌<◌, ◌≤◌, length};
ghost use Rattle.std.specs.Iterator.{YieldsFirst, item_count};
ghost use Rattle.diff.specs.Prices.{prices_of};
ghost use Rattle.reader.specs.WellFormed.{WellFormed};
ghost use Rattle.reader.specs.Walking.{at_first, past_word, past_run, Reached};

use diff::{Cursor, Price, Step};

// How far the walk is.
#[derive(Clone, Copy)]
pub struct Walk {
    pub cursor: Cursor,
    pub index: usize,
}

// Before the first word.
pub fn first_word() -> Walk
    ensures { result ≡ at_first }
{
    let cursor = crate::cursor();
    Walk { cursor, index: 0 }
}

// Past the next word of the list: at its end if the word ends the list or breaks a rule.
pub fn next_word(list: &[u32], at: Walk, pages: u32) -> Walk
    requires well_formed { WellFormed at.cursor }
    requires index_in_bounds { at.index < length list.now }
    ensures { result ≡ past_word pages list.now at }
{
    let cursor = at.cursor;
    let index = at.index;
    match crate::read_word(cursor, list[index], index, pages) {
        Step::Next(next) => Walk {
            cursor: next,
            index: index + 1,
        },
        Step::End | Step::Fault => Walk {
            cursor,
            index: list.len(),
        },
    }
}

// Past the prices that are due, and the next word: the prices are not looked at.
pub fn next_run(list: &[u32], at: Walk, pages: u32) -> Walk
    requires well_formed { WellFormed at.cursor }
    requires index_in_bounds { (at.index < length list.now) × (length list.now ≤ 512) }
    requires prices_le_index { at.cursor.prices ≤ at.index }
    ensures { result ≡ past_run pages list.now at }
{
    let cursor = at.cursor;
    let index = at.index + cursor.due as usize;
    if index < list.len() {
        let past = crate::run_read(cursor);
        let here = Walk {
            cursor: past,
            index,
        };
        return next_word(list, here, pages);
    }
    Walk {
        cursor,
        index: list.len(),
    }
}

// The prices of a diff that are still to come, in order.
#[derive(Drop)]
pub struct Prices<'a> {
    list: &'a [u32],
    pages: u32,
    at: Walk,
    ghost few: { length list.now ≤ 512 },
    ghost reached: { Reached pages (length list.now) at },
}

impl<'a> Prices<'a> {
    ghost use Rattle.reader.specs.Left.{left};

    // All prices of a diff, whether it is handed in or stands in a card's area.
    pub fn new(list: &'a [u32], pages: u32) -> Prices<'a>
        requires { length list.now ≤ 512 }
        ensures { left result ≡ prices_of pages list.now }
    {
        Prices {
            list,
            pages,
            at: first_word(),
        }
    }
}

impl<'a> Iterator for Prices<'a> {
    type Item = Price;

    ghost use Rattle.reader.specs.Left.{left};

    ghost next_gives = { YieldsFirst left };

    ghost remaining = { item_count left };

    // A price that is due needs no reading, so it is given before the next word is read.
    fn next(&mut self) -> Option<Price> {
        while self.at.index < self.list.len() {
            let Walk { cursor, index } = self.at;
            if 0 < cursor.due {
                self.at = Walk {
                    cursor: crate::price_read(cursor),
                    index: index + 1,
                };
                return Some(Price {
                    page: cursor.next - 1,
                    word: cursor.word,
                    price: self.list[index],
                });
            }
            self.at = next_word(self.list, self.at, self.pages);
        }
        None
    }
}
