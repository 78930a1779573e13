// The directory of a rack: a value that every call takes and hands back (document 01,
// "Cards, pages, memory").
#![tactic(auto)]

ghost use Rattle.std.specs.Prelude.{◌≡◌, ◌<◌, ◌≤◌, length};
ghost use Rattle.laws.specs.Examples.{AllHold};
ghost use Rattle.directory.specs.Lent.{lent};
ghost use Rattle.directory.specs.Live.{live_at, found_live, next_live};
ghost use Rattle.directory.specs.Directory.{header_of, next_live_of, backup_of};
ghost use Rattle.directory.specs.Directory.{with_mark, marked_dead, marked_live, with_status};
ghost use Rattle.directory.specs.Directory.{with_homes, formatted_marks, formatted_primary};
ghost use Rattle.directory.specs.Directory.{formatted_secondary, table, formatted_directory};
ghost use Rattle.directory.specs.Directory.{empty_directory};
ghost use Rattle.directory.specs.NewHome.{EvenlyShared, NamesLive, even_home, next_home};
ghost use Rattle.directory.specs.Examples.{examples};

pub mod homes;
pub mod lent;

use lent::LentDirectory;
use std::array;

// Named cases in place of an `Option` of a card: what no card means, that the rack runs, is said
// wherever a status is made or read.
#[derive(Clone, Copy, PartialEq, Eq)]
pub enum Status {
    Running,
    // Recovery of this card is awaited.
    Awaiting(u32),
}

#[derive(Clone, Copy)]
pub struct Directory {
    pub cards: u32,
    pub pages: u32,
    // Marks past the cards and homes past the pages are never read.
    pub live: [bool; 8],
    pub primary: [u32; 64],
    pub secondary: [u32; 64],
    pub status: Status,
}

// What a directory says beside the homes. It is small enough to be handed on by value, with the
// homes lent beside it: a directory handed on by value would be copied at each call.
#[derive(Clone, Copy)]
pub struct Header {
    pub cards: u32,
    pub pages: u32,
    pub live: [bool; 8],
    pub status: Status,
}

// The first live card at or above `from` and below `cards`, if there is one. It ends with the marks,
// so that it is short for any number of cards.
fn first_live(marks: &[bool; 8], from: u32, cards: u32) -> Option<u32>
    ensures { result ≡ found_live marks.now from cards }
{
    for card in from..cards.min(8) {
        if marks[card as usize] {
            return Some(card);
        }
    }
    None
}

impl Header {
    // Whether a card is live; none past the marks is. The marks are copied apart: of a header that is
    // searched in place all of it would be stored at each call.
    pub fn is_live(self, card: u32) -> bool
        ensures { result ≡ live_at self.live card }
    {
        let live = self.live;
        live.get(card as usize).copied().unwrap_or(false)
    }

    // The next live card after it, or the number of cards if none is live.
    pub fn backup(self, card: u32) -> u32
        ensures { result ≡ next_live self.live self.cards card }
    {
        first_live(&self.live, card.saturating_add(1), self.cards)
            .or_else(|| first_live(&self.live, 0, self.cards))
            .unwrap_or(self.cards)
    }
}

impl Directory {
    pub fn header(self) -> Header
        ensures { result ≡ header_of self }
    {
        let live = self.live;
        Header {
            cards: self.cards,
            pages: self.pages,
            live,
            status: self.status,
        }
    }

    // The same, with its homes lent.
    pub fn lend(&self) -> LentDirectory<'_>
        ensures whole { lent result ≡ self.now }
        ensures header { result.header ≡ header_of self.now }
        ensures primary { result.primary.now ≡ self.now.primary }
        ensures secondary { result.secondary.now ≡ self.now.secondary }
    {
        LentDirectory {
            header: self.header(),
            primary: &self.primary,
            secondary: &self.secondary,
        }
    }

    pub fn next_live(self, card: u32) -> u32
        ensures { result ≡ next_live_of self card }
    {
        self.header().backup(card)
    }

    pub fn backup(self, card: u32) -> u32
        ensures { result ≡ backup_of self card }
    {
        self.next_live(card)
    }

    // Past the marks none is set. The test is plain, since with `get_mut` the proof does not close.
    #[tactic(auto, using(crate::proofs::Changes::marked_past_end))]
    fn with_mark(mut self, card: u32, live: bool) -> Self
        ensures { result ≡ with_mark self card live }
    {
        if card < 8 {
            self.live[card as usize] = live;
        }
        self
    }

    pub fn mark_dead(self, card: u32) -> Self
        ensures { result ≡ marked_dead self card }
    {
        self.with_mark(card, false)
    }

    pub fn mark_live(self, card: u32) -> Self
        ensures { result ≡ marked_live self card }
    {
        self.with_mark(card, true)
    }

    pub fn with_status(mut self, status: Status) -> Self
        ensures { result ≡ with_status self status }
    {
        self.status = status;
        self
    }

    #[tactic(auto, using(crate::proofs::Changes::moved_past_end))]
    pub fn move_home(mut self, page: u32, primary: u32, secondary: u32) -> Self
        ensures { result ≡ with_homes self page primary secondary }
    {
        let at = page as usize;
        if at < 64 {
            self.primary[at] = primary;
            self.secondary[at] = secondary;
        }
        self
    }
}

// ---- the directory of a newly formatted rack, and of a refused formatting

#[tactic(auto, using(crate::proofs::Table::table_by_items))]
fn formatted_marks(cards: u32) -> [bool; 8]
    ensures { result ≡ formatted_marks cards }
{
    array::from_fn(|card| card < cards as usize)
}

fn formatted_primary(cards: u32, pages: u32, page: u32) -> u32
    requires { 0 < cards }
    ensures { result ≡ formatted_primary cards pages page }
{
    if page < pages { page % cards } else { 0 }
}

// Over the header of the rack, which has all its cards live.
fn formatted_secondary(header: Header, page: u32) -> u32
    requires { (0 < header.cards) × (header.live ≡ formatted_marks header.cards) }
    ensures { result ≡ formatted_secondary header.cards header.pages page }
{
    if page < header.pages {
        header.backup(page % header.cards)
    } else {
        0
    }
}

#[tactic(auto, using(crate::proofs::Table::table_by_items))]
fn formatted_primaries(cards: u32, pages: u32) -> [u32; 64]
    requires { 0 < cards }
    ensures { result ≡ table (formatted_primary cards pages) 64 }
{
    array::from_fn(|page| formatted_primary(cards, pages, page as u32))
}

#[tactic(auto, using(crate::proofs::Table::table_by_items))]
fn formatted_secondaries(header: Header) -> [u32; 64]
    requires { (0 < header.cards) × (header.live ≡ formatted_marks header.cards) }
    ensures { result ≡ table (formatted_secondary header.cards header.pages) 64 }
{
    array::from_fn(|page| formatted_secondary(header, page as u32))
}

impl Directory {
    // Of a newly formatted rack.
    #[tactic(auto, unfolding(crate::specs::Directory::formatted_directory))]
    pub fn formatted(cards: u32, pages: u32) -> Self
        requires { 0 < cards }
        ensures { result ≡ formatted_directory cards pages }
    {
        let status = Status::Running;
        let live = formatted_marks(cards);
        let header = Header {
            cards,
            pages,
            live,
            status,
        };
        let primary = formatted_primaries(cards, pages);
        let secondary = formatted_secondaries(header);
        Directory {
            cards,
            pages,
            live,
            primary,
            secondary,
            status,
        }
    }

    // Of a formatting that was refused.
    #[tactic(auto, unfolding(crate::specs::Directory::empty_directory))]
    pub fn empty() -> Self
        ensures { result ≡ empty_directory }
    {
        Directory {
            cards: 0,
            pages: 0,
            live: [false; 8],
            primary: [0; 64],
            secondary: [0; 64],
            status: Status::Running,
        }
    }
}

// ---- theorems and examples: these functions do nothing when they are called

// A page that lost a home gets the live card, other than the home that it keeps, that is home to
// the fewest pages (document 02, request 4). This rule and that of document 01 name a live card
// other than the kept home, where there is one.
#[tactic(auto, using(crate::proofs::NewHome::new_home_theorems))]
pub fn homes_are_shared_evenly()
    ensures shared { EvenlyShared }
    ensures even { NamesLive even_home }
    ensures next { NamesLive next_home }
{}

// Worked examples of the directory, computed from the definitions.
#[tactic(auto, using(crate::proofs::Examples::examples_hold))]
pub fn examples_hold()
    ensures { AllHold examples }
{}
