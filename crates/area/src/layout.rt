// Where things stand in a card's area: document 01's table of words, with numbers of two words, each
// row from the row before it. specs/Layout.antt has the same table.
ghost use Rattle.std.specs.Prelude.{◌≡◌, ◌<◌, ◌≤◌};
ghost use Rattle.area.specs.Layout.{area_size, desk_in_record, record_at, record_stamp, record_done};
ghost use Rattle.area.specs.Layout.{record_desk, page_at};

// Words of a release's number, of a stamp and of a done mark.
pub const NUMBER_SIZE: usize = 2;

// Words that the price desk wants back.
pub const DESK_SIZE: usize = 8;

pub const OWN_STAMP: usize = 0;

pub const OWN_DESK: usize = OWN_STAMP + NUMBER_SIZE;

pub const OPEN_FLAG: usize = OWN_DESK + DESK_SIZE;

pub const STEPS_MADE: usize = OPEN_FLAG + 1;

pub const RELEASE_NUMBER: usize = STEPS_MADE + 1;

pub const RELEASE_DESK: usize = RELEASE_NUMBER + NUMBER_SIZE;

// From the mark of an open release to the end of its desk.
pub const RELEASE_SIZE: usize = 2 + NUMBER_SIZE + DESK_SIZE;

const RECORDS_START: usize = OPEN_FLAG + RELEASE_SIZE;

// A rack has at most eight cards.
pub const RECORD_COUNT: usize = 8;

pub const RECORD_SIZE: usize = 2 * NUMBER_SIZE + 2 * DESK_SIZE;

pub const LIST_START: usize = RECORDS_START + RECORD_COUNT * RECORD_SIZE;

pub const LIST_SIZE: usize = 512;

const PAGES_START: usize = LIST_START + LIST_SIZE;

// The words of a page, in each of its halves.
pub const PAGE_SIZE: usize = 32;

pub const STORED_PAGE_SIZE: usize = 2 * PAGE_SIZE;

// Where each half of a page starts in it.
pub const TENTATIVE_HALF: usize = 0;

pub const COMMITTED_HALF: usize = TENTATIVE_HALF + PAGE_SIZE;

// The number of words of one area.
pub fn area_size(pages: u32) -> usize
    requires { pages ≤ 64 }
    ensures { result ≡ area_size pages }
{
    page_at(pages as usize)
}

// Where the record of a card stands in the area of the card that holds it.
pub fn record_at(card: usize) -> usize
    requires { card < 8 }
    ensures { result ≡ record_at card }
{
    RECORDS_START + RECORD_SIZE * card
}

// Where the desk of a release stands in a record, by the release's number.
pub fn desk_in_record(number: u64) -> usize
    ensures { result ≡ desk_in_record number }
{
    2 * NUMBER_SIZE + DESK_SIZE * (number % 2) as usize
}

// In the record of a card, its stamp.
pub fn record_stamp(card: usize) -> usize
    requires { card < 8 }
    ensures { result ≡ record_stamp card }
{
    record_at(card)
}

// Its done mark.
pub fn record_done(card: usize) -> usize
    requires { card < 8 }
    ensures { result ≡ record_done card }
{
    record_at(card) + NUMBER_SIZE
}

// The desk of a release, by its number.
pub fn record_desk(card: usize, number: u64) -> usize
    requires { card < 8 }
    ensures { result ≡ record_desk card number }
{
    record_at(card) + desk_in_record(number)
}

pub(crate) fn page_at(page: usize) -> usize
    requires { page ≤ 64 }
    ensures { result ≡ page_at page }
{
    PAGES_START + STORED_PAGE_SIZE * page
}
