// Refusal 10: a page in an open release that already counts.
ghost use Rattle.std.specs.Prelude.{◌≡◌, ◌<◌, ◌≤◌, ◌||◌, length, leb};
ghost use Rattle.laws.specs.Search.{lowest_below, in_turn};
ghost use Rattle.area.specs.Prelude.{MemoryOf, area_size, steps_of};
ghost use Rattle.diff.specs.Prices.{prices_of};
ghost use Rattle.protocol.specs.Release.{counts_at};
ghost use Rattle.protocol.specs.Fetch.{in_motion};
ghost use Rattle.conflict.specs.Marks.{marked};
ghost use Rattle.conflict.specs.Motion.{page_of, tally_of, join_mark};
ghost use Rattle.conflict.specs.Motion.{mark_motion};

use area::releases;
use directory::Header;
use reader::Prices;

// The stores between those of the tentative prices and those of the committed ones: the words of the
// desk, and the stamp, from which on a release counts.
const STORES_BETWEEN: u64 = area::layout::DESK_SIZE as u64 + 1;

// How many prices a list has, and whether one of them names a page.
#[derive(Clone, Copy)]
struct Tally {
    prices: u32,
    named: bool,
}

// Counts the prices of a list and looks for one that names the page.
#[tactic(auto, unfolding(protocol::specs::Fetch::names_page))]
fn tally_prices(list: &[u32], pages: u32, page: u32) -> Tally
    requires { length list.now ≤ 512 }
    ensures { result ≡ tally_of (prices_of pages list.now) page }
{
    let mut prices = 0;
    let mut named = false;
    for price in Prices::new(list, pages) {
        prices += 1;
        named |= price.page == page;
    }
    Tally { prices, named }
}

// Whether the release open on the card, which has so many prices, counts already.
fn counts(memory: &[u32], header: Header, card: u32, prices: u32) -> bool
    requires memory_of { MemoryOf header (length memory.now) }
    requires card_lt_cards { card < header.cards }
    ensures { result
        ≡ leb (counts_at prices) (steps_of (area_size header.pages) memory.now card) }
{
    let size = area::layout::area_size(header.pages);
    let steps = releases::steps_made(memory, size, card as usize);
    2 * (prices as u64) + STORES_BETWEEN <= steps as u64
}

// Whether the release open on the card counts already and prices a word of the page.
#[tactic(auto, unfolding(protocol::specs::Fetch::in_motion))]
fn in_motion(memory: &[u32], header: Header, page: u32, card: u32) -> bool
    requires memory_of { MemoryOf header (length memory.now) }
    requires card_lt_cards { card < header.cards }
    ensures { result ≡ in_motion header.live header.pages memory.now page card }
{
    if !releases::is_open_on(memory, header, card) {
        return false;
    }
    let list = crate::open_list(memory, header, card);
    let tally = tally_prices(list, header.pages, page);
    counts(memory, header, card, tally.prices) && tally.named
}

// The lowest card whose open release already counts and prices a word of the page.
pub fn lowest_in_motion(memory: &[u32], header: Header, page: u32) -> Option<u32>
    requires { MemoryOf header (length memory.now) }
    ensures { result
        ≡ lowest_below (in_motion header.live header.pages memory.now page)
        header.cards }
{
    laws::numbers::lowest_below(header.cards, |card| in_motion(memory, header, page, card))
}

// Marks the pages that a list names, and counts its prices.
#[tactic(auto, unfolding(crate::specs::Marks::marked))]
fn mark_pages(list: &[u32], pages: u32, marks: &mut [bool; 64]) -> u32
    requires { (length list.now ≤ 512) × (pages ≤ 64) }
    ensures prices { result ≡ length (prices_of pages list.now) }
    ensures marks { marks.new
        ≡ marked page_of (prices_of pages list.now) marks.old }
{
    let mut prices = 0;
    for price in Prices::new(list, pages) {
        marks[price.page as usize] = true;
        prices += 1;
    }
    prices
}

// Adds the marks of pages to others.
#[tactic(auto, unfolding(laws::specs::Search::in_turn))]
fn join_marks(marks: &mut [bool; 64], more: &[bool; 64])
    ensures { marks.new
        ≡ in_turn (join_mark more.now) 64 marks.old }
{
    for page in 0..64 {
        marks[page] = more[page] | marks[page];
    }
}

// Marks the pages that the release open on the card names, if it counts already. That is known once
// the list is read, so they are marked aside first.
#[tactic(auto, using(crate::proofs::motion::Joined::pages_joined), unfolding(crate::specs::Motion::mark_motion))]
fn mark_motion(memory: &[u32], header: Header, card: u32, marks: &mut [bool; 64])
    requires memory_of { MemoryOf header (length memory.now) }
    requires card_lt_cards { card < header.cards }
    ensures { marks.new
        ≡ mark_motion header.live header.pages memory.now card marks.old }
{
    if releases::is_open_on(memory, header, card) {
        let list = crate::open_list(memory, header, card);
        let mut named = [false; 64];
        let prices = mark_pages(list, header.pages, &mut named);
        if counts(memory, header, card, prices) {
            join_marks(marks, &named);
        }
    }
}

// Marks each page that an open release which already counts names.
#[tactic(auto, unfolding(laws::specs::Search::in_turn))]
pub fn mark_in_motion(memory: &[u32], header: Header, marks: &mut [bool; 64])
    requires { MemoryOf header (length memory.now) }
    ensures { marks.new
        ≡ in_turn (mark_motion header.live header.pages memory.now) header.cards
        marks.old }
{
    for card in 0..header.cards {
        mark_motion(memory, header, card, marks);
    }
}
