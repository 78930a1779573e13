// A release on its card: opening it, one step of it, its close. These write the memory of a rack
// that passed its checks; which calls are refused is decided above.
#![tactic(auto)]

ghost use Rattle.std.specs.Prelude.{◌≡◌, List, ℕ, ◌+◌, ◌<◌, ◌≤◌, length};
ghost use Rattle.directory.specs.Directory.{directory_by};
ghost use Rattle.area.specs.Prelude.{AreaIn, store, area_size, steps_made, desk_size, list_size, page_size};
ghost use Rattle.area.specs.Prelude.{pages_start, release_of, open_release, steps_of};
ghost use Rattle.protocol.specs.Release.{open_prices, make_write, close, step_memory, steps_in};
ghost use Rattle.protocol.specs.Opening.{open_memory};
ghost use Rattle.release.specs.Stepping.{CardOf, HomesIn, HomesOf, GoodRelease, NumberedPrice};
ghost use Rattle.release.specs.Stepping.{viewed, home_at};
ghost use Rattle.release.specs.Phases.{NextRecord, InDesk, store_of, record_write};

mod phase;
mod steps;
mod view;

use area::{layout, numbers};
use diff::Price;
use directory::Header;
use phase::{Phase, PriceStore, RecordStore};
pub use steps::make_steps;
use view::DirectoryView;

// Copies list, desk and number to the card's own area and sets steps to 0.
pub fn open_release(
    memory: &mut [u32],
    size: usize,
    card: usize,
    number: u64,
    desk: &[u32],
    list: &[u32],
)
    requires area_in { AreaIn (length memory.old) size card }
    requires pages_start_le_size { (pages_start ≤ size) × (length desk.now ≡ desk_size)
        × (length list.now ≤ list_size) }
    ensures { memory.new
        ≡ open_memory size memory.old card (release_of number desk.now)
        list.now }
{
    memory::store_word(memory, size, card, layout::OPEN_FLAG, 1);
    memory::store_word(memory, size, card, layout::STEPS_MADE, 0);
    numbers::store_number(memory, size, card, layout::RELEASE_NUMBER, number);
    memory::store_run(memory, size, card, layout::RELEASE_DESK, desk);
    memory::store_run(memory, size, card, layout::LIST_START, list);
}

// Sets the card's own stamp and desk, and clears the release.
pub fn close_release(memory: &mut [u32], size: usize, card: usize)
    requires { (pages_start ≤ size) × AreaIn (length memory.old) size card }
    ensures { memory.new ≡ close size memory.old card }
{
    let number = numbers::load_number(memory, size, card, layout::RELEASE_NUMBER);
    let mut desk = [0u32; layout::DESK_SIZE];
    memory::load_run(memory, size, card, layout::RELEASE_DESK, &mut desk);
    numbers::store_number(memory, size, card, layout::OWN_STAMP, number);
    memory::store_run(memory, size, card, layout::OWN_DESK, &desk);
    memory::clear_run(memory, size, card, layout::OPEN_FLAG, layout::RELEASE_SIZE);
    memory::clear_run(memory, size, card, layout::LIST_START, layout::LIST_SIZE);
}

// ---- the stores of a step

// The home of a page that the store numbered `at` of one half goes to.
fn home_at(directory: DirectoryView<'_>, page: usize, at: u32) -> u32
    requires { (page < length directory.primary.now) × (page < length directory.secondary.now) }
    ensures { result ≡ home_at (viewed directory.entry) at page }
{
    if at % 2 == 0 {
        directory.secondary[page]
    } else {
        directory.primary[page]
    }
}

// One of the stores that write a half of the pages, dropped if the home is dead.
fn step_price(memory: &mut [u32], directory: DirectoryView<'_>, p: Price, store: PriceStore)
    requires homes_of { HomesOf (viewed directory) (length memory.old) }
    requires page_lt_pages { (p.page < directory.header.pages) × (p.word < page_size)
        × (store.half ≤ page_size) }
    ensures { memory.new
        ≡ make_write directory.entry.header.live (area_size directory.entry.header.pages)
        memory.old
        (store_of (viewed directory.entry) store.at store.half p) }
{
    let header = directory.header;
    let page = p.page as usize;
    let home = home_at(directory, page, store.at) as usize;
    if header.live[home] {
        let size = layout::area_size(header.pages);
        let word = store.half + p.word as usize;
        area::pages::store_price(memory, size, home, page, word, p.price);
    }
}

// A store in the release's record at the backup, dropped if the backup is dead. The desk goes to
// the even desk of the record if the release's number is even, else to the odd one.
fn step_record(memory: &mut [u32], header: Header, backup: usize, card: usize, store: RecordStore)
    requires card_in { CardOf header (length memory.old) card }
    requires backup_in { CardOf header (length memory.old) backup }
    requires pages_bound { (header.pages ≤ 64) × InDesk store }
    ensures { memory.new
        ≡ make_write header.live (area_size header.pages) memory.old
        (record_write backup card
        (open_release (area_size header.pages) memory.old card)
        store) }
{
    if !header.live[backup] {
        return;
    }
    let size = layout::area_size(header.pages);
    let number = numbers::load_number(memory, size, card, layout::RELEASE_NUMBER);
    match store {
        RecordStore::Desk(j) => {
            let desk = layout::record_desk(card, number);
            let word = memory::load_word(memory, size, card, layout::RELEASE_DESK + j);
            memory::store_word(memory, size, backup, desk + j, word);
        }
        RecordStore::Stamp => {
            let stamp = layout::record_stamp(card);
            numbers::store_number(memory, size, backup, stamp, number);
        }
        RecordStore::Done => {
            let done = layout::record_done(card);
            numbers::store_number(memory, size, backup, done, number);
        }
    }
}

// ---- one step

// So many more steps made.
fn count_steps(memory: &mut [u32], size: usize, card: usize, steps: u32, more: u32)
    requires { (pages_start ≤ size) × AreaIn (length memory.old) size card
        × (steps + more ≤ steps_in list_size) }
    ensures { memory.new
        ≡ store size memory.old card steps_made (steps + more) }
{
    memory::store_word(memory, size, card, layout::STEPS_MADE, steps + more);
}

// The step that stores in the record, counted; so many are made before it.
fn count_record(
    memory: &mut [u32],
    header: Header,
    backup: usize,
    card: usize,
    store: RecordStore,
    steps: u32,
)
    requires card_in { CardOf header (length memory.old) card }
    requires backup_in { CardOf header (length memory.old) backup }
    requires pages_bound { (header.pages ≤ 64)
        × (length (open_prices header.pages memory.old card) < list_size) }
    requires steps_value { (steps ≡ steps_of (area_size header.pages) memory.old card)
        × NextRecord (length (open_prices header.pages memory.old card)) steps store }
    ensures { (primary : List ℕ) (secondary : List ℕ) → memory.new
        ≡ step_memory (directory_by header primary secondary) backup memory.old card }
{
    step_record(memory, header, backup, card, store);
    count_steps(memory, layout::area_size(header.pages), card, steps, 1);
}

// The price of this number of the release open on a card; any, if it has not so many.
fn find_price(memory: &[u32], size: usize, pages: u32, card: usize, n: u32) -> Price
    requires { (size ≡ area_size pages) × AreaIn (length memory.now) size card }
    ensures { NumberedPrice pages memory.now card n result }
{
    let none = Price {
        page: 0,
        word: 0,
        price: 0,
    };
    reader::nth_price(area::releases::open_list(memory, size, card), pages, n).unwrap_or(none)
}

// Makes one step of the release that is open on a card.
pub fn step_release(
    memory: &mut [u32],
    header: Header,
    primary: &[u32],
    secondary: &[u32],
    backup: usize,
    card: usize,
)
    requires homes_in { HomesIn header.live header.pages primary.now secondary.now
        (length memory.old) }
    requires card_in { CardOf header (length memory.old) card }
    requires backup_in { CardOf header (length memory.old) backup }
    requires good_release { GoodRelease header.pages memory.old card }
    ensures { memory.new
        ≡ step_memory (directory_by header primary.now secondary.now) backup
        memory.old card }
{
    let size = layout::area_size(header.pages);
    let k = steps::count_prices(memory, size, header.pages, card);
    let steps = area::releases::steps_made(memory, size, card);
    match phase::next_phase(k, steps) {
        Phase::StorePrice(store) => {
            let p = find_price(memory, size, header.pages, card, store.at / 2);
            let directory = DirectoryView {
                header,
                primary,
                secondary,
            };
            step_price(memory, directory, p, store);
            count_steps(memory, size, card, steps, 1);
        }
        Phase::StoreRecord(store) => count_record(memory, header, backup, card, store, steps),
        Phase::Close => close_release(memory, size, card),
    }
}
