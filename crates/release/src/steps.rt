// Several steps of a release.
ghost use Rattle.std.specs.Prelude.{◌≡◌, ℕ, ◌-◌, ◌<◌, ◌≤◌, length, map, min};
ghost use Rattle.directory.specs.Directory.{directory_by};
ghost use Rattle.area.specs.Prelude.{AreaIn, area_size, pages_start, list_size, steps_of};
ghost use Rattle.protocol.specs.Release.{steps_in};
ghost use Rattle.protocol.specs.Recovery.{step_times};
ghost use Rattle.reader.specs.Labels.{unlabeled};
ghost use Rattle.release.specs.Stepping.{CardOf, HomesIn, HomesOf, GoodRelease, Counted};
ghost use Rattle.release.specs.Stepping.{StepsLeft, Listed, left_of, viewed};
ghost use Rattle.release.specs.Phases.{RunNext};

use crate::phase;
use crate::phase::{Phase, PriceStore};
use crate::view::DirectoryView;
use area::layout;
use directory::Header;
use reader::LabeledPrice;

// How many prices the release open on a card has.
pub(crate) fn count_prices(memory: &[u32], size: usize, pages: u32, card: usize) -> u32
    requires size_value { (size ≡ area_size pages) × AreaIn (length memory.now) size card }
    requires good_release { GoodRelease pages memory.now card }
    ensures { Counted pages memory.now card result }
{
    match reader::read(area::releases::open_list(memory, size, card), pages) {
        Ok(extent) => extent.prices,
        Err(_) => 0,
    }
}

// How many steps a release of k prices has left, the close among them.
fn steps_left(memory: &[u32], size: usize, card: usize, k: u32) -> u32
    requires pages_start_le_size { (pages_start ≤ size) × AreaIn (length memory.now) size card }
    requires card_bound { (steps_of size memory.now card < steps_in k) × (k < list_size) }
    ensures { result ≡ steps_in k - steps_of size memory.now card }
{
    phase::steps_in(k) - area::releases::steps_made(memory, size, card)
}

// Makes steps that store a price, one after the other, from the first one on, and counts them once:
// the area keeps the old count while the prices are stored, and nobody looks at it before the call
// ends.
fn store_prices(
    memory: &mut [u32],
    directory: DirectoryView<'_>,
    card: usize,
    first: PriceStore,
    count: u32,
    prices: &[LabeledPrice; layout::LIST_SIZE],
)
    requires homes_of { HomesOf (viewed directory) (length memory.old) }
    requires card_in { CardOf directory.header (length memory.old) card }
    requires run_next { RunNext directory.header.pages memory.old card first count }
    requires listed { Listed directory.header.pages memory.old card
        (map unlabeled prices.now) }
    ensures { (backup : ℕ) → memory.new
        ≡ step_times (viewed directory.entry) backup card count memory.old }
{
    let size = layout::area_size(directory.header.pages);
    let steps = area::releases::steps_made(memory, size, card);
    for made in 0..count {
        let at = first.at + made;
        let p = prices[(at / 2) as usize].unlabeled();
        crate::step_price(memory, directory, p, PriceStore { at, ..first });
    }
    crate::count_steps(memory, size, card, steps, count);
}

// The release open on a card: where its record is, and how many prices it has.
#[derive(Clone, Copy)]
struct OpenRelease {
    card: usize,
    backup: usize,
    k: u32,
}

// Makes so many steps of a release, no more than it has left; its prices are listed.
fn make_listed(
    memory: &mut [u32],
    directory: DirectoryView<'_>,
    release: OpenRelease,
    count: u32,
    prices: &[LabeledPrice; layout::LIST_SIZE],
)
    requires homes_of { HomesOf (viewed directory) (length memory.old) }
    requires card_in { CardOf directory.header (length memory.old) release.card }
    requires backup_in { CardOf directory.header (length memory.old) release.backup }
    requires steps_left { StepsLeft directory.header.pages memory.old release.card release.k count }
    requires listed { Listed directory.header.pages memory.old release.card
        (map unlabeled prices.now) }
    ensures { memory.new
        ≡ step_times (viewed directory.entry) release.backup release.card count memory.old }
{
    let header = directory.header;
    let size = layout::area_size(header.pages);
    let OpenRelease { card, backup, k } = release;
    // A turn makes one step, or a whole run of stores of prices, so that the steps are no range.
    let mut left = count;
    while 0 < left {
        let steps = area::releases::steps_made(memory, size, card);
        match phase::next_phase(k, steps) {
            Phase::StorePrice(first) => {
                let run = left.min(2 * k - first.at);
                store_prices(memory, directory, card, first, run, prices);
                left -= run;
            }
            Phase::StoreRecord(store) => {
                crate::count_record(memory, header, backup, card, store, steps);
                left -= 1;
            }
            Phase::Close => {
                crate::close_release(memory, size, card);
                left -= 1;
            }
        }
    }
}

// Makes so many steps of the release open on a card, or all that it has left if they are fewer;
// answers how many. Reads the list once.
pub fn make_steps(
    memory: &mut [u32],
    header: Header,
    primary: &[u32],
    secondary: &[u32],
    backup: usize,
    card: usize,
    count: u32,
) -> u32
    requires homes_in { HomesIn header.live header.pages primary.now secondary.now
        (length memory.old) }
    requires card_in { CardOf header (length memory.old) card }
    requires backup_in { CardOf header (length memory.old) backup }
    requires good_release { GoodRelease header.pages memory.old card }
    ensures made { result ≡ min count (left_of header.pages memory.old card) }
    ensures memory { memory.new
        ≡ step_times (directory_by header primary.now secondary.now) backup
        card result memory.old }
{
    let pages = header.pages;
    let size = layout::area_size(pages);
    let none = LabeledPrice { label: 0, price: 0 };
    let mut prices = [none; layout::LIST_SIZE];
    let list = area::releases::open_list(memory, size, card);
    let k = reader::list_labeled_prices(list, pages, &mut prices);
    let steps = count.min(steps_left(memory, size, card, k));
    let directory = DirectoryView {
        header,
        primary,
        secondary,
    };
    let release = OpenRelease { card, backup, k };
    make_listed(memory, directory, release, steps, &prices);
    steps
}
