// A card's record in the area of another card, its holder: read, and written from a release or from
// the card's own stamp and desk.
ghost use Rattle.std.specs.Prelude.{◌≡◌, ◌<◌, ◌≤◌, length};
ghost use Rattle.memory.specs.Words.{AreaIn, copy_run};
ghost use Rattle.area.specs.Layout.{desk_size, pages_start, record_at, record_size};
ghost use Rattle.area.specs.Releases.{release_of, own_release};
ghost use Rattle.area.specs.Record.{recorded_release, under_way, settled_record, write_record};

use crate::{layout, numbers};

// Reads the release that the record tells: its number, and its desk by the number's evenness.
pub fn load_record(memory: &[u32], size: usize, holder: usize, card: usize, desk: &mut [u32]) -> u64
    requires pages_start_le_size { (pages_start ≤ size) × AreaIn (length memory.now) size holder }
    requires card_bound { (card < 8) × (length desk.old ≡ desk_size) }
    ensures number { result
        ≡ (recorded_release size memory.now holder card).number }
    ensures desk { desk.new
        ≡ (recorded_release size memory.now holder card).desk }
{
    let number = numbers::load_number(memory, size, holder, layout::record_stamp(card));
    let start = layout::record_desk(card, number);
    memory::load_run(memory, size, holder, start, desk);
    number
}

// Whether the second phase of the release is under way: stamp and done mark differ.
#[tactic(auto, unfolding(crate::specs::Record::under_way))]
pub fn under_way(memory: &[u32], size: usize, holder: usize, card: usize) -> bool
    requires pages_start_le_size { (pages_start ≤ size) × AreaIn (length memory.now) size holder }
    requires card_bound { card < 8 }
    ensures { result ≡ under_way size memory.now holder card }
{
    let stamp = numbers::load_number(memory, size, holder, layout::record_stamp(card));
    let done = numbers::load_number(memory, size, holder, layout::record_done(card));
    stamp != done
}

// The words of a record: stamp, done mark equal to it, desk by the number's evenness, other desk 0.
pub fn settled_record(number: u64, desk: &[u32]) -> [u32; layout::RECORD_SIZE]
    requires { length desk.now ≡ desk_size }
    ensures { result ≡ settled_record (release_of number desk.now) }
{
    let mut words = [0u32; layout::RECORD_SIZE];
    numbers::store_number(&mut words, layout::RECORD_SIZE, 0, 0, number);
    numbers::store_number(
        &mut words,
        layout::RECORD_SIZE,
        0,
        layout::NUMBER_SIZE,
        number,
    );
    let start = layout::desk_in_record(number);
    memory::store_run(&mut words, layout::RECORD_SIZE, 0, start, desk);
    words
}

// Writes the record of a card, for this release.
fn write_record(
    memory: &mut [u32],
    size: usize,
    holder: usize,
    card: usize,
    number: u64,
    desk: &[u32],
)
    requires pages_start_le_size { (pages_start ≤ size) × AreaIn (length memory.old) size holder }
    requires card_bound { (card < 8) × (length desk.now ≡ desk_size) }
    ensures { memory.new
        ≡ write_record size memory.old holder card
        (release_of number desk.now) }
{
    let words = settled_record(number, desk);
    memory::store_run(memory, size, holder, layout::record_at(card), &words);
}

// Writes the record of a card, from the card's own stamp and desk.
pub fn copy_own_record(memory: &mut [u32], size: usize, holder: usize, card: usize)
    requires pages_start_le_size { (pages_start ≤ size) × AreaIn (length memory.old) size holder }
    requires card_bound { (card < 8) × AreaIn (length memory.old) size card }
    ensures { memory.new
        ≡ write_record size memory.old holder card
        (own_release size memory.old card) }
{
    let number = numbers::load_number(memory, size, card, layout::OWN_STAMP);
    let mut desk = [0u32; layout::DESK_SIZE];
    memory::load_run(memory, size, card, layout::OWN_DESK, &mut desk);
    write_record(memory, size, holder, card, number, &desk);
}

// Copies the record of a card from one holder to another.
pub fn copy_record(memory: &mut [u32], size: usize, from: usize, to: usize, card: usize)
    requires area_in { AreaIn (length memory.old) size from }
    requires area_in_2 { AreaIn (length memory.old) size to }
    requires pages_start_le_size { (pages_start ≤ size) × (card < 8) }
    ensures { memory.new
        ≡ copy_run size memory.old from (record_at card) to (record_at card) record_size }
{
    let mut words = [0u32; layout::RECORD_SIZE];
    let record = layout::record_at(card);
    memory::copy_run(memory, size, from, record, to, record, &mut words);
}
