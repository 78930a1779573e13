// A page in a card's area: the card's area is lent on as a part of the memory, and the page as a
// part of it. A word of the page is named by its place in both halves.
ghost use Rattle.std.specs.Prelude.{◌≡◌, ◌+◌, ◌<◌, ◌≤◌, length, set};
ghost use Rattle.memory.specs.Words.{AreaIn, store, copy_run, load_run};
ghost use Rattle.area.specs.Layout.{page_size, stored_page_size, page_at, committed};

use crate::layout;

fn store_in_page(page: &mut [u32], word: usize, v: u32)
    requires { word < length page.old }
    ensures { page.new ≡ set page.old word v }
{
    page[word] = v;
}

fn store_price_in(area: &mut [u32], page: usize, word: usize, v: u32)
    requires { (page < 64) × (page_at page + stored_page_size ≤ length area.old)
        × (word < stored_page_size) }
    ensures { area.new ≡ set area.old (page_at page + word) v }
{
    let start = layout::page_at(page);
    let end = start + layout::STORED_PAGE_SIZE;
    store_in_page(&mut area[start..end], word, v);
}

// Stores a price in one of both halves of a page.
pub fn store_price(memory: &mut [u32], size: usize, card: usize, page: usize, word: usize, v: u32)
    requires area_in { AreaIn (length memory.old) size card }
    requires page_bound { (page < 64) × (page_at page + stored_page_size ≤ size) × (word < stored_page_size) }
    ensures { memory.new
        ≡ store size memory.old card (page_at page + word) v }
{
    let area = card * size;
    let end = area + size;
    store_price_in(&mut memory[area..end], page, word, v);
}

// Copies both halves of a page from one card's area to another's.
pub fn copy_page(memory: &mut [u32], size: usize, from: usize, to: usize, page: usize)
    requires area_in { AreaIn (length memory.old) size from }
    requires area_in_2 { AreaIn (length memory.old) size to }
    requires page_bound { (page < 64) × (page_at page + stored_page_size ≤ size) }
    ensures { memory.new
        ≡ copy_run size memory.old from (page_at page) to (page_at page) stored_page_size }
{
    let mut words = [0u32; layout::STORED_PAGE_SIZE];
    let start = layout::page_at(page);
    memory::copy_run(memory, size, from, start, to, start, &mut words);
}

// Copies one half of a page to the other; a half is named by its place in the page.
pub fn copy_half(memory: &mut [u32], size: usize, card: usize, page: usize, from: usize, to: usize)
    requires area_in { AreaIn (length memory.old) size card }
    requires page_bound { (page < 64) × (page_at page + stored_page_size ≤ size) }
    requires page_size_bound { (from + page_size ≤ stored_page_size) × (to + page_size ≤ stored_page_size) }
    ensures { memory.new
        ≡ copy_run size memory.old card (page_at page + from) card (page_at page + to)
        page_size }
{
    let mut words = [0u32; layout::PAGE_SIZE];
    let start = layout::page_at(page);
    memory::copy_run(
        memory,
        size,
        card,
        start + from,
        card,
        start + to,
        &mut words,
    );
}

// Loads the committed words of a page into a buffer of their number.
pub fn load_committed(memory: &[u32], size: usize, card: usize, page: usize, buffer: &mut [u32])
    requires area_in { AreaIn (length memory.now) size card }
    requires page_bound { (page < 64) × (page_at page + stored_page_size ≤ size) }
    requires buffer_len { length buffer.old ≡ page_size }
    ensures { buffer.new
        ≡ load_run size memory.now card (committed page) page_size }
{
    let start = layout::page_at(page) + layout::COMMITTED_HALF;
    memory::load_run(memory, size, card, start, buffer);
}
