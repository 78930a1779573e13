// Release numbers, stamps and done marks in a card's area: 64 bits, the low word first.
ghost use Rattle.std.specs.Prelude.{◌≡◌, ◌+◌, ◌≤◌, length};
ghost use Rattle.memory.specs.Words.{AreaIn};
ghost use Rattle.area.specs.Layout.{number_size};
ghost use Rattle.area.specs.Numbers.{load_number, store_number};

// How many values a word has.
const WORD_VALUES: u64 = 0x100000000;

pub fn load_number(memory: &[u32], size: usize, card: usize, offset: usize) -> u64
    requires area_in { AreaIn (length memory.now) size card }
    requires number_size_bound { offset + number_size ≤ size }
    ensures { result ≡ load_number size memory.now card offset }
{
    let low = memory::load_word(memory, size, card, offset);
    let high = memory::load_word(memory, size, card, offset + 1);
    low as u64 + WORD_VALUES * high as u64
}

pub fn store_number(memory: &mut [u32], size: usize, card: usize, offset: usize, number: u64)
    requires area_in { AreaIn (length memory.old) size card }
    requires number_size_bound { offset + number_size ≤ size }
    ensures { memory.new
        ≡ store_number size memory.old card offset number }
{
    let low = (number % WORD_VALUES) as u32;
    let high = (number / WORD_VALUES) as u32;
    memory::store_word(memory, size, card, offset, low);
    memory::store_word(memory, size, card, offset + 1, high);
}
