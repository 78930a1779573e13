// The lent memory: one area per card, ascending (document 01, "Cards, pages, memory"). Words and
// runs of words of an area are loaded, stored, copied and cleared here; what stands where in an
// area is told by `area`.
#![tactic(auto)]

ghost use Rattle.std.specs.Prelude.{◌≡◌, ◌+◌, ◌<◌, ◌≤◌, length};
ghost use Rattle.std.proofs.lemmas.List.Edits.{sets};
ghost use Rattle.laws.specs.Examples.{AllHold};
ghost use Rattle.memory.specs.Words.{AreaIn, load, store, load_run, store_run, clear_run};
ghost use Rattle.memory.specs.Words.{copy_run};
ghost use Rattle.memory.specs.Examples.{examples};

// ---- one word of a card's area

#[tactic(auto, unfolding(crate::specs::Words::load))]
pub fn load_word(memory: &[u32], size: usize, card: usize, offset: usize) -> u32
    requires area_in { AreaIn (length memory.now) size card }
    requires offset_lt_size { offset < size }
    ensures { result ≡ load size memory.now card offset }
{
    memory[card * size + offset]
}

#[tactic(auto, unfolding(crate::specs::Words::store))]
pub fn store_word(memory: &mut [u32], size: usize, card: usize, offset: usize, v: u32)
    requires area_in { AreaIn (length memory.old) size card }
    requires offset_lt_size { offset < size }
    ensures { memory.new ≡ store size memory.old card offset v }
{
    memory[card * size + offset] = v;
}

// ---- a run of words: to store it, the card's area is lent on as a part of the memory, the run as a
// part of the area

#[tactic(auto, unfolding(crate::specs::Words::load_run))]
pub fn load_run(memory: &[u32], size: usize, card: usize, offset: usize, buffer: &mut [u32])
    requires area_in { AreaIn (length memory.now) size card }
    requires buffer_bound { offset + length buffer.old ≤ size }
    ensures { buffer.new
        ≡ load_run size memory.now card offset (length buffer.old) }
{
    let start = card * size + offset;
    buffer.copy_from_slice(&memory[start..start + buffer.len()]);
}

// Stores words in an area, or in any other slice, from an offset on.
#[tactic(auto, using(crate::proofs::Parts::sets_all_part))]
pub fn store_run_in(area: &mut [u32], offset: usize, words: &[u32])
    requires { offset + length words.now ≤ length area.old }
    ensures { area.new ≡ sets area.old offset words.now }
{
    area[offset..offset + words.len()].copy_from_slice(words);
}

#[tactic(auto, using(crate::proofs::Parts::sets_part, crate::proofs::Runs::store_run_sets))]
pub fn store_run(memory: &mut [u32], size: usize, card: usize, offset: usize, words: &[u32])
    requires area_in { AreaIn (length memory.old) size card }
    requires words_bound { offset + length words.now ≤ size }
    ensures { memory.new
        ≡ store_run size memory.old card offset words.now }
{
    let start = card * size;
    store_run_in(&mut memory[start..start + size], offset, words);
}

#[tactic(auto, using(crate::proofs::Runs::cleared_part), unfolding(crate::specs::Words::clear_run, crate::specs::Words::zeros))]
pub fn clear_run(memory: &mut [u32], size: usize, card: usize, offset: usize, n: usize)
    requires area_in { AreaIn (length memory.old) size card }
    requires n_bound { offset + n ≤ size }
    ensures { memory.new ≡ clear_run size memory.old card offset n }
{
    let start = card * size;
    let area = &mut memory[start..start + size];
    area[offset..offset + n].fill(0);
}

// Copies a run to another card's area, or to another place of the same area, through a buffer of
// its length: the library copies from one slice to another, and has no method for two parts of one.
#[tactic(auto, unfolding(crate::specs::Words::copy_run))]
pub fn copy_run(
    memory: &mut [u32],
    size: usize,
    from: usize,
    offset: usize,
    to: usize,
    target: usize,
    buffer: &mut [u32],
)
    requires area_in { AreaIn (length memory.old) size from }
    requires area_in_2 { AreaIn (length memory.old) size to }
    requires buffer_bound { offset + length buffer.old ≤ size }
    requires buffer_bound_2 { target + length buffer.old ≤ size }
    ensures { memory.new
        ≡ copy_run size memory.old from offset to target
        (length buffer.old) }
{
    load_run(memory, size, from, offset, buffer);
    store_run(memory, size, to, target, buffer);
}

// Worked examples of words stored, computed from the definitions. It does nothing when it is
// called.
#[tactic(auto, using(crate::proofs::Examples::examples_hold))]
pub fn examples_hold()
    ensures { AllHold examples }
{}
