// The rack's calls for programs in C and Rust: the functions of include/bandsawpink.h. Each does
// what the call that it names does, on any argument; C hands in a slice as a pointer and a length.
#![tactic(auto)]

ghost use Rattle.std.specs.Prelude.{◌≡◌, cond, eqb, length};
ghost use Rattle.laws.specs.Examples.{AllHold};
ghost use Rattle.area.specs.Prelude.{release_of};
ghost use Rattle.diff.specs.Making.{make_diff, buffer_after, mark_changes, marks_after};
ghost use Rattle.diff.specs.Merging.{merge_diffs, merged_buffer};
ghost use Rattle.protocol.specs.Calls.{formatting, opening, step, fetch, failure, recovery, join};
ghost use Rattle.protocol.specs.Calls.{desk_question};
ghost use Rattle.batch.specs.Steps.{steps};
ghost use Rattle.batch.specs.FetchAll.{fetch_all};
ghost use Rattle.mover.specs.Move.{move_in, move_back};
ghost use Rattle.bandsawpink.specs.Words.{directory_in, words_of};
ghost use Rattle.bandsawpink.specs.Answers.{exported_answer, exported_desk_answer};
ghost use Rattle.bandsawpink.specs.Answers.{directory_after, exported_steps_answer};
ghost use Rattle.bandsawpink.specs.Answers.{exported_pages_answer};
ghost use Rattle.bandsawpink.specs.Examples.{examples};

mod answers;
mod words;

use answers::{RackAnswer, RackDeskAnswer, RackFetchAllAnswer, RackStepsAnswer};
use directory::Directory;

// Writes the directory that a call left, unless it was refused.
fn hand_back(words: &mut [u32], number: u32, directory: Directory)
    requires { length words.old ≡ 139 }
    ensures { words.new
        ≡ cond (eqb number 0) (words_of directory) words.old }
{
    if number == 0 {
        words::write_directory(words, directory);
    }
}

// `rack::format_rack`. The directory is written also if it is refused: the empty one.
#[unsafe(no_mangle)]
pub extern "C" fn rack_format(
    memory: &mut [u32],
    cards: u32,
    pages: u32,
    directory: &mut [u32; 139],
) -> RackAnswer
    ensures answer { result
        ≡ exported_answer (formatting memory.old cards pages).outcome }
    ensures directory { directory.new
        ≡ words_of (formatting memory.old cards pages).directory }
    ensures memory { memory.new
        ≡ (formatting memory.old cards pages).memory }
{
    let reply = rack::format_rack(memory, cards, pages);
    let answer = reply.answer;
    let formatted = reply.directory;
    words::write_directory(directory, formatted);
    answers::in_numbers(answer)
}

// `rack::open_release`, which keeps the directory.
#[unsafe(no_mangle)]
pub extern "C" fn rack_open(
    memory: &mut [u32],
    directory: &[u32; 139],
    card: u32,
    number: u64,
    desk: &[u32; 8],
    list: &[u32],
) -> RackAnswer
    ensures answer { result
        ≡ exported_answer
        (opening (directory_in directory.now) memory.old card
        (release_of number desk.now) list.now).outcome }
    ensures memory { memory.new
        ≡ (opening (directory_in directory.now) memory.old card
        (release_of number desk.now) list.now).memory }
{
    let taken = words::directory_in(directory);
    let reply = rack::open_release(memory, taken, card, number, *desk, list);
    let answer = reply.answer;
    answers::in_numbers(answer)
}

// `rack::step_lent`: the directory is kept, its homes are lent.
#[unsafe(no_mangle)]
pub extern "C" fn rack_step(memory: &mut [u32], directory: &[u32; 139], card: u32) -> RackAnswer
    ensures answer { result
        ≡ exported_answer
        (step (directory_in directory.now) memory.old card).outcome }
    ensures memory { memory.new
        ≡ (step (directory_in directory.now) memory.old card).memory }
{
    let lent = words::lent_in(directory);
    let answer = rack::step_lent(memory, lent, card);
    answers::in_numbers(answer)
}

// `batch::steps`, which keeps the directory.
#[unsafe(no_mangle)]
pub extern "C" fn rack_steps(
    memory: &mut [u32],
    directory: &[u32; 139],
    card: u32,
    count: u32,
) -> RackStepsAnswer
    ensures answer { result
        ≡ exported_steps_answer
        (steps (directory_in directory.now) memory.old card count).outcome
        (steps (directory_in directory.now) memory.old card count).made }
    ensures memory { memory.new
        ≡ (steps (directory_in directory.now) memory.old card count).memory }
{
    let taken = words::directory_in(directory);
    let reply = batch::steps(memory, taken, card, count);
    let answer = reply.answer;
    answers::with_made(answer, reply.made)
}

// `rack::fetch_lent`: the directory is kept, its homes are lent.
#[unsafe(no_mangle)]
pub extern "C" fn rack_fetch(
    memory: &[u32],
    directory: &[u32; 139],
    page: u32,
    buffer: &mut [u32],
) -> RackAnswer
    ensures answer { result
        ≡ exported_answer
        (fetch (directory_in directory.now) memory.now page
        buffer.old).outcome }
    ensures buffer { buffer.new
        ≡ (fetch (directory_in directory.now) memory.now page
        buffer.old).words }
{
    let lent = words::lent_in(directory);
    let answer = rack::fetch_lent(memory, lent, page, buffer);
    answers::in_numbers(answer)
}

// `batch::fetch_all_lent`: the directory is kept, its homes are lent.
#[unsafe(no_mangle)]
pub extern "C" fn rack_fetch_all(
    memory: &[u32],
    directory: &[u32; 139],
    buffer: &mut [u32],
) -> RackFetchAllAnswer
    ensures answer { result
        ≡ exported_pages_answer
        (fetch_all (directory_in directory.now) memory.now
        buffer.old).outcome
        (fetch_all (directory_in directory.now) memory.now
        buffer.old).pages.shown }
    ensures buffer { buffer.new
        ≡ (fetch_all (directory_in directory.now) memory.now
        buffer.old).pages.words }
{
    let lent = words::lent_in(directory);
    let fetched = batch::fetch_all_lent(memory, lent, buffer);
    let answer = fetched.answer;
    let shown = fetched.shown;
    answers::with_shown(answer, shown)
}

// `rack::fail_card`.
#[unsafe(no_mangle)]
pub extern "C" fn rack_fail(memory: &[u32], directory: &mut [u32; 139], card: u32) -> RackAnswer
    ensures answer { result
        ≡ exported_answer
        (failure (directory_in directory.old) memory.now card).outcome }
    ensures directory { directory.new
        ≡ directory_after directory.old
        (failure (directory_in directory.old) memory.now card) }
{
    let taken = words::directory_in(directory);
    let reply = rack::fail_card(memory, taken, card);
    let replied = reply.answer;
    let answer = answers::in_numbers(replied);
    let failed = reply.directory;
    hand_back(directory, answer.number, failed);
    answer
}

// `rack::recover_card`.
#[unsafe(no_mangle)]
pub extern "C" fn rack_recover(memory: &mut [u32], directory: &mut [u32; 139]) -> RackDeskAnswer
    ensures answer { result
        ≡ exported_desk_answer
        (recovery (directory_in directory.old) memory.old).outcome
        (recovery (directory_in directory.old) memory.old).words }
    ensures directory { directory.new
        ≡ directory_after directory.old
        (recovery (directory_in directory.old) memory.old) }
    ensures memory { memory.new
        ≡ (recovery (directory_in directory.old) memory.old).memory }
{
    let taken = words::directory_in(directory);
    let reply = rack::recover_card(memory, taken);
    let replied = reply.answer;
    let desk = reply.desk;
    let answer = answers::with_desk(replied, desk);
    let recovered = reply.directory;
    hand_back(directory, answer.number, recovered);
    answer
}

// `rack::join_card`.
#[unsafe(no_mangle)]
pub extern "C" fn rack_join(memory: &mut [u32], directory: &mut [u32; 139], card: u32) -> RackAnswer
    ensures answer { result
        ≡ exported_answer
        (join (directory_in directory.old) memory.old card).outcome }
    ensures directory { directory.new
        ≡ directory_after directory.old
        (join (directory_in directory.old) memory.old card) }
    ensures memory { memory.new
        ≡ (join (directory_in directory.old) memory.old card).memory }
{
    let taken = words::directory_in(directory);
    let reply = rack::join_card(memory, taken, card);
    let replied = reply.answer;
    let answer = answers::in_numbers(replied);
    let joined = reply.directory;
    hand_back(directory, answer.number, joined);
    answer
}

// `rack::ask_desk`, which keeps the directory.
#[unsafe(no_mangle)]
pub extern "C" fn rack_desk(memory: &[u32], directory: &[u32; 139], card: u32) -> RackDeskAnswer
    ensures { result
        ≡ exported_desk_answer
        (desk_question (directory_in directory.now) memory.now card).outcome
        (desk_question (directory_in directory.now) memory.now card).words }
{
    let taken = words::directory_in(directory);
    let reply = rack::ask_desk(memory, taken, card);
    let replied = reply.answer;
    let desk = reply.desk;
    answers::with_desk(replied, desk)
}

// `maker::make`.
#[unsafe(no_mangle)]
pub extern "C" fn rack_make_list(
    working: &[u32],
    twins: &[u32],
    marks: &[u32],
    buffer: &mut [u32],
) -> RackAnswer
    ensures answer { result
        ≡ exported_answer
        (make_diff working.now twins.now marks.now
        (length buffer.old)) }
    ensures written { buffer.new
        ≡ buffer_after working.now twins.now marks.now
        buffer.old }
{
    answers::in_numbers(maker::make(working, twins, marks, buffer))
}

// `maker::mark_changes`.
#[unsafe(no_mangle)]
pub extern "C" fn rack_mark_changes(working: &[u32], twins: &[u32], marks: &mut [u32]) -> RackAnswer
    ensures answer { result
        ≡ exported_answer
        (mark_changes (length working.now) (length twins.now)
        (length marks.old)) }
    ensures written { marks.new
        ≡ marks_after working.now twins.now marks.old }
{
    answers::in_numbers(maker::mark_changes(working, twins, marks))
}

// `merger::merge`.
#[unsafe(no_mangle)]
pub extern "C" fn rack_merge_lists(first: &[u32], second: &[u32], buffer: &mut [u32]) -> RackAnswer
    ensures answer { result
        ≡ exported_answer
        (merge_diffs first.now second.now (length buffer.old)) }
    ensures written { buffer.new
        ≡ merged_buffer first.now second.now buffer.old }
{
    answers::in_numbers(merger::merge(first, second, buffer))
}

// `mover::move_in`, which keeps the directory and the old memory.
#[unsafe(no_mangle)]
pub extern "C" fn rack_move_in(
    old: &[u32],
    directory: &[u32; 139],
    memory: &mut [u32],
) -> RackAnswer
    ensures answer { result
        ≡ exported_answer
        (move_in (directory_in directory.now) old.now memory.old
        ).outcome }
    ensures memory { memory.new
        ≡ (move_in (directory_in directory.now) old.now memory.old
        ).memory }
{
    let taken = words::directory_in(directory);
    let reply = mover::move_in(old, taken, memory);
    let answer = reply.answer;
    answers::in_numbers(answer)
}

// `mover::move_back`, which keeps the directory and the memory that it moves.
#[unsafe(no_mangle)]
pub extern "C" fn rack_move_back(
    memory: &[u32],
    directory: &[u32; 139],
    old: &mut [u32],
) -> RackAnswer
    ensures answer { result
        ≡ exported_answer
        (move_back (directory_in directory.now) memory.now old.old
        ).outcome }
    ensures old { old.new
        ≡ (move_back (directory_in directory.now) memory.now old.old
        ).memory }
{
    let taken = words::directory_in(directory);
    let reply = mover::move_back(memory, taken, old);
    let answer = reply.answer;
    answers::in_numbers(answer)
}

// Worked examples of what crosses to C, computed from the definitions. It does nothing when it is
// called.
pub fn examples_hold()
    ensures { AllHold examples }
{}
