// The commands of shelfrun (document 01, "Numbers to hold it against"), executed on a rack.
#![tactic(auto)]

ghost use Rattle.std.specs.Prelude.{◌≡◌, get_or};
ghost use Rattle.laws.specs.Examples.{AllHold};
ghost use Rattle.answer.specs.Refusal.{outcome_of};
ghost use Rattle.protocol.specs.Join.{join};
ghost use Rattle.commands.specs.Execute.{open_one, make_steps, fail_and_recover, fetch_word};
ghost use Rattle.commands.specs.Execute.{execute, letter_of};
ghost use Rattle.commands.specs.Examples.{examples};

use answer::{Outcome, Refusal};
use diff::format::{END_WORD, OFFSET, PAGE_WORD, RUN_WORD};
use directory::Directory;
use lines::Command;

// What a command shows, and the directory that it leaves. The outcome is the two numbers that the line
// has: a refusal of S comes with the steps made, which no `Result` tells.
#[derive(Clone, Copy)]
pub struct Shown {
    pub directory: Directory,
    pub outcome: Outcome,
}

impl Shown {
    // What is shown of a call's answer.
    fn of_answer(directory: Directory, answer: Result<u64, Refusal>) -> Self
        ensures outcome { result.outcome ≡ outcome_of answer }
        ensures directory { result.directory ≡ directory }
    {
        Shown {
            directory,
            outcome: answer::outcome_of(answer),
        }
    }
}

// ---- the commands

// B: opens a release of one price.
fn open_one(
    memory: &mut [u32],
    directory: Directory,
    card: u32,
    number: u32,
    page: u8,
    word: u8,
    price: u32,
) -> Shown
    ensures outcome { result.outcome
        ≡ (open_one card number page word price directory memory.old).outcome }
    ensures directory { result.directory
        ≡ (open_one card number page word price directory memory.old).directory }
    ensures memory { memory.new
        ≡ (open_one card number page word price directory memory.old).memory }
{
    let list = [
        PAGE_WORD + page as u32,
        RUN_WORD + (word as u32 * OFFSET + 1),
        price,
        END_WORD + 3,
    ];
    let desk = [0u32; area::layout::DESK_SIZE];
    let reply = rack::open_release(memory, directory, card, number as u64, desk, &list);
    Shown::of_answer(reply.directory, reply.answer)
}

// S: makes steps, up to a count or a refusal.
fn make_steps(memory: &mut [u32], directory: Directory, card: u32, count: u32) -> Shown
    ensures outcome { result.outcome
        ≡ (make_steps card count directory memory.old).outcome }
    ensures directory { result.directory
        ≡ (make_steps card count directory memory.old).directory }
    ensures memory { memory.new
        ≡ (make_steps card count directory memory.old).memory }
{
    let reply = batch::steps(memory, directory, card, count);
    let came = answer::outcome_of(reply.answer);
    Shown {
        directory: reply.directory,
        outcome: answer::refused_at(came.number, reply.made as u64),
    }
}

// The price of one word of a page.
fn price_in(page: &[u32], word: u8) -> u32
    ensures { result ≡ get_or page.now word 0 }
{
    page.get(word as usize).copied().unwrap_or(0)
}

// F: fetches a page and shows one of its words.
fn fetch_word(memory: &[u32], directory: Directory, page: u8, word: u8) -> Shown
    ensures outcome { result.outcome
        ≡ (fetch_word page word directory memory.now).outcome }
    ensures directory { result.directory
        ≡ (fetch_word page word directory memory.now).directory }
{
    let mut buffer = [0u32; area::layout::PAGE_SIZE];
    let reply = rack::fetch_page(memory, directory, page as u32, &mut buffer);
    match reply.answer {
        Err(refusal) => Shown::of_answer(reply.directory, Err(refusal)),
        Ok(_) => Shown::of_answer(reply.directory, Ok(price_in(&buffer, word) as u64)),
    }
}

// X: a card fails and is recovered.
fn fail_and_recover(memory: &mut [u32], directory: Directory, card: u32) -> Shown
    ensures outcome { result.outcome
        ≡ (fail_and_recover card directory memory.old).outcome }
    ensures directory { result.directory
        ≡ (fail_and_recover card directory memory.old).directory }
    ensures memory { memory.new
        ≡ (fail_and_recover card directory memory.old).memory }
{
    let failed = rack::fail_card(memory, directory, card);
    match failed.answer {
        Err(refusal) => Shown::of_answer(failed.directory, Err(refusal)),
        Ok(_) => {
            let recovered = rack::recover_card(memory, failed.directory);
            Shown::of_answer(recovered.directory, recovered.answer)
        }
    }
}

// J: a dead card joins again.
fn join_card(memory: &mut [u32], directory: Directory, card: u32) -> Shown
    ensures outcome { result.outcome ≡ (join directory memory.old card).outcome }
    ensures directory { result.directory
        ≡ (join directory memory.old card).directory }
    ensures memory { memory.new
        ≡ (join directory memory.old card).memory }
{
    let reply = rack::join_card(memory, directory, card);
    Shown::of_answer(reply.directory, reply.answer)
}

// Executes the command of a line, if it has one.
#[tactic(auto, unfolding(crate::specs::Execute::execute, crate::specs::Execute::fetch_word))]
pub fn execute(memory: &mut [u32], directory: Directory, command: Option<Command>) -> Shown
    ensures outcome { result.outcome
        ≡ (execute command directory memory.old).outcome }
    ensures directory { result.directory
        ≡ (execute command directory memory.old).directory }
    ensures memory { memory.new
        ≡ (execute command directory memory.old).memory }
{
    match command {
        Some(
            Command::Open {
                card,
                number,
                page,
                word,
                price,
            },
        ) => open_one(memory, directory, card, number, page, word, price),
        Some(Command::Step { card, count }) => make_steps(memory, directory, card, count),
        Some(Command::Fail(card)) => fail_and_recover(memory, directory, card),
        Some(Command::Join(card)) => join_card(memory, directory, card),
        Some(Command::Fetch { page, word }) => fetch_word(memory, directory, page, word),
        None => Shown::of_answer(directory, Err(Refusal::Unreadable)),
    }
}

// The letter that an answer shows.
pub fn letter_of(command: Option<Command>) -> u8
    ensures { result ≡ letter_of command }
{
    match command {
        Some(Command::Open { .. }) => b'B',
        Some(Command::Step { .. }) => b'S',
        Some(Command::Fail(_)) => b'X',
        Some(Command::Join(_)) => b'J',
        Some(Command::Fetch { .. }) => b'F',
        None => b'-',
    }
}

// Worked examples of shelfrun's commands, computed from the definitions. It does nothing when it
// is called.
pub fn examples_hold()
    ensures { AllHold examples }
{}
