// What the exported functions answer, in numbers.
ghost use Rattle.std.specs.Prelude.{◌≡◌};
ghost use Rattle.answer.specs.Refusal.{outcome_of};
ghost use Rattle.bandsawpink.specs.Answers.{exported_answer, exported_desk_answer};
ghost use Rattle.bandsawpink.specs.Answers.{exported_steps_answer};
ghost use Rattle.bandsawpink.specs.Answers.{exported_pages_answer};

use answer::Refusal;

// 0 and what the call gives, or the refusal and its place.
#[repr(C)]
#[derive(Clone, Copy)]
pub struct RackAnswer {
    pub number: u32,
    pub value: u64,
}

// An answer with desk words: all zero if it is refused.
#[repr(C)]
#[derive(Clone, Copy)]
pub struct RackDeskAnswer {
    pub number: u32,
    pub value: u64,
    pub desk: [u32; 8],
}

// An answer with the number of steps made, also if a refusal stopped them.
#[repr(C)]
#[derive(Clone, Copy)]
pub struct RackStepsAnswer {
    pub number: u32,
    pub made: u32,
    pub value: u64,
}

// An answer with the pages that were shown: none if it is refused.
#[repr(C)]
#[derive(Clone, Copy)]
pub struct RackFetchAllAnswer {
    pub number: u32,
    pub value: u64,
    pub shown: [bool; 64],
}

pub fn in_numbers(answer: Result<u64, Refusal>) -> RackAnswer
    ensures { result ≡ exported_answer (outcome_of answer) }
{
    let o = answer::outcome_of(answer);
    RackAnswer {
        number: o.number,
        value: o.value,
    }
}

pub fn with_desk(answer: Result<u64, Refusal>, desk: [u32; 8]) -> RackDeskAnswer
    ensures { result ≡ exported_desk_answer (outcome_of answer) desk }
{
    let numbers = in_numbers(answer);
    RackDeskAnswer {
        number: numbers.number,
        value: numbers.value,
        desk,
    }
}

pub fn with_made(answer: Result<u64, Refusal>, made: u32) -> RackStepsAnswer
    ensures { result ≡ exported_steps_answer (outcome_of answer) made }
{
    let numbers = in_numbers(answer);
    RackStepsAnswer {
        number: numbers.number,
        made,
        value: numbers.value,
    }
}

pub fn with_shown(answer: Result<u64, Refusal>, shown: [bool; 64]) -> RackFetchAllAnswer
    ensures { result ≡ exported_pages_answer (outcome_of answer) shown }
{
    let numbers = in_numbers(answer);
    RackFetchAllAnswer {
        number: numbers.number,
        value: numbers.value,
        shown,
    }
}
