// What a call answers: the value that it gives, or the refusal. The numbers that the refusals have,
// and the places that they name, are told where an answer crosses to C or is printed.
#![tactic(auto)]

ghost use Rattle.std.specs.Prelude.{◌≡◌};
ghost use Rattle.answer.specs.Outcome.{given, refused_at};
ghost use Rattle.answer.specs.Refusal.{number_of, place_of, outcome_of, AnswersApart};

// What a call refuses, by who caused it, and the place that the refusal names, if it names one.
#[derive(Clone, Copy)]
pub enum Refusal {
    // Whoever fitted the rack: cards or pages outside their limits, or a length that is not theirs.
    Limits,
    // Memory and directory do not fit each other.
    Unfit,
    // The price desk: no such card, or a dead one.
    NoCard,
    // A release is open on the card.
    ReleaseOpen,
    // The number is at or below the card's stamp, which is the place.
    NumberUsed(u64),
    // The number is above the card's stamp + 1.
    NumberAhead,
    // A faulty list of changes; the place is the word.
    FaultyList(u32),
    // A word of the list stands in the open release of this other card, the lowest such one.
    WordInUse(u32),
    // A step with no release open.
    NoneOpen,
    // A list made of others would have over 512 words.
    ListTooLong,
    // The reader: no such page.
    NoPage,
    // The page is in the open release of this card, which counts already; the lowest such one.
    PageInMotion(u32),
    // A page buffer or a list buffer of the wrong length, or a list over 512 words.
    WrongBuffer,
    // The rack's state: a recovery is awaited.
    RecoveryAwaited,
    // Recovery with none awaited.
    NoneAwaited,
    // A failure with two live cards.
    TwoLive,
    // A live card joins.
    CardLive,
    // A card joins, or a rack is moved, with a release open.
    JoinWhileOpen,
    // A stamp or done mark above 4294967295, on the way back to numbers of one word.
    StampTooHigh,
    // A line that the program cannot read.
    Unreadable,
}

impl Refusal {
    // Its number. specs/Refusal.antt has the same table.
    pub fn number(self) -> u32
        ensures { result ≡ number_of self }
    {
        match self {
            Refusal::Limits => 1,
            Refusal::Unfit => 2,
            Refusal::NoCard => 3,
            Refusal::ReleaseOpen => 4,
            Refusal::NumberUsed(_) => 5,
            Refusal::NumberAhead => 6,
            Refusal::FaultyList(_) => 7,
            Refusal::WordInUse(_) => 8,
            Refusal::NoPage => 9,
            Refusal::PageInMotion(_) => 10,
            Refusal::RecoveryAwaited => 11,
            Refusal::NoneAwaited => 12,
            Refusal::TwoLive => 13,
            Refusal::CardLive => 14,
            Refusal::JoinWhileOpen => 15,
            Refusal::NoneOpen => 16,
            Refusal::WrongBuffer => 17,
            Refusal::Unreadable => 18,
            Refusal::ListTooLong => 19,
            Refusal::StampTooHigh => 20,
        }
    }

    // The place that it names, 0 where it names none.
    pub fn place(self) -> u64
        ensures { result ≡ place_of self }
    {
        match self {
            Refusal::NumberUsed(stamp) => stamp,
            Refusal::FaultyList(word) => word as u64,
            Refusal::WordInUse(card) => card as u64,
            Refusal::PageInMotion(card) => card as u64,
            _ => 0,
        }
    }
}

// What a call came to in numbers, as it crosses to C and is printed.
#[derive(Clone, Copy)]
pub struct Outcome {
    // 0 if the call was accepted, else the refusal.
    pub number: u32,
    // What an accepted call gives (a length, a count, a stamp; 0: nothing), else the refusal's
    // place.
    pub value: u64,
}

// An accepted call that gives this value.
pub fn given(value: u64) -> Outcome
    ensures { result ≡ given value }
{
    Outcome { number: 0, value }
}

// A refusal at a place, 0 where it names none.
pub fn refused_at(number: u32, place: u64) -> Outcome
    ensures { result ≡ refused_at number place }
{
    Outcome {
        number,
        value: place,
    }
}

// The outcome that an answer tells.
pub fn outcome_of(answer: Result<u64, Refusal>) -> Outcome
    ensures { result ≡ outcome_of answer }
{
    match answer {
        Ok(value) => given(value),
        Err(refusal) => refused_at(refusal.number(), refusal.place()),
    }
}

// Two answers that come to the same number and value are the same. It does nothing when it is called:
// it is where the gate shows the law.
pub fn answers_apart()
    ensures { AnswersApart }
{}
