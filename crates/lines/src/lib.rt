// The lines of the program shelfrun (document 01, "Numbers to hold it against"): a line read byte
// by byte into a command, and the line that answers it.
#![tactic(auto)]

ghost use Rattle.std.specs.Prelude.{◌≡◌, ◌+◌, ◌≤◌, length, drop, IfSome};
ghost use Rattle.std.proofs.lemmas.List.Edits.{sets};
ghost use Rattle.laws.specs.Examples.{AllHold};
ghost use Rattle.lines.specs.Line.{fresh_line, ended_field, letter_read, digit_read, byte_read};
ghost use Rattle.lines.specs.Line.{has_begun};
ghost use Rattle.lines.specs.Command.{is_label, form_of, command_of, part_from};
ghost use Rattle.lines.specs.Grammar.{ReadsCommands};
ghost use Rattle.lines.specs.Answer.{answer_line};
ghost use Rattle.lines.specs.Examples.{examples};

// What a line asks for.
#[derive(Clone, Copy)]
pub enum Command {
    // B: opens a release of one price on a card.
    Open {
        card: u32,
        number: u32,
        page: u8,
        word: u8,
        price: u32,
    },
    // S: makes steps on a card.
    Step {
        card: u32,
        count: u32,
    },
    // X: a card fails and is recovered.
    Fail(u32),
    // J: a card joins again.
    Join(u32),
    // F: shows one price.
    Fetch {
        page: u8,
        word: u8,
    },
}

// The letter and the numbers of the longest command.
const FIELDS: usize = 6;

// The digits of the longest number.
const DIGITS: u32 = 10;

// The highest page and the highest word that a line may name.
const LAST_PAGE: u32 = 63;

const LAST_WORD: u32 = 31;

// What has been read of a line that can still be a command. A line of any length is read in this
// much memory: it has room for the fields of any command, and their count stands beside them.
#[derive(Clone, Copy)]
pub struct Line {
    // The fields that have ended: the letter, then numbers.
    pub fields: [u32; FIELDS],
    pub count: usize,
    // The field that is being read: its bytes so far, and the letter or the number that they make.
    pub bytes: u32,
    pub value: u32,
}

impl Line {
    // Nothing read yet.
    pub fn fresh() -> Self
        ensures { result ≡ fresh_line }
    {
        Line {
            fields: [0; FIELDS],
            count: 0,
            bytes: 0,
            value: 0,
        }
    }

    // The field that is being read ends, at a space or with the line.
    #[tactic(auto, unfolding(crate::specs::Line::ended_field))]
    fn end_field(mut self) -> Option<Self>
        ensures line { result ≡ ended_field self }
        ensures room { IfSome result (λ line. line.count ≤ 6) }
    {
        let at = self.count;
        if self.bytes == 0 || FIELDS <= at {
            return None;
        }
        self.fields[at] = self.value;
        self.count = at + 1;
        self.bytes = 0;
        self.value = 0;
        Some(self)
    }

    #[tactic(auto, unfolding(crate::specs::Line::letter_read))]
    fn read_letter(mut self, b: u8) -> Option<Self>
        ensures { result ≡ letter_read self b }
    {
        if self.bytes != 0 {
            return None;
        }
        self.bytes = 1;
        self.value = u32::from(b);
        Some(self)
    }

    #[tactic(auto, unfolding(crate::specs::Line::digit_read))]
    fn read_digit(mut self, b: u8) -> Option<Self>
        ensures { result ≡ digit_read self b }
    {
        let digit = char::from(b).to_digit(10)?;
        if DIGITS <= self.bytes {
            return None;
        }
        self.value = self.value.checked_mul(10)?.checked_add(digit)?;
        self.bytes += 1;
        Some(self)
    }

    // One more byte of the line: none if the line is no command, whatever follows.
    #[tactic(auto, unfolding(crate::specs::Line::byte_read))]
    pub fn read_byte(self, b: u8) -> Option<Self>
        ensures { result ≡ byte_read (Some self) b }
    {
        if b == b' ' {
            self.end_field()
        } else if self.count == 0 {
            self.read_letter(b)
        } else {
            self.read_digit(b)
        }
    }

    // The command, once the line has ended.
    #[tactic(auto, unfolding(crate::specs::Command::command_of))]
    pub fn command(self) -> Option<Command>
        ensures { result ≡ command_of (Some self) }
    {
        let line = self.end_field()?;
        form(&line.fields[..line.count])
    }
}

// Whether a byte of a line has been read.
pub fn has_begun(line: Option<Line>) -> bool
    ensures { result ≡ has_begun line }
{
    match line {
        Some(line) => line.count != 0 || line.bytes != 0,
        None => true,
    }
}

// Whether a line may name this page and this word.
#[tactic(auto, unfolding(crate::specs::Command::is_label))]
fn is_label(page: u32, word: u32) -> bool
    ensures { result ≡ is_label page word }
{
    page <= LAST_PAGE && word <= LAST_WORD
}

// The command that a line's fields make.
#[tactic(auto, using(crate::proofs::Forms::label_small), unfolding(crate::specs::Command::form_of, crate::specs::Command::open_form, crate::specs::Command::step_form, crate::specs::Command::fail_form, crate::specs::Command::join_form, crate::specs::Command::fetch_form))]
fn form(fields: &[u32]) -> Option<Command>
    ensures { result ≡ form_of fields.now }
{
    let (letter, numbers) = fields.split_first()?;
    match (u8::try_from(*letter).ok()?, numbers) {
        (b'B', &[card, number, page, word, price]) if is_label(page, word) => Some(Command::Open {
            card,
            number,
            page: page as u8,
            word: word as u8,
            price,
        }),
        (b'S', &[card, count]) => Some(Command::Step { card, count }),
        (b'X', &[card]) => Some(Command::Fail(card)),
        (b'J', &[card]) => Some(Command::Join(card)),
        (b'F', &[page, word]) if is_label(page, word) => Some(Command::Fetch {
            page: page as u8,
            word: word as u8,
        }),
        _ => None,
    }
}

// Whatever a line holds, the command that is read byte by byte is the one that document 01's
// grammar has for it. It does nothing when it is called.
pub fn reads_commands()
    ensures { ReadsCommands }
{}

// A part of the input that holds no line feed.
#[derive(Clone, Copy)]
pub struct Part {
    // The line as far as it has been read.
    pub line: Option<Line>,
    // Where the part ends: at a line feed, or at the end of the input.
    pub at: usize,
}

// Reads on, from a place of the input up to the next line feed.
#[tactic(auto, unfolding(crate::specs::Command::part_from))]
pub fn read_part(line: Option<Line>, input: &[u8], from: usize) -> Part
    ensures { result ≡ part_from line from (drop from input.now) }
{
    let rest = input.get(from..).unwrap_or(&[]);
    let mut line = line;
    for (read, b) in rest.iter().enumerate() {
        if *b == b'\n' {
            let at = from + read;
            return Part { line, at };
        }
        if let Some(open) = line {
            line = open.read_byte(*b);
        }
    }
    let at = from + rest.len();
    Part { line, at }
}

// ---- the line that answers

// Puts an answer at the end of the output, which has room for it, and says where that ends now.
pub fn append_answer(
    output: &mut [u8],
    written: usize,
    number: u64,
    letter: u8,
    refusal: u32,
    value: u64,
) -> usize
    requires { written + 80 ≤ length output.old }
    ensures room { result ≤ length output.old }
    ensures end { result ≡ written + length (answer_line number letter refusal value) }
    ensures answer { output.new
        ≡ sets output.old written (answer_line number letter refusal value) }
{
    let numbered = decimal::append_decimal(output, written, number);
    let lettered = decimal::append_bytes(output, numbered, &[b' ', letter, b' ']);
    let refused = decimal::append_decimal(output, lettered, u64::from(refusal));
    let spaced = decimal::append_bytes(output, refused, b" ");
    let valued = decimal::append_decimal(output, spaced, value);
    decimal::append_bytes(output, valued, b"\n")
}

// Worked examples of shelfrun's lines, computed from the definitions. It does nothing when it is
// called.
pub fn examples_hold()
    ensures { AllHold examples }
{}
