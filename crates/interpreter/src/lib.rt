// The interpreter of shelfrun (document 01, "Numbers to hold it against"): the lines of an input
// answered, one part of the input after the other.
#![tactic(auto)]

ghost use Rattle.std.specs.Prelude.{◌≡◌, ◌+◌, ◌-◌, ◌≤◌, ◌<◌, length, take, drop};
ghost use Rattle.std.proofs.lemmas.List.Edits.{sets};
ghost use Rattle.protocol.specs.Formatting.{formatting};
ghost use Rattle.interpreter.specs.Transcript.{executed, answered, next_line};
ghost use Rattle.interpreter.specs.Transcript.{state_of, state_after, printed, last_answer};
ghost use Rattle.interpreter.specs.Transcript.{last_memory, first_session, first_line};
ghost use Rattle.interpreter.specs.Transcript.{PrintsInParts, PrintsTranscript};

use directory::Directory;
use lines::Line;

// Where the reading of an input stands.
#[derive(Clone, Copy)]
pub struct Session {
    pub directory: Directory,
    // Of the line that is being read, from 1 on.
    pub number: u64,
    // None if it can be no command.
    pub line: Option<Line>,
}

// ---- the input

// What the end of a line gives.
#[derive(Clone, Copy)]
pub struct Ended {
    // Before the next line.
    pub session: Session,
    // Where the output ends.
    pub written: usize,
}

// The line has ended: its command is executed, and its answer put at the end of the output.
fn end_line(memory: &mut [u32], session: Session, output: &mut [u8], written: usize) -> Ended
    requires { written + 80 ≤ length output.old }
    ensures answer { output.new
        ≡ sets output.old written (answered session memory.old) }
    ensures end { result.written
        ≡ written + length (answered session memory.old) }
    ensures room { result.written ≤ length output.old }
    ensures session { result.session ≡ next_line session memory.old }
    ensures memory { memory.new ≡ (executed session memory.old).memory }
{
    let command = session.line.and_then(|line| line.command());
    let shown = commands::execute(memory, session.directory, command);
    let outcome = shown.outcome;
    let written = lines::append_answer(
        output,
        written,
        session.number,
        commands::letter_of(command),
        outcome.number,
        outcome.value,
    );
    let session = Session {
        directory: shown.directory,
        number: session.number.wrapping_add(1),
        line: Some(Line::fresh()),
    };
    Ended { session, written }
}

// What answering a part of the input gives.
#[derive(Clone, Copy)]
pub struct Progress {
    pub session: Session,
    // How many bytes of the input were read, and how many of the output written.
    pub read: usize,
    pub written: usize,
}

// Reads on up to a line feed and past it, and answers the line; or to the end of the input.
fn process_line(
    memory: &mut [u32],
    session: Session,
    input: &[u8],
    from: usize,
    output: &mut [u8],
    written: usize,
) -> Progress
    requires { (from < length input.now) × (written + 80 ≤ length output.old) }
    ensures places { (from < result.read) × (result.read ≤ length input.now)
        × (result.written ≤ length output.old) }
    ensures state { state_of result.session memory.new
        ≡ state_after (state_of session memory.old)
        (take (result.read - from) (drop from input.now)) }
    ensures end { result.written
        ≡ written + length (printed (state_of session memory.old)
        (take (result.read - from) (drop from input.now))) }
    ensures output { output.new
        ≡ sets output.old written (printed (state_of session memory.old)
        (take (result.read - from) (drop from input.now))) }
{
    let part = lines::read_part(session.line, input, from);
    let read = Session {
        line: part.line,
        ..session
    };
    let at = part.at;
    if at < input.len() {
        let ended = end_line(memory, read, output, written);
        return Progress {
            session: ended.session,
            read: at + 1,
            written: ended.written,
        };
    }
    Progress {
        session: read,
        read: at,
        written,
    }
}

// Answers the lines of a part of the input. What is left unread is what the output has no room for.
pub fn respond(memory: &mut [u32], session: Session, input: &[u8], output: &mut [u8]) -> Progress
    ensures places { (result.read ≤ length input.now)
        × (result.written ≤ length output.old) }
    ensures full { result.read < length input.now
        → length output.old < result.written + 80 }
    ensures state { state_of result.session memory.new
        ≡ state_after (state_of session memory.old)
        (take result.read input.now) }
    ensures end { result.written ≡ length (printed (state_of session memory.old)
        (take result.read input.now)) }
    ensures output { output.new
        ≡ sets output.old 0 (printed (state_of session memory.old)
        (take result.read input.now)) }
{
    let mut session = session;
    let mut read: usize = 0;
    let mut written: usize = 0;
    while read < input.len() {
        if output.len() - written < 80 {
            break;
        }
        let done = process_line(memory, session, input, read, output, written);
        session = done.session;
        read = done.read;
        written = done.written;
    }
    Progress {
        session,
        read,
        written,
    }
}

// The input has ended: answers a line that no line feed ended, and says how long the answer is.
pub fn finish(memory: &mut [u32], session: Session, output: &mut [u8; 80]) -> usize
    ensures room { result ≤ length output.new }
    ensures end { result ≡ length (last_answer session memory.old) }
    ensures answer { output.new
        ≡ sets output.old 0 (last_answer session memory.old) }
    ensures memory { memory.new ≡ last_memory session memory.old }
{
    if lines::has_begun(session.line) {
        let ended = end_line(memory, session, output, 0);
        return ended.written;
    }
    0
}

// However an input is cut in two, what its first part prints, and what is printed from there on,
// are what is printed for the whole: so the parts of an input, answered one after the other, give
// the answers of the whole. It does nothing when it is called.
pub fn prints_in_parts()
    ensures { PrintsInParts }
{}

// Whatever the input holds, the first line and what is printed from the first byte on are document
// 01's transcript. It does nothing when it is called.
pub fn prints_transcript()
    ensures { PrintsTranscript }
{}

// The line that the program prints first.
pub fn first_line() -> [u8; 9]
    ensures { result ≡ first_line }
{
    *b"rack 3 4\n"
}

// Formats a rack of 3 cards and 4 pages; before the first line.
pub fn start(memory: &mut [u32]) -> Session
    ensures session { result ≡ first_session memory.old }
    ensures memory { memory.new
        ≡ (formatting memory.old 3 4).memory }
{
    Session {
        directory: rack::format_rack(memory, 3, 4).directory,
        number: 1,
        line: Some(Line::fresh()),
    }
}
