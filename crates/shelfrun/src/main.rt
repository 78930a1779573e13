// shelfrun (document 01, "Numbers to hold it against"): formats a rack of 3 cards and 4 pages, and
// answers the commands that it reads from standard input, line by line.
#![tactic(auto)]

ghost use Rattle.std.specs.Prelude.{◌≡◌, ℕ, take, replicate, IfSome, IfOk, OnOk, OnErr};
ghost use Rattle.std.specs.Io.KnownBytes.{Appends};
ghost use Rattle.interpreter.specs.declared.Session.{Session};
ghost use Rattle.interpreter.specs.Transcript.{state_of, state_after, transcript};
ghost use Rattle.shelfrun.specs.Answers.{Answers};

use interpreter::Session;
use std::io;
use std::io::{Read, Write};

// Answers a part of the input, writes the answers, an output at a time, and says where the reading
// stands after it. Where a write fails, the memory is as some first bytes of the part leave it; what
// was written then is not said, since the writer does not say it either.
fn answer_part<W: Write>(
    to: &mut W,
    memory: &mut [u32],
    session: Session,
    input: &[u8],
) -> io::Result<Session>
    ensures answered { IfOk result (λ last.
        Answers (state_of session memory.old) input.now (state_of last memory.new)
        (W.contents to.old) (W.contents to.new)) }
    ensures failed { OnErr result ((n : ℕ) × ((last : Session) × (state_of last memory.new
        ≡ state_after (state_of session memory.old) (take n input.now)))) }
{
    let mut output = [0u8; 65536];
    let mut session = session;
    let mut rest = input;
    'outputs: while !rest.is_empty() {
        let done = interpreter::respond(memory, session, rest, &mut output);
        session = done.session;
        rest = &rest[done.read..];
        to.write_all(&output[..done.written])?;
    }
    Ok(session)
}

// Answers the input up to its end. A proved loop has to end, and nothing says that an input does:
// so its turns are counted, up to a number that no run reaches.
fn answer_input<R: Read, W: Write>(
    from: &mut R,
    to: &mut W,
    memory: &mut [u32],
    session: Session,
) -> io::Result<Session>
    ensures { IfOk result (λ last. IfSome (R.remaining from.old) (λ input.
        Answers (state_of session memory.old) input (state_of last memory.new)
        (W.contents to.old) (W.contents to.new))) }
{
    let mut input = [0u8; 65536];
    let mut session = session;
    'parts: for _ in 0..u64::MAX {
        let n = from.read(&mut input)?;
        if n == 0 {
            return Ok(session);
        }
        session = answer_part(to, memory, session, &input[..n])?;
    }
    Err(io::Error::from(io::ErrorKind::TimedOut))
}

// Formats the rack, and answers an input from its first line to its last: where nothing fails, what
// is written is document 01's transcript.
fn run<R: Read, W: Write>(from: &mut R, to: &mut W) -> io::Result<()>
    ensures { OnOk result (IfSome (R.remaining from.old) (λ input.
        Appends (W.contents to.old) (W.contents to.new) (transcript (replicate 2850 0) input))) }
{
    let mut memory = [0u32; 2850];
    let session = interpreter::start(&mut memory);
    to.write_all(&interpreter::first_line())?;
    let last = answer_input(from, to, &mut memory, session)?;
    let mut answer = [0u8; 80];
    let written = interpreter::finish(&mut memory, last, &mut answer);
    to.write_all(&answer[..written])
}

fn main(rt: HostRuntime) -> io::Result<()> {
    let mut from = rt.reader();
    let mut to = io::writer(&rt);
    run(&mut from, &mut to)
}
