//! The answer to one line.
ghost use Rattle.std.specs.Prelude.{◌≡◌, []};
ghost use Rattle.std.specs.Option.{option_copied};
ghost use Rattle.mp_seats.specs.talk.Answers.{PutsAnswer};

use crate::talk::answerer::Answerer;
use mp_streams::{Out, Sink, Source, WriteError};
use mp_text::{LineReader, TooLong};
use std::sync::Wait;
use std::thread::Threads;

/// Writes the answer to the line that was read last, and passes it on to the sink.
pub(crate) fn answer<R: Threads + Wait + Sync, A: Answerer, S: Source, T: Sink>(
    rt: &R,
    who: &mut A,
    lines: &LineReader<S>,
    out: &mut Out<T>,
) -> Result<(), WriteError>
    ensures written { PutsAnswer A.Answers result who.old who.new lines.now.line out.old out.new }
    ensures flushed { out.new.held ≡ [] }
{
    let put = who.put_answer(rt, line_of(lines), out);
    out.flush()?;
    put
}

/// The line that was read last, if it isn't too long.
fn line_of<S: Source>(lines: &LineReader<S>) -> Option<&[u8]>
    ensures { option_copied result ≡ lines.now.line }
{
    match lines.line() {
        Ok(line) => Some(line),
        Err(TooLong) => None,
    }
}
