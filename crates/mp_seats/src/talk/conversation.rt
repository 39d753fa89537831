//! Lines that are answered as they come.
ghost use Rattle.std.specs.Prelude.{◌≡◌, []};
ghost use Rattle.mp_seats.specs.talk.Conversations.{Conversed};
ghost use Rattle.mp_seats.specs.talk.TalkFaults.{counted_reads};

use crate::talk::answerer::Answerer;
use crate::talk::answering::answer;
use crate::talk::talk_fault::TalkFault;
use mp_streams::{Failed, Out, Sink, Source};
use mp_text::LineReader;
use std::sync::Wait;
use std::thread::Threads;

/// Has each line answered, and passes the answer on to the sink, before it reads the next one. It ends when the source ends.
///
/// `ReadFailed` comes if the source fails, after the answers to all lines that ended before. `WriteFailed` comes with a fault of the
/// sink, and `OutOfMemory` if memory runs out for an answer: then a part of the last answer may be written.
pub fn converse<R: Threads + Wait + Sync, A: Answerer, S: Source, T: Sink>(
    rt: &R,
    who: &mut A,
    lines: &mut LineReader<S>,
    out: &mut Out<T>,
) -> Result<(), TalkFault>
    requires { out.old.held ≡ [] }
    ensures conversed { Conversed A.Answers result who.old who.new lines.old lines.new out.old out.new }
    ensures flushed { out.new.held ≡ [] }
    ensures read_faults { lines.new.faults ≡ counted_reads result lines.old.faults }
{
    for _ in rt.forever() {
        match lines.read(rt) {
            Ok(true) => answer(rt, who, lines, out)?,
            Ok(false) => return Ok(()),
            Err(Failed) => return Err(TalkFault::ReadFailed),
        }
    }
    unreachable!()
}
