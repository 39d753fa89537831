//! Who answers the lines of a script.
use crate::answers::put_too_long;
use crate::replies::put_reply;
use crate::script_session::ScriptSession;
use crate::sessions::Sessions;
use mp_seats::{Answerer, TalkFault, converse};
use mp_streams::{Out, Sink, Source, WriteError};
use mp_text::LineReader;
use std::alloc::Global;
use std::marker::Model;
use std::sync::Wait;
use std::thread::Threads;

/// Answers the lines of a script, and keeps the netlist that it edits: an edit, a question or a line that isn't read as `play` answers it, and a line
/// of more than 65,536 bytes by `unread 8 TooLong`.
#[derive(Drop)]
pub struct Player<P: Sessions> {
    alloc: Global,
    session: ScriptSession<P>,
}

impl<P: Sessions> Model for Player<P> {
    ghost use Rattle.mp_commands.specs.Names.{Kept};

    ghost Value = { Kept };

    ghost view = { λ player. player.session };
}

impl<P: Sessions> Player<P> {
    ghost use Rattle.std.specs.Prelude.{◌≡◌, []};
    ghost use Rattle.mp_seats.specs.talk.Conversations.{Conversed};
    ghost use Rattle.mp_seats.specs.talk.TalkFaults.{counted_reads};
    ghost use Rattle.mp_commands.specs.LineAnswers.{IsAnswer};

    /// Who edits what is kept.
    pub fn new(alloc: Global, session: ScriptSession<P>) -> Self
        ensures { result ≡ session }
    {
        Player { alloc, session }
    }

    /// Answers each line, and passes the answer on to the sink, before it reads the next one. It ends when the source ends.
    ///
    /// `ReadFailed` comes if the source fails, after the answers to all lines that ended before. `WriteFailed` comes with a fault of the
    /// sink, and `OutOfMemory` if memory runs out: then a part of the last answer may be written.
    pub fn play<R: Threads + Wait + Sync, S: Source, T: Sink>(
        &mut self,
        rt: &R,
        lines: &mut LineReader<S>,
        out: &mut Out<T>,
    ) -> Result<(), TalkFault>
        requires { out.old.held ≡ [] }
        ensures conversed { Conversed IsAnswer result self.old self.new lines.old lines.new out.old out.new }
        ensures flushed { out.new.held ≡ [] }
        ensures read_faults { lines.new.faults ≡ counted_reads result lines.old.faults }
    {
        converse(rt, self, lines, out)
    }
}

impl<P: Sessions> Answerer for Player<P> {
    ghost use Rattle.mp_commands.specs.LineAnswers.{IsAnswer};

    ghost Answers = { IsAnswer };

    fn put_answer<R: Threads + Wait + Sync, T: Sink>(
        &mut self,
        rt: &R,
        line: Option<&[u8]>,
        out: &mut Out<T>,
    ) -> Result<(), WriteError> {
        match line {
            Some(line) => put_reply(rt, self.alloc, out, &mut self.session, line),
            None => Ok(put_too_long(out)?),
        }
    }
}
