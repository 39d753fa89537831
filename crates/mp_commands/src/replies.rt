//! The replies to the lines of a script.
ghost use Rattle.std.specs.Prelude.{◌≡◌, Ok};
ghost use Rattle.mp_commands.specs.Names.{line_at};
ghost use Rattle.mp_commands.specs.Replies.{PutsReply, PutsEdit};

use crate::answers::{put_accepted, put_answer, put_refused, put_unread};
use crate::script_session::ScriptSession;
use crate::sessions::Sessions;
use mp_netlist::Edit;
use mp_streams::{Failed, Out, Sink, WriteError};
use mp_text::{Line, LineError, read_line};
use std::alloc::Global;
use std::sync::Wait;
use std::thread::Threads;

/// Writes the reply to a line of a script, after its edit, if it is one. A line without words has none.
pub fn put_reply<R: Threads + Wait + Sync, T: Sink, P: Sessions>(
    rt: &R,
    alloc: Global,
    out: &mut Out<T>,
    session: &mut ScriptSession<P>,
    line: &[u8],
) -> Result<(), WriteError>
    ensures { PutsReply result out.old out.new session.old session.new (line_at line.now) }
{
    match read_line(alloc, line) {
        Ok(read) => put_line_reply(rt, alloc, out, session, read),
        Err(LineError::OutOfMemory) => Err(WriteError::OutOfMemory),
        Err(error) => Ok(put_unread(out, error)?),
    }
}

/// Writes the reply to a line that was read.
fn put_line_reply<R: Threads + Wait + Sync, T: Sink, P: Sessions>(
    rt: &R,
    alloc: Global,
    out: &mut Out<T>,
    session: &mut ScriptSession<P>,
    line: Line,
) -> Result<(), WriteError>
    ensures { PutsReply result out.old out.new session.old session.new (Ok line) }
{
    match line {
        Line::Empty => Ok(()),
        Line::Change(edit) => Ok(put_change(rt, out, session, edit)?),
        Line::Ask(question) => put_answer(rt, alloc, out, &session.snapshot(), &question),
    }
}

/// Makes the edit, and writes whether it is accepted.
fn put_change<R: Threads + Wait + Sync, T: Sink, P: Sessions>(
    rt: &R,
    out: &mut Out<T>,
    session: &mut ScriptSession<P>,
    edit: Edit,
) -> Result<(), Failed>
    ensures { PutsEdit result out.old out.new session.old session.new edit }
{
    match session.change(rt, edit) {
        Ok(accepted) => put_accepted(out, accepted),
        Err(error) => put_refused(out, error),
    }
}
