//! The edits of a journal, made once more.
ghost use Rattle.std.specs.Prelude.{◌≡◌, OnOk, OnErr};
ghost use Rattle.mp_text.specs.ScriptLines.{line_at};
ghost use Rattle.mp_version.specs.Stories.{one_more};
ghost use Rattle.mp_seats.specs.journal.Scripts.{GoesOn, IsMadeLine};

use crate::journal::replay_fault::ReplayFault;
use mp_netlist::{Edit, EditError};
use mp_text::{Line, LineError, first_line, read_line};
use mp_version::EditSession;
use std::alloc::Global;
use std::sync::Wait;
use std::thread::Threads;

/// Makes the edits of a journal in a session, in order. `text` is all of the journal: a line for each edit, with its line feed.
///
/// `Unended` comes first, if the text has a last line without a line feed: its edit may not be whole. Then the first line decides that isn't read,
/// asks a question, or has an edit that is refused after those before it. `OutOfMemory` comes if memory runs out.
pub fn make_again<R: Threads + Wait + Sync, S: EditSession>(
    rt: &R,
    alloc: Global,
    session: &mut S,
    text: &[u8],
) -> Result<(), ReplayFault>
    ensures { OnOk result (GoesOn (S.story session.old) (S.story session.new) text.now) }
{
    if !ends_whole(text) {
        return Err(ReplayFault::Unended);
    }
    let mut rest = text;
    let mut number = 0u64;
    while !rest.is_empty() {
        let (line, others) = first_line(rest);
        number = number.saturating_add(1);
        make_line(rt, alloc, session, line, number)?;
        rest = others;
    }
    Ok(())
}

/// Whether the text has no line without a line feed.
fn ends_whole(text: &[u8]) -> bool {
    match text.last() {
        Some(byte) => *byte == b'\n',
        None => true,
    }
}

/// Makes the edit of a line, if it has words.
fn make_line<R: Threads + Wait + Sync, S: EditSession>(
    rt: &R,
    alloc: Global,
    session: &mut S,
    line: &[u8],
    number: u64,
) -> Result<(), ReplayFault>
    ensures { OnOk result (IsMadeLine (S.story session.old) (S.story session.new) (line_at line.now)) }
{
    match read_line(alloc, line) {
        Ok(Line::Empty) => Ok(()),
        Ok(Line::Change(edit)) => make_edit(rt, session, edit, number),
        // dropped by a call: at the end of the match, the drop of each part would stand here
        Ok(Line::Ask(question)) => {
            drop(question);
            Err(ReplayFault::Question(number))
        }
        Err(LineError::OutOfMemory) => Err(ReplayFault::OutOfMemory),
        Err(error) => Err(ReplayFault::Unread(number, error)),
    }
}

/// Makes an edit.
fn make_edit<R: Threads + Wait + Sync, S: EditSession>(
    rt: &R,
    session: &mut S,
    edit: Edit,
    number: u64,
) -> Result<(), ReplayFault>
    ensures made { OnOk result (S.story session.new ≡ one_more (S.story session.old) edit) }
    ensures refused { OnErr result (S.story session.new ≡ S.story session.old) }
{
    match session.prepare(rt, edit) {
        Ok(prepared) => {
            session.commit(prepared);
            Ok(())
        }
        Err(EditError::OutOfMemory) => Err(ReplayFault::OutOfMemory),
        Err(error) => Err(ReplayFault::Refused(number, error)),
    }
}
