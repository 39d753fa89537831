//! The command `play`.
ghost use Rattle.std.specs.Prelude.{◌≡◌, false};
ghost use Rattle.mp_commands.specs.Names.{lines_of, first_part, later_parts, has_valid_crew, opening_of};
ghost use Rattle.mp_commands.specs.ScriptSessions.{opened as opened_kept};
ghost use Rattle.mp_commands.specs.Plays.{AreReplies, PutsReplies};

use crate::command_runs::{InputCommand, Options, RunFault, opened};
use crate::replies::put_reply;
use crate::script_session::ScriptSession;
use crate::sessions::Sessions;
use mp_streams::{Out, Sink, WriteError};
use mp_text::{divided, first_line};
use std::alloc::Global;
use std::sync::Wait;
use std::thread::Threads;

/// The input is a netlist's text and, behind a line `---`, a script. Each line of the script is answered in turn: an edit by `accepted N`
/// or `refused CODE NAME`, a question by its answer, and a line that is not read by `unread CODE NAME`.
#[derive(Drop)]
pub struct Play<P: Sessions + Drop> {
    pub sessions: P,
}

impl<P: Sessions + Drop> InputCommand for Play<P> {
    ghost opening = { λ _ input options. opening_of (first_part (lines_of input)) (has_valid_crew options) };

    ghost IsText = { λ _ input _ n text. AreReplies (opened_kept n) (later_parts (lines_of input)) text };

    ghost seats = { false };

    fn answer<R: Threads + Wait + Sync, T: Sink>(
        &self,
        rt: &R,
        alloc: Global,
        out: &mut Out<T>,
        input: Vec<u8>,
        options: &Options,
    ) -> Result<(), RunFault> {
        let text = input.as_slice();
        let (front, script) = divided(alloc, text)?;
        let (netlist, crew) = opened(alloc, options.keys, front, options.crew())?;
        let mut session = ScriptSession::of_netlist(&self.sessions, rt, alloc, netlist, crew)?;
        Ok(put_replies(rt, alloc, out, &mut session, script)?)
    }
}

/// Writes the replies to the lines of a script in turn.
fn put_replies<R: Threads + Wait + Sync, T: Sink, P: Sessions>(
    rt: &R,
    alloc: Global,
    out: &mut Out<T>,
    session: &mut ScriptSession<P>,
    script: &[u8],
) -> Result<(), WriteError>
    ensures { PutsReplies result out.old out.new session.old (lines_of script.now) }
{
    let mut rest = script;
    while !rest.is_empty() {
        let (line, others) = first_line(rest);
        put_reply(rt, alloc, out, session, line)?;
        rest = others;
    }
    Ok(())
}
