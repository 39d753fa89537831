//! A script that edits a netlist, and is answered as it comes.
ghost use Rattle.std.specs.Prelude.{◌≡◌, []};

use crate::open_sessions::OpenSessions;
use mp_commands::{Options, Player, Prompted, RunFault, fault_of_talk, open_keeper};
use mp_streams::{Out, ReadSource, Source, WriteSink};
use mp_text::LineReader;
use std::io;
use std::rt::Runtime;
use std::sync::Wait;
use std::thread::Threads;

/// Edits the netlist of the file by a script that is standard input, and answers each line before it reads the next one, with a prompt before each if
/// somebody types them.
pub(crate) fn run_live_play<R: Runtime + Threads + Wait + Sync + AllocGlobal, S: Source>(
    rt: &R,
    file: &mut S,
    options: &Options,
    is_typed: bool,
) -> Result<(), RunFault> {
    let keeper = open_keeper(&OpenSessions, rt, rt.alloc(), file, options)?;
    let mut player = Player::new(rt.alloc(), keeper);
    let script = ReadSource::new(rt.reader());
    if is_typed {
        let prompt = WriteSink::new(io::writer(rt));
        return talk(rt, &mut player, Prompted::new(script, prompt));
    }
    talk(rt, &mut player, script)
}

/// Answers the lines of a script on standard output.
fn talk<R: Print + Threads + Wait + Sync + AllocGlobal, S: Source + Drop>(
    rt: &R,
    player: &mut Player<OpenSessions>,
    script: S,
) -> Result<(), RunFault> {
    let mut lines = LineReader::new(rt.alloc(), script)?;
    let mut out = Out::new(rt.alloc(), WriteSink::new(io::writer(rt)))?;
    match player.play(rt, &mut lines, &mut out) {
        Ok(()) => Ok(()),
        Err(fault) => Err(fault_of_talk(fault)),
    }
}
