//! How each command is run.
ghost use Rattle.std.specs.Prelude.{◌≡◌, [], IfOk, IfSome, map};
ghost use Rattle.mp_commands.specs.command_runs.Clauses.{TakesInput, counted_reads};
ghost use Rattle.mpwb.specs.CommandRuns.{RunsCommand, RunsEdits};
ghost use Rattle.mpwb.specs.CommandTexts.{names_in, text_of};

use crate::asked_view::{selection_of, view_of};
use crate::open_sessions::OpenSessions;
use mp_commands::{
    CheckAsked, DeskCommand, Options, Play, RunFault, run_check, run_command, run_view,
};
use mp_netlist::Name;
use mp_request::{Command, RangeWords, Request};
use mp_streams::{Out, Sink, Source, WriteSink};
use std::alloc::{AllocError, Global};
use std::io;
use std::sync::Wait;
use std::thread::Threads;

/// The status with which the program ends if a netlist was checked and something is wrong.
const WRONG: u8 = 5;

/// Runs the command on the source, and returns the status with which the program ends.
pub(crate) fn run_on<R: Print + Threads + Wait + Sync + AllocGlobal, S: Source>(
    rt: &R,
    source: &mut S,
    request: &Request<'_>,
    options: &Options,
) -> Result<u8, RunFault> {
    let mut out = Out::new(rt.alloc(), WriteSink::new(io::writer(rt)))?;
    match &request.command {
        Command::Check { words, is_brief } => {
            check_on(rt, source, &mut out, options, words, *is_brief)
        }
        _ => write_on(rt, source, &mut out, request, options),
    }
}

/// Checks the netlist of the source as these words ask, and returns the status with which the program ends.
fn check_on<R: Threads + Wait + Sync + AllocGlobal, S: Source, T: Sink>(
    rt: &R,
    source: &mut S,
    out: &mut Out<T>,
    options: &Options,
    words: &RangeWords<'_>,
    is_brief: bool,
) -> Result<u8, RunFault>
    requires { out.old.held ≡ [] }
{
    let names = names_of(rt.alloc(), words.names.as_slice())?;
    let selection = selection_of(names.as_slice(), words);
    let asked = CheckAsked {
        selection,
        is_brief,
    };
    let is_wrong = run_check(rt, rt.alloc(), source, out, options, asked)?;
    Ok(if is_wrong { WRONG } else { 0 })
}

/// Runs a command other than `check` on the source, and returns the status with which the program ends.
fn write_on<R: Threads + Wait + Sync + AllocGlobal, S: Source, T: Sink>(
    rt: &R,
    source: &mut S,
    out: &mut Out<T>,
    request: &Request<'_>,
    options: &Options,
) -> Result<u8, RunFault>
    requires { out.old.held ≡ [] }
{
    let names = names_of(rt.alloc(), request.names())?;
    run_named(rt, source, out, &request.command, names.as_slice(), options)?;
    Ok(0)
}

/// Runs the command on the source, if what the command speaks of has these names. A command that writes a view writes the text of that view, `play`
/// the replies to a script, and `desk` what becomes of its blocks.
fn run_named<R: Threads + Wait + Sync + AllocGlobal, S: Source, T: Sink>(
    rt: &R,
    source: &mut S,
    out: &mut Out<T>,
    command: &Command<'_>,
    names: &[Name],
    options: &Options,
) -> Result<(), RunFault>
    requires empty { out.old.held ≡ [] }
    requires names { names.now ≡ names_in command.now }
    ensures written { IfSome (text_of command.now) (λ text. RunsCommand command.now text options.now result (S.left source.old) out.old out.new) }
    ensures edited { RunsEdits command.now options.now result (S.left source.old) out.old out.new }
    ensures taken { IfSome (text_of command.now) (λ text. TakesInput (S.left source.old) (S.left source.new)) }
    ensures read_faults { IfSome (text_of command.now) (λ text. S.fault_count source.new ≡ counted_reads result (S.fault_count source.old)) }
{
    let sessions = OpenSessions;
    match command {
        Command::Play => run_command(rt, rt.alloc(), source, out, options, &Play { sessions }),
        Command::Desk => {
            run_command(
                rt,
                rt.alloc(),
                source,
                out,
                options,
                &DeskCommand { sessions },
            )
        }
        // its netlist is in a file, since its standard input has lines; and a check has a status of its own
        Command::LiveDesk { .. } | Command::Check { .. } => Err(RunFault::ReadFailed),
        _ => run_view(
            rt,
            rt.alloc(),
            source,
            out,
            options,
            view_of(command, names),
        ),
    }
}

/// The words as names.
fn names_of(alloc: Global, words: &[&str]) -> Result<Vec<Name>, AllocError>
    ensures { IfOk result (λ names. names.items ≡ map (λ word. word.now) words.now) }
{
    let mut names = Vec::with_capacity(alloc, words.len())?;
    for word in words {
        names.push(Name::new(alloc, word)?)?;
    }
    Ok(names)
}
