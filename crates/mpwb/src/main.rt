//! The workbench for micropipelines.
#![tactic(auto)]

mod asked_view;
mod desk_files;
mod explained;
mod input_file;
mod journal_file;
mod live_desk;
mod live_play;
mod open_sessions;
mod progress_file;
mod running;
mod showing;
mod telling;

use crate::explained::explain;
use crate::input_file::{FileFault, open_file};
use crate::live_desk::{AskedDesk, run_live_desk};
use crate::live_play::run_live_play;
use crate::progress_file::open_progress;
use crate::running::run_on;
use crate::showing::show_fault;
use crate::telling::{fault_of_telling, tell_fault, tell_unread};
use mp_commands::{Options, Progress, RunFault, exit_status};
use mp_request::{Command, CommandLine, Request, read_words, tell};
use mp_streams::{ReadSource, Source};
use std::env;
use std::hash::RandomState;
use std::io::{ErrorKind, IsTerminal};
use std::process::ExitCode;
use std::rt::Runtime;
use std::sync::Wait;
use std::thread::Threads;

fn main(rt: HostRuntime) -> ExitCode {
    // somebody types the lines and reads the answers
    let is_typed = rt.stdin().is_terminal() && rt.stdout().is_terminal();
    match answer(&rt, &rt, is_typed) {
        Ok(status) => ExitCode::from(status),
        Err(fault) => {
            tell_fault(&rt, &fault, &[]);
            ExitCode::from(exit_status(&fault))
        }
    }
}

/// Does what the command line asks for, and returns the status with which the program ends. Files and random numbers are those of the host.
fn answer<R: Runtime + Threads + Wait + Sync + AllocGlobal>(
    files: &HostRuntime,
    rt: &R,
    is_typed: bool,
) -> Result<u8, RunFault> {
    let arguments = match env::args(rt) {
        Ok(arguments) => arguments,
        Err(error) if error.kind() == ErrorKind::OutOfMemory => return Err(RunFault::OutOfMemory),
        Err(_) => {
            let _ = rt.eprintln("error: a word of the command line is not UTF-8");
            return Ok(2);
        }
    };
    let words: Vec<String> = arguments.collect(rt.alloc())?;
    answer_words(files, rt, words.as_slice(), is_typed)
}

/// Does what these words ask for, of which the first is the program's name.
fn answer_words<R: Runtime + Threads + Wait + Sync + AllocGlobal>(
    files: &HostRuntime,
    rt: &R,
    words: &[String],
    is_typed: bool,
) -> Result<u8, RunFault> {
    match read_words(rt.alloc(), words) {
        Ok(CommandLine::Explain(word)) => explain(rt, word),
        Ok(CommandLine::Run(request)) => Ok(run_told(files, rt, &request, is_typed)),
        Err(error) => tell(rt, &error).map_err(fault_of_telling),
    }
}

/// Opens the input and runs the command, reports the fault if there is one, and returns the exit status.
fn run_told<R: Runtime + Threads + Wait + Sync + AllocGlobal>(
    files: &HostRuntime,
    rt: &R,
    request: &Request<'_>,
    is_typed: bool,
) -> u8 {
    let Ok(keys) = RandomState::new(files) else {
        tell_fault(rt, &RunFault::ReadFailed, &[]);
        return exit_status(&RunFault::ReadFailed);
    };
    let progress = open_progress(files);
    let options = options_of(request, keys, progress.as_ref());
    let Some(path) = request.file else {
        return ended(rt, request, keys, run_input(rt, request, &options));
    };
    match open_file(rt, path) {
        Ok(file) => {
            let mut source = ReadSource::new(file);
            let run = run_file(files, rt, &mut source, request, &options, is_typed);
            ended(rt, request, keys, run)
        }
        Err(FileFault::Known(cause)) => {
            tell_unread(rt, path, cause);
            exit_status(&RunFault::ReadFailed)
        }
        Err(FileFault::Run(fault)) => ended(rt, request, keys, Err(fault)),
    }
}

/// The exit status after a run. If the run has a fault, it is reported.
fn ended<R: Runtime + AllocGlobal>(
    rt: &R,
    request: &Request<'_>,
    keys: RandomState,
    run: Result<u8, RunFault>,
) -> u8 {
    match run {
        Ok(status) => status,
        Err(fault) => {
            tell_fault(rt, &fault, request.names());
            show_if_checked(rt, &fault, request, keys);
            exit_status(&fault)
        }
    }
}

/// Shows the line of FILE at which its text isn't read, if it was to be checked.
fn show_if_checked<R: Runtime + AllocGlobal>(
    rt: &R,
    fault: &RunFault,
    request: &Request<'_>,
    keys: RandomState,
) {
    if !matches!(request.command, Command::Check { .. }) {
        return;
    }
    if let RunFault::Text(error) = fault {
        if let Some(path) = request.file {
            show_fault(rt, keys, path, *error);
        }
    }
}

/// Runs the command on standard input, and returns the status with which the program ends.
fn run_input<R: Runtime + Threads + Wait + Sync + AllocGlobal>(
    rt: &R,
    request: &Request<'_>,
    options: &Options,
) -> Result<u8, RunFault> {
    let mut input = ReadSource::new(rt.reader());
    run_on(rt, &mut input, request, options)
}

/// Runs the command on a file, and returns the status with which the program ends.
fn run_file<R: Runtime + Threads + Wait + Sync + AllocGlobal, S: Source>(
    files: &HostRuntime,
    rt: &R,
    file: &mut S,
    request: &Request<'_>,
    options: &Options,
    is_typed: bool,
) -> Result<u8, RunFault> {
    match request.command {
        Command::Play => {
            run_live_play(rt, file, options, is_typed)?;
            Ok(0)
        }
        Command::LiveDesk {
            folder,
            designers,
            is_synced,
        } => {
            let asked = AskedDesk {
                folder,
                designers,
                is_synced,
            };
            run_live_desk(files, rt, file, options, asked)
        }
        _ => run_on(rt, file, request, options),
    }
}

/// The numbers of the request, the keys by which names are hashed, and where the run writes how far it is.
fn options_of<'a>(
    request: &Request<'_>,
    keys: RandomState,
    progress: Option<&'a Progress>,
) -> Options<'a> {
    Options {
        keys,
        workers: request.workers,
        least: request.least,
        viewers: request.viewers,
        progress,
    }
}
