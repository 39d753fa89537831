//! A desk that serves designers and viewers at named pipes.
ghost use Rattle.std.specs.Prelude.{◌≡◌, ◌<◌, ◌≤◌, IfSome, []};

use crate::desk_files::{DeskFiles, PathNotice};
use crate::journal_file::JournalFile;
use mp_commands::{LiveOutcome, Options, RunFault, SeatScribe, read_opening, serve_live};
use mp_desk::{EditKeeper, KeptSession};
use mp_netlist::Netlist;
use mp_phase::{Crew, OpenGate};
use mp_seats::{Journal, Pipes, Places, ReplayFault, journaled, make_again};
use mp_session::Session;
use mp_streams::{Out, ReadSource, Sink, Source, TakeError, WriteSink};
use mp_text::LineReader;
use mp_version::EditSession;
use std::fs::File;
use std::io;
use std::rt::Runtime;
use std::sync::Wait;
use std::thread::Threads;

/// The status of a run whose pipes or files can't be opened, read or written.
const CANT_OPEN: u8 = 3;

/// How many seats there may be for designers.
const DESIGNER_SEATS: u32 = 8;

/// How many seats there may be for viewers.
const VIEWER_SEATS: u32 = 24;

/// The session of a live desk, whose accepted edits are appended to a file.
type JournaledSession<'a> = KeptSession<
    Session<OpenGate>,
    Journal<JournalFile<'a>, PathNotice<'a>>,
>;

/// The live desk that is asked for: the folder of its pipes, the number of its designers, and whether an edit is on the disk before it is accepted.
#[derive(Clone, Copy)]
pub(crate) struct AskedDesk<'a> {
    pub folder: &'a str,
    pub designers: u32,
    pub is_synced: bool,
}

/// The netlist with which a live desk opens, who evaluates there, and how many seats there are for viewers.
#[derive(Clone, Copy)]
struct Opening<'a> {
    netlist: &'a Netlist,
    crew: Crew,
    viewers: u32,
}

/// The folder of a live desk, who evaluates there, and whether an edit is on the disk before it is accepted.
#[derive(Clone, Copy)]
struct LiveDesk<'a> {
    files: &'a HostRuntime,
    pipes: &'a Pipes<'a>,
    paths: &'a DeskFiles,
    crew: Crew,
    is_synced: bool,
}

/// Reads the netlist, makes the edits of the folder's journal again, serves those who come to the pipes of the folder, and answers the lines of
/// standard input meanwhile. Then it writes what `desk` writes, and the netlist into the folder, and returns the exit status. If a pipe is missing,
/// it reports the path and runs nothing.
pub(crate) fn run_live_desk<R: Runtime + Threads + Wait + Sync + AllocGlobal, S: Source>(
    files: &HostRuntime,
    rt: &R,
    source: &mut S,
    options: &Options,
    asked: AskedDesk<'_>,
) -> Result<u8, RunFault> {
    let (netlist, crew) = read_opening(
        rt.alloc(),
        options.keys,
        source,
        crew_of(options, asked.designers),
    )?;
    let opening = Opening {
        netlist: &netlist,
        crew,
        viewers: options.viewers,
    };
    let status = open_folder(files, rt, asked, opening);
    drop(netlist);
    status
}

/// Serves a desk at the pipes of a folder.
fn open_folder<R: Runtime + Threads + Wait + Sync + AllocGlobal>(
    files: &HostRuntime,
    rt: &R,
    asked: AskedDesk<'_>,
    opening: Opening<'_>,
) -> Result<u8, RunFault> {
    let places = Places::new(rt.alloc(), asked.designers, opening.viewers)?;
    let pipes = Pipes::new(files, asked.folder, &places)?;
    let paths = DeskFiles::new(rt.alloc(), asked.folder)?;
    let desk = LiveDesk {
        files,
        pipes: &pipes,
        paths: &paths,
        crew: opening.crew,
        is_synced: asked.is_synced,
    };
    serve_pipes(rt, &desk, opening.netlist)
}

/// Serves a desk at its pipes, if none is missing and they can be linked.
fn serve_pipes<R: Runtime + Threads + Wait + Sync + AllocGlobal>(
    rt: &R,
    desk: &LiveDesk<'_>,
    netlist: &Netlist,
) -> Result<u8, RunFault> {
    let missing = desk.pipes.missing();
    let unlinked = if missing.is_some() {
        missing
    } else {
        desk.pipes.link()
    };
    match unlinked {
        Some(path) => Ok(cant_open(rt, path)),
        None => {
            let status = open_desk(rt, desk, netlist);
            desk.pipes.unlink();
            status
        }
    }
}

/// Tells that a file can't be opened, and returns the status of such a run.
fn cant_open<R: Eprint>(rt: &R, path: &str) -> u8 {
    let _ = eprintln!(rt; "mpwb: can't open {path}");
    CANT_OPEN
}

/// Makes the edits of the journal again, and then serves the desk. If that can't be done, it reports why and runs nothing.
fn open_desk<R: Runtime + Threads + Wait + Sync + AllocGlobal>(
    rt: &R,
    desk: &LiveDesk<'_>,
    netlist: &Netlist,
) -> Result<u8, RunFault> {
    match made_again(rt, desk, netlist)? {
        Some(session) => open_journal(rt, desk, session),
        None => Ok(CANT_OPEN),
    }
}

/// The session of a netlist in which the edits of the journal are made again. None, once it is reported why, if they can't be read or made.
fn made_again<R: Runtime + Threads + Wait + Sync + AllocGlobal>(
    rt: &R,
    desk: &LiveDesk<'_>,
    netlist: &Netlist,
) -> Result<Option<Session<OpenGate>>, RunFault> {
    let path = desk.paths.edits.as_str();
    let edits = match desk.paths.read_edits(desk.files, rt.alloc()) {
        Ok(edits) => edits,
        Err(TakeError::OutOfMemory) => return Err(RunFault::OutOfMemory),
        Err(TakeError::Failed) => {
            let _ = cant_open(rt, path);
            return Ok(None);
        }
    };
    let mut session = Session::open(rt, rt.alloc(), netlist, desk.crew, OpenGate)?;
    match make_again(rt, rt.alloc(), &mut session, edits.as_slice()) {
        Ok(()) => Ok(Some(session)),
        Err(fault) => {
            drop(session);
            not_made(rt, path, &fault)
        }
    }
}

/// Reports why edits of a journal can't be made again, unless memory ran out, which is the fault of the run.
fn not_made<R: Eprint>(
    rt: &R,
    path: &str,
    fault: &ReplayFault,
) -> Result<Option<Session<OpenGate>>, RunFault> {
    if let ReplayFault::OutOfMemory = fault {
        return Err(RunFault::OutOfMemory);
    }
    let _ = eprintln!(rt; "mpwb: {path}: {fault}");
    Ok(None)
}

/// Opens the journal, tells how many edits of it are made again, and serves the desk with it.
fn open_journal<R: Runtime + Threads + Wait + Sync + AllocGlobal>(
    rt: &R,
    desk: &LiveDesk<'_>,
    session: Session<OpenGate>,
) -> Result<u8, RunFault> {
    let path = desk.paths.edits.as_str();
    let Some(file) = desk.paths.open_edits(desk.files) else {
        drop(session);
        return Ok(cant_open(rt, path));
    };
    let number = session.version().number();
    if number > 0 {
        let _ = eprintln!(rt; "mpwb: {number} edits of {path} are made again");
    }
    keep_desk(rt, desk, session, file)
}

/// Serves the desk with this journal, and writes its netlist at the end.
fn keep_desk<R: Runtime + Threads + Wait + Sync + AllocGlobal>(
    rt: &R,
    desk: &LiveDesk<'_>,
    session: Session<OpenGate>,
    file: File,
) -> Result<u8, RunFault> {
    let path = desk.paths.edits.as_str();
    let notice = PathNotice {
        files: desk.files,
        path,
    };
    let sink = JournalFile::new(desk.files, path, file, desk.is_synced);
    serve_typed(rt, desk, journaled(rt.alloc(), session, sink, notice)?)
}

/// Serves those who come to the pipes and answers the lines of standard input meanwhile.
fn serve_typed<R: Runtime + Threads + Wait + Sync + AllocGlobal>(
    rt: &R,
    desk: &LiveDesk<'_>,
    kept: JournaledSession<'_>,
) -> Result<u8, RunFault> {
    let Ok(mut lines) = LineReader::new(rt.alloc(), ReadSource::new(rt.reader())) else {
        drop(kept);
        return Err(RunFault::OutOfMemory);
    };
    let Ok(mut out) = Out::new(rt.alloc(), WriteSink::new(io::writer(rt))) else {
        drop(kept);
        return Err(RunFault::OutOfMemory);
    };
    serve_lines(rt, desk, kept, &mut lines, &mut out)
}

/// Serves those who come to the pipes and answers these lines meanwhile. Then it writes what `desk` writes, and the netlist into the folder.
fn serve_lines<R: Eprint + Threads + Wait + Sync + AllocGlobal, I: Source, T: Sink>(
    rt: &R,
    desk: &LiveDesk<'_>,
    kept: JournaledSession<'_>,
    lines: &mut LineReader<I>,
    out: &mut Out<T>,
) -> Result<u8, RunFault>
    requires { out.old.held ≡ [] }
{
    let scribe = SeatScribe {
        alloc: rt.alloc(),
        crew: desk.crew,
    };
    let LiveOutcome {
        session,
        keeper,
        ended,
    } = serve_live(rt, desk.pipes, kept, scribe, lines, out)?;
    let is_written = is_netlist_written(rt, desk, session.version().now());
    let is_lost = keeper.is_lost();
    drop(session);
    drop(keeper);
    ended?;
    if is_written && !is_lost {
        Ok(0)
    } else {
        Ok(CANT_OPEN)
    }
}

/// Writes the netlist into the folder, and returns whether that succeeded. A failure is reported.
fn is_netlist_written<R: Eprint + AllocGlobal>(
    rt: &R,
    desk: &LiveDesk<'_>,
    netlist: &Netlist,
) -> bool {
    let is_written = desk.paths.write_netlist(desk.files, rt.alloc(), netlist);
    if !is_written {
        let path = desk.paths.netlist.as_str();
        let _ = eprintln!(rt; "mpwb: can't write {path}");
    }
    is_written
}

/// The crew of the options, if there are 1 to 8 designers and at most 24 viewers.
fn crew_of(options: &Options, designers: u32) -> Option<Crew>
    ensures designers { IfSome result (λ crew. (0 < designers) × (designers ≤ 8)) }
    ensures viewers { IfSome result (λ crew. options.now.viewers ≤ 24) }
{
    if designers == 0 || designers > DESIGNER_SEATS || options.viewers > VIEWER_SEATS {
        return None;
    }
    options.crew()
}
