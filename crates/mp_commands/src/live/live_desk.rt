//! A live desk from its beginning to what it writes at the end.
ghost use Rattle.std.specs.Prelude.{◌≡◌, [], Ok, IfOk};
ghost use Rattle.mp_commands.specs.Names.{present};
ghost use Rattle.mp_commands.specs.Desks.{outcome_text};
ghost use Rattle.mp_commands.specs.live.LiveDesks.{EndsWith, IsLiveDesk};

use crate::command_runs::RunFault;
use crate::live::seat_scribe::SeatScribe;
use crate::live::talk_faults::fault_of_talk;
use crate::meeting_faults::fault_of_meeting;
use crate::outcome_lines::put_outcome;
use mp_desk::{EditKeeper, KeptSession};
use mp_meeting::DeskOutcome;
use mp_phase::Crew;
use mp_seats::{HostFault, Hosted, Pipes, TalkFault};
use mp_streams::{Out, Sink, Source};
use mp_text::LineReader;
use mp_version::EditSession;
use std::sync::Wait;
use std::thread::Threads;

/// What a live desk leads to.
#[derive(Drop)]
pub struct LiveOutcome<S: EditSession, K: EditKeeper> {
    /// The session after all accepted edits.
    pub session: S,
    /// What keeps its edits.
    pub keeper: K,
    /// How the run ended: with a fault of the lines of whoever ran the desk, or of what is written at the end.
    pub ended: Result<(), RunFault>,
}

/// Serves those who come to the pipes on a session, each of whose edits is kept, and answers the lines of whoever runs the desk meanwhile. Then it writes what `desk` writes, if
/// these lines ended well. `BadCount` comes if there are too many seats, `OutOfMemory` if memory runs out, and `NoPlace` if there is no place for a
/// viewer or designer.
pub fn serve_live<
    R: Threads + Wait + Sync,
    S: EditSession + Send,
    K: EditKeeper + Send,
    I: Source,
    T: Sink,
>(
    rt: &R,
    pipes: &Pipes<'_>,
    kept: KeptSession<S, K>,
    scribe: SeatScribe,
    lines: &mut LineReader<I>,
    out: &mut Out<T>,
) -> Result<LiveOutcome<S, K>, RunFault>
where
    S::Prepared: Send,
    requires { out.old.held ≡ [] }
    ensures live { IfOk result (λ live. IsLiveDesk (S.story kept.session) (S.story live.session) pipes.now live.ended lines.old lines.new out.old out.new) }
    ensures kept { IfOk result (λ live. K.keeps live.keeper (S.story live.session)) }
    ensures flushed { out.new.held ≡ [] }
{
    match pipes.host(rt, kept, scribe, lines, out) {
        Ok(hosted) => Ok(closed(hosted, scribe.crew, out)),
        Err(fault) => Err(fault_of_host(fault)),
    }
}

/// What a desk that was served leads to, once what `desk` writes is written.
fn closed<S: EditSession, K: EditKeeper, T: Sink>(
    hosted: Hosted<S, K>,
    crew: Crew,
    out: &mut Out<T>,
) -> LiveOutcome<S, K>
    requires { out.old.held ≡ [] }
    ensures session { (result.session ≡ hosted.outcome.session) × (result.keeper ≡ hosted.keeper) }
    ensures ends { EndsWith hosted.talked result.ended out.old out.new (outcome_text hosted.outcome.tallies.items hosted.outcome.numbers.items (present (S.story hosted.outcome.session))) }
    ensures flushed { out.new.held ≡ [] }
{
    let Hosted {
        outcome,
        keeper,
        talked,
    } = hosted;
    let ended = close(talked, &outcome, crew, out);
    let DeskOutcome { session, .. } = outcome;
    LiveOutcome {
        session,
        keeper,
        ended,
    }
}

/// Writes what `desk` writes, if the lines of whoever ran the desk ended well.
fn close<S: EditSession, T: Sink>(
    talked: Result<(), TalkFault>,
    outcome: &DeskOutcome<S>,
    crew: Crew,
    out: &mut Out<T>,
) -> Result<(), RunFault>
    requires { out.old.held ≡ [] }
    ensures ends { EndsWith talked result out.old out.new (outcome_text outcome.now.tallies.items outcome.now.numbers.items (present (S.story outcome.now.session))) }
    ensures flushed { out.new.held ≡ [] }
{
    match talked {
        Ok(()) => put_closing(out, outcome, crew),
        Err(fault) => Err(fault_of_talk(fault)),
    }
}

/// Writes what `desk` writes, and passes it on to the sink. `WriteFailed` comes with a fault of the sink.
fn put_closing<S: EditSession, T: Sink>(
    out: &mut Out<T>,
    outcome: &DeskOutcome<S>,
    crew: Crew,
) -> Result<(), RunFault>
    ensures ends { EndsWith (Ok tt) result out.old out.new (outcome_text outcome.now.tallies.items outcome.now.numbers.items (present (S.story outcome.now.session))) }
    ensures flushed { out.new.held ≡ [] }
{
    put_outcome(out, outcome, crew)?;
    out.flush()?;
    Ok(())
}

/// The fault of a run whose desk wasn't served.
fn fault_of_host(fault: HostFault) -> RunFault {
    match fault {
        HostFault::BadSize => RunFault::BadCount,
        HostFault::Meeting(fault) => fault_of_meeting(fault),
    }
}
