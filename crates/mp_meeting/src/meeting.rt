//! A meeting from its beginning to its end.
ghost use Rattle.std.specs.Prelude.{map, ◌≡◌, ◌+◌, ◌<◌, vec_len, length, All, IfOk, IfErr};
ghost use Rattle.mp_netlist.specs.Circuit.{Circuit};
ghost use Rattle.mp_text.specs.lexing.Divisions.{lines_of_each};
ghost use Rattle.mp_version.specs.Stories.{opening};
ghost use Rattle.mp_version.specs.Extending.{Extends};
ghost use Rattle.mp_desk.specs.Holders.{AreFresh, IsSigned};
ghost use Rattle.mp_meeting.specs.Meetings.{IsMeeting};
ghost use Rattle.mp_meeting.specs.Seats.{working, HasAdjourned};
ghost use Rattle.mp_meeting.specs.declared.meeting_fault.MeetingFault.TheVariants.{OutOfMemory};

use crate::designer_tally::DesignerTally;
use crate::meeting_fault::MeetingFault;
use crate::race::race;
use crate::reading::last_reads;
use crate::seats::{finish_all, start_all};
use crate::tally::Tally;
use mp_desk::{
    Desk, DeskName, DeskParts, DeskSize, EditKeeper, KeptSession, Staffed, Unkept, Viewer,
};
use mp_version::EditSession;
use std::alloc::{AllocError, Global};
use std::marker::Brand;
use std::sync::Wait;
use std::thread::Threads;

/// What a meeting leads to.
#[derive(Drop)]
pub struct DeskOutcome<S: EditSession> {
    /// The session after all accepted edits.
    pub session: S,
    /// How the lines of each designer fared.
    pub tallies: Vec<Tally>,
    /// The number of the version that each viewer read last.
    pub numbers: Vec<u32>,
}

/// What is left of a meeting that has ended.
#[derive(Drop)]
pub struct Adjourned<S: EditSession, K: EditKeeper> {
    /// The session after all accepted edits, with what keeps them.
    pub kept: KeptSession<S, K>,
    /// How the lines of each designer fared.
    pub tallies: Vec<Tally>,
    /// The number of the version that each viewer read last.
    pub numbers: Vec<u32>,
}

/// Has a designer for each block submit its lines, and viewers read 100 times, all on threads of their own; a part whose thread can't be started is
/// done on the calling thread. Then each viewer learns of each designer's last edit, and reads once more. `OutOfMemory` if memory runs out for any of
/// them, and `NoPlace` if there is memory, but no place for a viewer or designer.
pub fn meet<S: EditSession + Send, R: Threads + Wait + Sync>(
    rt: &R,
    alloc: Global,
    session: S,
    blocks: &[&[u8]],
    size: DeskSize,
) -> Result<DeskOutcome<S>, MeetingFault>
where
    S::Prepared: Send,
    requires fresh { S.story session ≡ opening (S.story session).base }
    requires designers { size.designers ≡ length blocks.now }
    ensures met { IfOk result (λ met. IsMeeting (S.story session).base (lines_of_each blocks.now) (S.story met.session) met.tallies.items met.numbers.items) }
    ensures viewers { IfOk result (λ met. vec_len met.numbers ≡ size.viewers) }
{
    match DeskParts::new(rt, alloc, KeptSession::unkept(session), size) {
        Ok(parts) => at_desk::<S, Brand, _>(rt, alloc, parts, blocks),
        Err(refused) => Err(MeetingFault::from(refused.cause)),
    }
}

/// The meeting at the desk that these parts make. It is refused only for lack of memory.
fn at_desk<
    S: EditSession + Send,
    L: DeskName + Send + Sync,
    R: Threads + Wait + Sync + Send + Copy,
>(
    rt: R,
    alloc: Global,
    parts: DeskParts<S, Unkept, R>,
    blocks: &[&[u8]],
) -> Result<DeskOutcome<S>, MeetingFault>
where
    S::Prepared: Send,
    requires history { parts.book ≡ L.history }
    requires ledger { parts.ledger ≡ L.name }
    requires shares { parts.designers + 1 ≡ L.parts }
    requires opening { length (S.story parts.session).edits ≡ L.opening }
    requires fresh { S.story parts.session ≡ opening (S.story parts.session).base }
    requires some { 0 < length blocks.now }
    requires blocks { parts.designers ≡ length blocks.now }
    ensures met { IfOk result (λ met. IsMeeting (S.story parts.session).base (lines_of_each blocks.now) (S.story met.session) met.tallies.items met.numbers.items) }
    ensures viewers { IfOk result (λ met. vec_len met.numbers ≡ parts.viewers) }
    ensures wanting { IfErr result (λ fault. fault ≡ OutOfMemory) }
{
    match Desk::<S, Unkept, L, R>::open(parts) {
        Ok(staffed) => Ok(run_at(&rt, alloc, staffed, blocks)?),
        Err(refused) => Err(MeetingFault::from(refused.cause)),
    }
}

/// The meeting at this desk.
fn run_at<S: EditSession + Send, L: DeskName + Send + Sync, R: Threads + Wait + Sync + Send + Drop>(
    rt: &R,
    alloc: Global,
    staffed: Staffed<S, Unkept, L, R>,
    blocks: &[&[u8]],
) -> Result<DeskOutcome<S>, AllocError>
where
    S::Prepared: Send,
    requires count { vec_len staffed.designers ≡ length blocks.now }
    requires some { 0 < length blocks.now }
    requires all { staffed.desk.designers ≡ vec_len staffed.designers }
    requires fresh { All (λ d. d.accepted ≡ 0) staffed.designers.items }
    requires opening { staffed.desk.opening ≡ 0 }
    ensures met { IfOk result (λ met. (base : Circuit) → AreFresh (opening base) staffed.designers.items → IsMeeting base (lines_of_each blocks.now) (S.story met.session) met.tallies.items met.numbers.items) }
    ensures viewers { IfOk result (λ met. vec_len met.numbers ≡ vec_len staffed.viewers) }
{
    let Staffed {
        desk,
        designers,
        viewers,
    } = staffed;
    let sittings = start_all(alloc, designers)?;
    let (sittings, viewers) = race(rt, alloc, &desk, blocks, sittings, viewers);
    let Adjourned {
        kept,
        tallies,
        numbers,
    } = adjourn(rt, alloc, desk, sittings, viewers)?;
    let (session, _) = kept.into_parts();
    Ok(DeskOutcome {
        session,
        tallies,
        numbers,
    })
}

/// Ends a meeting: each viewer learns of each designer's last edit and reads once more, and the desk is closed. The error comes if memory runs out,
/// or was for one of the designers.
pub fn adjourn<
    S: EditSession + Send,
    K: EditKeeper + Send,
    L: DeskName + Send + Sync,
    R: Threads + Wait + Sync + Drop,
>(
    rt: &R,
    alloc: Global,
    desk: Desk<S, K, L, R>,
    sittings: Vec<DesignerTally<L>>,
    viewers: Vec<Viewer<L>>,
) -> Result<Adjourned<S, K>, AllocError>
where
    S::Prepared: Send,
    requires all { desk.designers ≡ vec_len sittings }
    ensures adjourned { IfOk result (λ met. HasAdjourned desk.opening sittings.items (vec_len viewers) (S.story met.kept.session) met.tallies.items met.numbers.items) }
    ensures looked { IfOk result (λ met. All (λ v. Extends (S.story met.kept.session) v.last) viewers.items) }
    ensures signed { IfOk result (λ met. IsSigned (S.story met.kept.session) (map working sittings.items) viewers.items) }
{
    let mut viewers = viewers;
    let numbers = last_reads(rt, alloc, sittings.as_slice(), viewers.as_mut_slice())?;
    let (designers, tallies) = finish_all(alloc, sittings)?;
    match desk.close(rt, designers, viewers.as_mut_slice()) {
        Ok(kept) => Ok(Adjourned {
            kept,
            tallies,
            numbers,
        }),
        Err(_) => unreachable!(),
    }
}
