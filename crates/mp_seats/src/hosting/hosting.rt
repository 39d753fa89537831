//! A desk at which designers and viewers come and go, from its beginning to its end.
ghost use Rattle.std.specs.Prelude.{◌≡◌, ◌+◌, ◌<◌, ◌++◌, ◌∷◌, ℕ, List, [], length, vec_len, All, IfOk, IfErr};
ghost use Rattle.mp_version.specs.Stories.{Story};
ghost use Rattle.mp_desk.specs.Holders.{fresh_viewer, AreFresh};
ghost use Rattle.mp_seats.specs.Replies.{signed_writing};
ghost use Rattle.mp_seats.specs.hosting.OwnSeats.{HasTalkedWithin};
ghost use Rattle.mp_seats.specs.hosting.Hostings.{IsHosted};
ghost use Rattle.mp_seats.specs.declared.hosting.host_fault.HostFault.TheVariants.{BadSize};

use crate::ReplyWriter;
use crate::hosting::door::{Door, Exit};
use crate::hosting::hall::Hall;
use crate::hosting::host_fault::HostFault;
use crate::hosting::hosted::Hosted;
use crate::hosting::people::People;
use crate::hosting::served::Served;
use crate::hosting::service::serve;
use mp_desk::{BadDeskSize, Desk, DeskName, DeskParts, DeskSize, EditKeeper, KeptSession, Staffed};
use mp_meeting::{Adjourned, DeskOutcome, MeetingFault, adjourn, start_all};
use mp_streams::{Out, Sink, Source};
use mp_text::LineReader;
use mp_version::EditSession;
use std::alloc::{AllocError, Global};
use std::marker::Brand;
use std::sync::Wait;
use std::thread::Threads;

/// Serves all who come to the doors of a desk, each seat on a thread of its own, and answers the lines of whoever runs it meanwhile. It ends if these
/// lines end and all seats are left. If no thread can be started for a seat, that seat stays free.
///
/// The keeper of the session keeps each edit before anybody is shown it. The lines of whoever runs the desk may end with a fault: it is told beside what became of the desk, once all seats are left. `BadSize` comes where
/// there are not doors for 1 to 8 designers and for at most 31 viewers: then no line is read. `OutOfMemory` comes if memory runs out, and
/// `NoPlace` where there is no place for a viewer or designer.
pub fn host<
    S: EditSession + Send,
    K: EditKeeper + Send,
    R: Threads + Wait + Sync + Send + Copy,
    D: Door + Send,
    X: Exit,
    B: ReplyWriter + Copy + Send + Sync,
    I: Source,
    T: Sink,
>(
    rt: R,
    alloc: Global,
    kept: KeptSession<S, K>,
    hall: Hall<D, X, B>,
    lines: &mut LineReader<I>,
    out: &mut Out<T>,
) -> Result<Hosted<S, K>, HostFault>
where
    S::Prepared: Send,
    D::Input: Send,
    D::Output: Send,
    requires held { out.old.held ≡ [] }
    ensures hosted { IfOk result (λ met. (authors : List ℕ) × IsHosted D.Output D.Comes D.Leaves D.TurnsAway (signed_writing B.answer_text B.reply_text) authors (S.story kept.session) (S.story met.outcome.session) hall.designers.items hall.viewers.items met.outcome.tallies.items met.outcome.numbers.items × HasTalkedWithin (signed_writing B.answer_text B.reply_text authors) met.talked (S.story kept.session) (S.story met.outcome.session) (X.names hall.exit) lines.old lines.new out.old out.new) }
    ensures unread { IfErr result (λ fault. fault ≡ BadSize → (lines.new ≡ lines.old) × (out.new ≡ out.old)) }
    ensures kept { IfOk result (λ met. K.keeps met.keeper (S.story met.outcome.session)) }
    ensures flushed { out.new.held ≡ [] }
{
    let Ok(size) = size_of(hall.designers.as_slice(), hall.viewers.as_slice()) else {
        return Err(HostFault::BadSize);
    };
    match DeskParts::new(rt, alloc, kept, size) {
        Ok(parts) => Ok(host_parts::<S, K, Brand, _, D, X, B, I, T>(
            rt, alloc, parts, hall, lines, out,
        )?),
        Err(refused) => Err(HostFault::from(MeetingFault::from(refused.cause))),
    }
}

/// A place for each door, and one for whoever runs the desk.
fn size_of<D: Door>(designers: &[D], viewers: &[D]) -> Result<DeskSize, BadDeskSize>
    ensures { IfOk result (λ size. (size.designers ≡ length designers.now) × (size.viewers ≡ length viewers.now + 1)) }
{
    DeskSize::new(designers.len(), viewers.len().saturating_add(1))
}

/// The desk that these parts make.
fn host_parts<
    S: EditSession + Send,
    K: EditKeeper + Send,
    L: DeskName + Send + Sync,
    R: Threads + Wait + Sync + Send + Copy,
    D: Door + Send,
    X: Exit,
    B: ReplyWriter + Copy + Send + Sync,
    I: Source,
    T: Sink,
>(
    rt: R,
    alloc: Global,
    parts: DeskParts<S, K, R>,
    hall: Hall<D, X, B>,
    lines: &mut LineReader<I>,
    out: &mut Out<T>,
) -> Result<Hosted<S, K>, MeetingFault>
where
    S::Prepared: Send,
    D::Input: Send,
    D::Output: Send,
    requires history { parts.book ≡ L.history }
    requires ledger { parts.ledger ≡ L.name }
    requires shares { parts.designers + 1 ≡ L.parts }
    requires opening { length (S.story parts.session).edits ≡ L.opening }
    requires designers { parts.designers ≡ vec_len hall.designers }
    requires some { 0 < vec_len hall.designers }
    requires viewers { parts.viewers ≡ vec_len hall.viewers + 1 }
    requires held { out.old.held ≡ [] }
    ensures hosted { IfOk result (λ met. (authors : List ℕ) × IsHosted D.Output D.Comes D.Leaves D.TurnsAway (signed_writing B.answer_text B.reply_text) authors (S.story parts.session) (S.story met.outcome.session) hall.designers.items hall.viewers.items met.outcome.tallies.items met.outcome.numbers.items × HasTalkedWithin (signed_writing B.answer_text B.reply_text authors) met.talked (S.story parts.session) (S.story met.outcome.session) (X.names hall.exit) lines.old lines.new out.old out.new) }
    ensures kept { IfOk result (λ met. K.keeps met.keeper (S.story met.outcome.session)) }
    ensures flushed { out.new.held ≡ [] }
{
    match Desk::<S, K, L, R>::open(parts) {
        Ok(staffed) => Ok(host_staffed(&rt, alloc, staffed, hall, lines, out)?),
        Err(refused) => Err(MeetingFault::from(refused.cause)),
    }
}

/// The desk with those who sit at it. The last viewer sits at the seat of whoever runs the desk.
fn host_staffed<
    S: EditSession + Send,
    K: EditKeeper + Send,
    L: DeskName + Send + Sync,
    R: Threads + Wait + Sync + Send + Drop,
    D: Door + Send,
    X: Exit,
    B: ReplyWriter + Copy + Send + Sync,
    I: Source,
    T: Sink,
>(
    rt: &R,
    alloc: Global,
    staffed: Staffed<S, K, L, R>,
    hall: Hall<D, X, B>,
    lines: &mut LineReader<I>,
    out: &mut Out<T>,
) -> Result<Hosted<S, K>, AllocError>
where
    S::Prepared: Send,
    D::Input: Send,
    D::Output: Send,
    requires all { staffed.desk.designers ≡ vec_len staffed.designers }
    requires fresh { All (λ d. d.accepted ≡ 0) staffed.designers.items }
    requires designers { vec_len staffed.designers ≡ vec_len hall.designers }
    requires some { 0 < vec_len hall.designers }
    requires viewers { vec_len staffed.viewers ≡ vec_len hall.viewers + 1 }
    requires held { out.old.held ≡ [] }
    ensures hosted { IfOk result (λ met. (start : Story) → AreFresh start staffed.designers.items → All (λ v. v ≡ fresh_viewer start) staffed.viewers.items → staffed.desk.opening ≡ length start.edits → (authors : List ℕ) × IsHosted D.Output D.Comes D.Leaves D.TurnsAway (signed_writing B.answer_text B.reply_text) authors start (S.story met.outcome.session) hall.designers.items hall.viewers.items met.outcome.tallies.items met.outcome.numbers.items × HasTalkedWithin (signed_writing B.answer_text B.reply_text authors) met.talked start (S.story met.outcome.session) (X.names hall.exit) lines.old lines.new out.old out.new) }
    ensures kept { IfOk result (λ met. K.keeps met.keeper (S.story met.outcome.session)) }
    ensures flushed { out.new.held ≡ [] }
{
    let Staffed {
        desk,
        designers,
        mut viewers,
    } = staffed;
    let Some(own) = viewers.pop() else {
        unreachable!()
    };
    // dropped by calls: otherwise the drop of each part would stand here
    let Ok(sittings) = start_all(alloc, designers) else {
        drop(own);
        drop(viewers);
        drop(desk);
        drop(hall);
        return Err(AllocError);
    };
    let people = People {
        desk: &desk,
        sittings,
        viewers,
        own,
    };
    let Served {
        sittings,
        mut viewers,
        own,
        talked,
    } = serve(rt, alloc, people, hall, lines, out)?;
    viewers.push(own)?;
    let adjourned = adjourn(rt, alloc, desk, sittings, viewers)?;
    let (outcome, keeper) = without_own(adjourned);
    Ok(Hosted {
        outcome,
        keeper,
        talked,
    })
}

/// The outcome without the number of the last viewer, and what keeps the edits.
fn without_own<S: EditSession, K: EditKeeper>(adjourned: Adjourned<S, K>) -> (DeskOutcome<S>, K)
    requires { 0 < vec_len adjourned.numbers }
    ensures same { (result.0.session ≡ adjourned.kept.session) × (result.0.tallies ≡ adjourned.tallies) }
    ensures numbers { (last : ℕ) × (adjourned.numbers.items ≡ result.0.numbers.items ++ last ∷ []) }
    ensures kept { K.keeps result.1 (S.story result.0.session) }
{
    let Adjourned {
        kept,
        tallies,
        mut numbers,
    } = adjourned;
    let Some(_last) = numbers.pop() else {
        unreachable!()
    };
    let (session, keeper) = kept.into_parts();
    let outcome = DeskOutcome {
        session,
        tallies,
        numbers,
    };
    (outcome, keeper)
}
