//! All seats of a desk at the same time.
ghost use Rattle.std.specs.Prelude.{◌≡◌, ◌<◌, ℕ, List, true, false, [], length, map, vec_len, All, IfOk};
ghost use mathlib.Core.List.{IsPrefix};
ghost use Rattle.mp_seats.specs.Replies.{signed_writing};
ghost use Rattle.mp_version.specs.Stories.{Story};
ghost use Rattle.mp_seats.specs.talk.Conversations.{Conversed};
ghost use Rattle.mp_seats.specs.hosting.Guests.{sitter, looker, just_come, just_looking, HaveCome};
ghost use Rattle.mp_seats.specs.hosting.OwnSeats.{HasTalked};
ghost use Rattle.mp_seats.specs.hosting.Stays.{Each, AreAttended};

use crate::hosting::designer_guest::DesignerGuest;
use crate::hosting::door::{Door, Exit};
use crate::hosting::hall::Hall;
use crate::hosting::own_seat::OwnSeat;
use crate::hosting::people::{People, designer_posts, people_at, viewer_posts};
use crate::hosting::rises::Rises;
use crate::hosting::seat_server::SeatServer;
use crate::hosting::served::Served;
use crate::hosting::serves::{EndNotice, Serves};
use crate::hosting::staff::Staff;
use crate::hosting::viewer_guest::ViewerGuest;
use crate::talk::{Answerer, TalkFault, converse};
use crate::{ReplyWriter, Seat};
use mp_desk::{DeskName, EditKeeper, MAX_DESIGNERS, MAX_VIEWERS, Viewer};
use mp_meeting::DesignerTally;
use mp_streams::{Out, Sink, Source};
use mp_text::LineReader;
use mp_version::EditSession;
use std::alloc::{AllocError, Global};
use std::sync::Wait;
use std::thread::{Threads, for_each_mut, join_mut};

/// Serves all who come to the doors of the people at a desk, and answers the lines of whoever runs it meanwhile. Then the people are given back.
pub(crate) fn serve<
    S: EditSession + Send,
    K: EditKeeper + Send,
    L: DeskName + Send + Sync,
    R: Threads + Wait + Sync + Send + Drop,
    D: Door + Send,
    X: Exit,
    B: ReplyWriter + Copy + Send + Sync,
    I: Source,
    T: Sink,
>(
    rt: &R,
    alloc: Global,
    people: People<'_, S, K, L, R>,
    hall: Hall<D, X, B>,
    lines: &mut LineReader<I>,
    out: &mut Out<T>,
) -> Result<Served<L>, AllocError>
where
    S::Prepared: Send,
    D::Input: Send,
    D::Output: Send,
    requires designers { vec_len people.sittings ≡ vec_len hall.designers }
    requires viewers { vec_len people.viewers ≡ vec_len hall.viewers }
    requires held { out.old.held ≡ [] }
    ensures counts { IfOk result (λ s. (vec_len s.sittings ≡ vec_len people.entry.sittings) × (vec_len s.viewers ≡ vec_len people.entry.viewers)) }
    ensures designers { IfOk result (λ s. (start : Story) (authors : List ℕ) → HaveCome start people.entry.sittings.items → All (λ t. IsPrefix t.signed authors) s.sittings.items → AreAttended D.Output D.Comes D.Leaves D.TurnsAway (signed_writing B.answer_text B.reply_text authors) true (λ number. just_come number start) 1 hall.designers.items (map sitter s.sittings.items)) }
    ensures viewers { IfOk result (λ s. (start : Story) (authors : List ℕ) → All (λ v. looker v ≡ just_looking start) people.entry.viewers.items → All (λ v. IsPrefix v.signed authors) s.viewers.items → AreAttended D.Output D.Comes D.Leaves D.TurnsAway (signed_writing B.answer_text B.reply_text authors) false (λ number. just_looking start) 1 hall.viewers.items (map looker s.viewers.items)) }
    ensures talked { IfOk result (λ s. (start : Story) (authors : List ℕ) → looker people.entry.own ≡ just_looking start → IsPrefix s.own.signed authors → HasTalked (signed_writing B.answer_text B.reply_text authors) s.talked start s.own.last (X.names hall.exit) lines.old lines.new out.old out.new) }
    ensures flushed { out.new.held ≡ [] }
{
    let (mut staff, mut own) = seats_of(alloc, people, hall)?;
    let (talked, held) = serve_all(rt, alloc, &mut staff, &mut own, lines, out);
    drop(held);
    let own = own.into_guest().rise();
    let (sittings, viewers) = people_of(alloc, staff)?;
    Ok(Served {
        sittings,
        viewers,
        own,
        talked,
    })
}

/// The posts of the people at a desk, each with the door in its place, and the seat of whoever runs it.
fn seats_of<
    'a,
    S: EditSession,
    K: EditKeeper,
    L: DeskName,
    R: Wait + Drop,
    D: Door,
    X: Exit,
    B: ReplyWriter + Copy,
>(
    alloc: Global,
    people: People<'a, S, K, L, R>,
    hall: Hall<D, X, B>,
) -> Result<
    (
        Staff<SeatServer<B, DesignerGuest<'a, S, K, L, R>, D>, SeatServer<B, ViewerGuest<L>, D>>,
        OwnSeat<B, ViewerGuest<L>, X>,
    ),
    AllocError,
>
    requires designers { vec_len people.sittings ≡ vec_len hall.designers }
    requires viewers { vec_len people.viewers ≡ vec_len hall.viewers }
    ensures designers { IfOk result (λ both. map (λ p. p.seat) both.0.designers.items ≡ map sitter people.entry.sittings.items) }
    ensures designer_doors { IfOk result (λ both. map (λ p. p.door) both.0.designers.items ≡ hall.designers.items) }
    ensures viewers { IfOk result (λ both. map (λ p. p.seat) both.0.viewers.items ≡ map looker people.entry.viewers.items) }
    ensures viewer_doors { IfOk result (λ both. map (λ p. p.door) both.0.viewers.items ≡ hall.viewers.items) }
    ensures own { IfOk result (λ both. both.1 ≡ record { seated = looker people.entry.own; names = X.names hall.exit }) }
{
    let People {
        desk,
        sittings,
        viewers,
        own,
    } = people;
    let Hall {
        designers: designer_doors,
        viewers: viewer_doors,
        exit,
        scribe,
    } = hall;
    let staff = Staff {
        designers: designer_posts(alloc, scribe, desk, sittings, designer_doors)?,
        viewers: viewer_posts(alloc, scribe, viewers, viewer_doors)?,
    };
    let seat = Seat::new(alloc, scribe, ViewerGuest { viewer: own });
    Ok((staff, OwnSeat { seat, exit }))
}

/// The designers and the viewers at these posts.
fn people_of<S: EditSession, K: EditKeeper, L: DeskName, R: Wait + Drop, B: ReplyWriter, D: Door>(
    alloc: Global,
    staff: Staff<SeatServer<B, DesignerGuest<'_, S, K, L, R>, D>, SeatServer<B, ViewerGuest<L>, D>>,
) -> Result<(Vec<DesignerTally<L>>, Vec<Viewer<L>>), AllocError>
    ensures designers { IfOk result (λ both. map sitter both.0.items ≡ map (λ p. p.seat) staff.entry.designers.items) }
    ensures viewers { IfOk result (λ both. map looker both.1.items ≡ map (λ p. p.seat) staff.entry.viewers.items) }
{
    let Staff { designers, viewers } = staff;
    let sittings = people_at(alloc, designers)?;
    Ok((sittings, people_at(alloc, viewers)?))
}

/// Has all posts serve those who come, each on a thread of its own if one can be made, and the lines of whoever runs the desk answered meanwhile.
fn serve_all<
    R: Threads + Wait + Sync + Send,
    P: Serves + Send,
    Q: Serves + Send,
    O: Answerer + EndNotice,
    I: Source,
    T: Sink,
>(
    rt: &R,
    alloc: Global,
    staff: &mut Staff<P, Q>,
    own: &mut O,
    lines: &mut LineReader<I>,
    out: &mut Out<T>,
) -> (Result<(), TalkFault>, O::Held)
    requires { out.old.held ≡ [] }
    ensures designers { (vec_len staff.new.designers ≡ vec_len staff.old.designers) × Each P.Becomes staff.old.designers.items staff.new.designers.items }
    ensures viewers { (vec_len staff.new.viewers ≡ vec_len staff.old.viewers) × Each Q.Becomes staff.old.viewers.items staff.new.viewers.items }
    ensures talked { Conversed O.Answers result.0 own.old own.new lines.old lines.new out.old out.new }
    ensures flushed { out.new.held ≡ [] }
{
    let (_, ended) = join_mut(
        rt,
        &mut || serve_posts(rt, alloc, staff),
        &mut || -> (Result<(), TalkFault>, O::Held)
            requires { out.now.held ≡ [] }
        { talk(rt, own, lines, out) },
    );
    ended
}

/// Answers the lines of whoever runs the desk up to their end or a fault, and then tells all others.
fn talk<R: Threads + Wait + Sync, O: Answerer + EndNotice, I: Source, T: Sink>(
    rt: &R,
    own: &mut O,
    lines: &mut LineReader<I>,
    out: &mut Out<T>,
) -> (Result<(), TalkFault>, O::Held)
    requires { out.old.held ≡ [] }
    ensures talked { Conversed O.Answers result.0 own.old own.new lines.old lines.new out.old out.new }
    ensures flushed { out.new.held ≡ [] }
{
    let ended = converse(rt, own, lines, out);
    (ended, own.end())
}

/// Has the posts of designers and of viewers serve those who come.
fn serve_posts<R: Threads + Wait + Sync + Send, P: Serves + Send, Q: Serves + Send>(
    rt: &R,
    alloc: Global,
    staff: &mut Staff<P, Q>,
)
    ensures designers { (vec_len staff.new.designers ≡ vec_len staff.old.designers) × Each P.Becomes staff.old.designers.items staff.new.designers.items }
    ensures viewers { (vec_len staff.new.viewers ≡ vec_len staff.old.viewers) × Each Q.Becomes staff.old.viewers.items staff.new.viewers.items }
{
    serve_both(
        rt,
        alloc,
        staff.designers.as_mut_slice(),
        staff.viewers.as_mut_slice(),
    );
}

fn serve_both<R: Threads + Wait + Sync + Send, P: Serves + Send, Q: Serves + Send>(
    rt: &R,
    alloc: Global,
    designers: &mut [P],
    viewers: &mut [Q],
)
    ensures designers { (length designers.new ≡ length designers.old) × Each P.Becomes designers.old designers.new }
    ensures viewers { (length viewers.new ≡ length viewers.old) × Each Q.Becomes viewers.old viewers.new }
{
    let for_viewers = alloc;
    join_mut(
        rt,
        &mut || serve_each(rt, alloc, MAX_DESIGNERS, designers),
        &mut || serve_each(rt, for_viewers, MAX_VIEWERS, viewers),
    );
}

/// Runs these seat servers, on at most this number of threads.
fn serve_each<R: Threads + Wait + Sync + Send, P: Serves + Send>(
    rt: &R,
    alloc: Global,
    threads: usize,
    posts: &mut [P],
)
    requires { 0 < threads }
    ensures { (length posts.new ≡ length posts.old) × Each P.Becomes posts.old posts.new }
{
    for_each_mut(rt, posts, threads, &|_, post| serve_one(rt, alloc, post));
}

fn serve_one<R: Threads + Wait + Sync, P: Serves>(rt: &R, alloc: Global, post: &mut P)
    ensures { P.Becomes post.old post.new }
{
    post.serve(rt, alloc);
}
