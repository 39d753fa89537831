//! A seat from the first who comes to the last.
ghost use Rattle.std.specs.Prelude.{◌≡◌, ℕ, List, [], map, vec_len, IfOk, MatchBool};
ghost use mathlib.Core.List.{IsPrefix};
ghost use Rattle.mp_seats.specs.Replies.{signed_writing};
ghost use Rattle.mp_seats.specs.hosting.Endings.{HasEnded};
ghost use Rattle.mp_seats.specs.hosting.Stays.{IsServed, IsSignedStay, WasSignedAttended};

use crate::hosting::door::Door;
use crate::hosting::ended::Ended;
use crate::hosting::serves::Serves;
use crate::{Occupant, ReplyWriter, Seat};
use mp_streams::{Failed, Out, Sink, Source};
use mp_text::LineReader;
use std::alloc::{AllocError, Global};
use std::sync::Wait;
use std::thread::Threads;

/// A seat, and the door through which those come who take it.
#[derive(Drop)]
pub(crate) struct SeatServer<B: ReplyWriter, G: Occupant, D: Door> {
    pub seat: Seat<B, G>,
    pub door: D,
}

impl<B: ReplyWriter, G: Occupant, D: Door> SeatServer<B, G, D> {
    /// The one who sat there.
    pub fn into_guest(self) -> G
        ensures { G.seated result ≡ self.seat }
    {
        let SeatServer { seat, .. } = self;
        seat.into_guest()
    }
}

impl<B: ReplyWriter, G: Occupant, D: Door> Serves for SeatServer<B, G, D> {
    ghost Becomes = { λ p q. WasSignedAttended D.Output D.Comes D.Leaves D.TurnsAway (signed_writing B.answer_text B.reply_text) G.edits p.seat p.door q.seat q.door };

    fn serve<R: Threads + Wait + Sync>(&mut self, rt: &R, alloc: Global) {
        for _ in rt.forever() {
            if !attend_next(rt, alloc, self) {
                return;
            }
        }
        unreachable!()
    }
}

/// Serves the next one who comes to the seat, or turns away if memory runs out. False if nobody will come any more.
fn attend_next<R: Threads + Wait + Sync, B: ReplyWriter, G: Occupant, D: Door>(
    rt: &R,
    alloc: Global,
    post: &mut SeatServer<B, G, D>,
) -> bool
    ensures { MatchBool result (IsSignedStay D.Output D.Comes D.Leaves D.TurnsAway (signed_writing B.answer_text B.reply_text) G.edits post.old.seat post.new.seat post.old.door post.new.door) ((post.new.seat ≡ post.old.seat) × (post.new.door ≡ post.old.door)) }
{
    let Some((input, output)) = post.door.open() else {
        return false;
    };
    let Ok((lines, out)) = streams(alloc, input, output) else {
        post.door.turn_away();
        return true;
    };
    let mut lines = lines;
    let (is_whole, output) = visit(rt, &mut post.seat, &mut lines, out);
    leave(rt, &mut post.door, lines, output, is_whole);
    true
}

/// A line reader over the input, and a buffer before the output.
fn streams<I: Source + Drop, T: Sink + Drop>(
    alloc: Global,
    input: I,
    output: T,
) -> Result<(LineReader<I>, Out<T>), AllocError>
    ensures lines { IfOk result (λ both. (both.0.left ≡ I.left input) × (both.0.held ≡ [])) }
    ensures out { IfOk result (λ both. (both.1.taken ≡ T.taken output) × (both.1.held ≡ [])) }
{
    let lines = LineReader::new(alloc, input)?;
    let out = Out::new(alloc, output)?;
    Ok((lines, out))
}

/// Serves one who came, up to the end of the input or a fault. It returns whether all lines were answered, and gives the output back.
fn visit<R: Threads + Wait + Sync, B: ReplyWriter, G: Occupant, I: Source + Drop, T: Sink + Drop>(
    rt: &R,
    seat: &mut Seat<B, G>,
    lines: &mut LineReader<I>,
    out: Out<T>,
) -> (bool, T)
    requires { (lines.old.held ≡ []) × (out.held ≡ []) }
    ensures { (authors : List ℕ) → IsPrefix seat.new.signed authors → IsServed T (signed_writing B.answer_text B.reply_text authors) G.edits lines.old.left out.taken seat.old seat.new (T.taken result.1) }
{
    let mut out = out;
    let served = seat.serve(rt, lines, &mut out);
    (served.is_ok(), out.into_sink())
}

/// Lets the one who came leave, and somebody else come. If not all lines were answered the output is closed first, so that whoever reads there ends
/// the input.
fn leave<R: Wait, D: Door>(
    rt: &R,
    door: &mut D,
    lines: LineReader<D::Input>,
    output: D::Output,
    is_whole: bool,
)
    ensures { D.Leaves door.old door.new (D.Output.taken output) }
{
    if is_whole {
        door.leave(Ended::of(ended(rt, lines)), output);
    } else {
        door.close(output);
        door.free(Ended::of(ended(rt, lines)));
    }
}

/// Skips the rest of the input, up to its end or a fault, so that nobody else is answered those lines.
fn ended<R: Wait, I: Source + Drop>(rt: &R, lines: LineReader<I>) -> LineReader<I>
    ensures { HasEnded result }
{
    let mut lines = lines;
    for _ in rt.forever() {
        match lines.read(rt) {
            Ok(true) => {}
            Ok(false) => return lines,
            // no more can be read
            Err(Failed) => return lines,
        }
    }
    unreachable!()
}

/// A post for each guest, with the door in its place.
pub(crate) fn posts<B: ReplyWriter + Copy, G: Occupant, D: Door>(
    alloc: Global,
    scribe: B,
    guests: Vec<G>,
    doors: Vec<D>,
) -> Result<Vec<SeatServer<B, G, D>>, AllocError>
    requires { vec_len guests ≡ vec_len doors }
    ensures seats { IfOk result (λ v. map (λ p. p.seat) v.items ≡ map G.seated guests.items) }
    ensures doors { IfOk result (λ v. map (λ p. p.door) v.items ≡ doors.items) }
{
    let mut posts = Vec::with_capacity(alloc, guests.len())?;
    for (guest, door) in guests.into_iter().zip(doors) {
        let seat = Seat::new(alloc, scribe, guest);
        posts.push_reserved(SeatServer { seat, door });
    }
    Ok(posts)
}
