//! The seat of whoever runs the desk.
ghost use Rattle.std.specs.Prelude.{◌≡◌, Some, MatchBool};
ghost use Rattle.std.specs.Option.{option_copied};
ghost use Rattle.mp_seats.specs.hosting.OwnSeats.{IsSeatsLine};

use crate::hosting::door::Exit;
use crate::hosting::serves::EndNotice;
use crate::hosting::telling::put_places;
use crate::talk::Answerer;
use crate::{Occupant, ReplyWriter, Seat};
use mp_streams::{Out, Sink, WriteError};
use mp_text::{first_word, is_plain, word_count};
use std::marker::Model;
use std::sync::Wait;
use std::thread::Threads;

/// A seat at which the line `seats` is answered by a line for each seat of the desk, and any other line as at a seat; and how all others learn that
/// the desk ends. A contract sees the seat, and the names of the desk's seats.
#[derive(Drop)]
pub(crate) struct OwnSeat<B: ReplyWriter, G: Occupant, X: Exit> {
    pub seat: Seat<B, G>,
    pub exit: X,
}

impl<B: ReplyWriter, G: Occupant, X: Exit> Model for OwnSeat<B, G, X> {
    ghost use Rattle.mp_seats.specs.hosting.OwnSeats.{Owner};

    ghost Value = { Owner };

    ghost view = { λ own. record { seated = own.seat; names = X.names own.exit } };
}

impl<B: ReplyWriter, G: Occupant, X: Exit> OwnSeat<B, G, X> {
    /// The one who sat there.
    pub(crate) fn into_guest(self) -> G
        ensures { G.seated result ≡ self.seated }
    {
        let OwnSeat { seat, .. } = self;
        seat.into_guest()
    }
}

impl<B: ReplyWriter, G: Occupant, X: Exit> Answerer for OwnSeat<B, G, X> {
    ghost use Rattle.mp_seats.specs.Replies.{signed_writing};
    ghost use Rattle.mp_seats.specs.hosting.OwnSeats.{IsSignedOwnStep};

    ghost Answers = { IsSignedOwnStep (signed_writing B.answer_text B.reply_text) G.edits };

    fn put_answer<R: Threads + Wait + Sync, T: Sink>(
        &mut self,
        rt: &R,
        line: Option<&[u8]>,
        out: &mut Out<T>,
    ) -> Result<(), WriteError> {
        if asks_for_seats(line) {
            return put_places(out, self.exit.places());
        }
        self.seat.put_answer(rt, line, out)
    }
}

impl<B: ReplyWriter, G: Occupant, X: Exit> EndNotice for OwnSeat<B, G, X> {
    type Held = X::Held;

    fn end(&self) -> X::Held {
        self.exit.places().end();
        self.exit.open_all()
    }
}

/// Whether the line has the one word `seats`, and bytes that are allowed.
fn asks_for_seats(line: Option<&[u8]>) -> bool
    ensures { MatchBool result (IsSeatsLine (option_copied line.entry)) (IsSeatsLine (option_copied line.entry) → ⊥) }
{
    match line {
        Some(line) => is_seats_line(line),
        None => false,
    }
}

fn is_seats_line(line: &[u8]) -> bool
    ensures { MatchBool result (IsSeatsLine (Some line.now)) (IsSeatsLine (Some line.now) → ⊥) }
{
    if !is_plain(line) {
        return false;
    }
    if word_count(line) != 1 {
        return false;
    }
    match first_word(line) {
        Some(word) => word == b"seats".as_slice(),
        None => false,
    }
}
