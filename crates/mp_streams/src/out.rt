//! A sink with a buffer before it.
ghost use Rattle.std.specs.Prelude.{◌≡◌, ◌+◌, ◌≤◌, [], length, IfOk};
ghost use Rattle.std.specs.Fmt.{decimal};
ghost use Rattle.mp_streams.specs.Outgoing.{Writes};
ghost use Rattle.mp_streams.specs.Places.{IsPlaced};

use crate::failed::Failed;
use crate::piece::{PIECE_BYTES, Piece};
use crate::putting::put_all;
use crate::sink::Sink;
use itoa::Buffer;
use std::alloc::{AllocError, Global};
use std::marker::Model;

/// The size of the buffer: large enough that a write costs little in comparison with what it writes.
const CAPACITY: usize = 65_536;

/// A sink with a buffer before it. The buffer holds what is written until it is full or flushed; what it still holds when the value is dropped is
/// lost. It takes its memory when it is made, and no more.
#[derive(Drop)]
pub struct Out<S: Sink> {
    sink: S,
    // the buffer, of which the first bytes are held
    room: Vec<u8>,
    end: usize,
}

impl<S: Sink> Model for Out<S> {
    ghost use Rattle.std.specs.Prelude.{◌≤◌, length, take};
    ghost use Rattle.mp_streams.specs.Outgoing.{Outgoing};

    ghost Value = { Outgoing S };

    ghost view = { λ out. record { sink = out.sink; taken = S.taken out.sink; held = take out.end out.room.items; faults = S.fault_count out.sink } };

    ghost invariant = { λ out. (out.end ≤ length out.room.items) × (72 ≤ length out.room.items) };
}

impl<S: Sink> Out<S> {
    /// A buffer before the sink, with nothing held. `AllocError` comes if memory runs out.
    pub fn new(alloc: Global, sink: S) -> Result<Out<S>, AllocError>
    where
        S: Drop,
        ensures sink { IfOk result (λ out. out.sink ≡ sink) }
        ensures taken { IfOk result (λ out. out.taken ≡ S.taken sink) }
        ensures empty { IfOk result (λ out. out.held ≡ []) }
        ensures faults { IfOk result (λ out. out.faults ≡ S.fault_count sink) }
    {
        let room = vec![in alloc; 0; CAPACITY]?;
        Ok(Out { sink, room, end: 0 })
    }

    /// Returns the sink. What the buffer holds is lost.
    pub fn into_sink(self) -> S
        ensures sink { result ≡ self.sink }
        ensures taken { S.taken result ≡ self.taken }
        ensures faults { S.fault_count result ≡ self.faults }
    {
        let Out { sink, .. } = self;
        sink
    }

    /// Writes the bytes. `Failed` comes if the sink fails; then the sink has a beginning of what was held and of the bytes, and nothing is held.
    #[inline]
    pub fn put_bytes(&mut self, bytes: &[u8]) -> Result<(), Failed>
        ensures { Writes result self.old self.new bytes.now }
    {
        if bytes.len() > self.room.len() - self.end {
            return self.put_past(bytes);
        }
        self.end = place(self.room.as_mut_slice(), self.end, bytes);
        Ok(())
    }

    /// Writes the text. `Failed` comes as in `put_bytes`.
    #[inline]
    pub fn put_text(&mut self, text: &str) -> Result<(), Failed>
        ensures { Writes result self.old self.new text.now }
    {
        self.put_bytes(text.as_bytes())
    }

    /// Writes the number in decimal digits. `Failed` comes as in `put_bytes`.
    pub fn put_number(&mut self, number: u64) -> Result<(), Failed>
        ensures { Writes result self.old self.new (decimal number) }
    {
        let mut digits = Buffer::new();
        self.put_text(digits.format(number))
    }

    /// Writes the text of the piece, straight into the buffer. `Failed` comes as in `put_bytes`.
    #[inline(always)]
    pub fn put_piece<P: Piece>(&mut self, piece: &P) -> Result<(), Failed>
        ensures { Writes result self.old self.new (P.text piece.now) }
    {
        if self.room.len() - self.end < PIECE_BYTES {
            return self.put_piece_past(piece);
        }
        self.end = piece.write(self.room.as_mut_slice(), self.end);
        Ok(())
    }

    /// Writes bytes for which the buffer has no room, after what it holds.
    #[cold]
    #[inline(never)]
    fn put_past(&mut self, bytes: &[u8]) -> Result<(), Failed>
        ensures { Writes result self.old self.new bytes.now }
    {
        self.flush()?;
        if bytes.len() > self.room.len() - self.end {
            return put_all(&mut self.sink, bytes);
        }
        self.end = place(self.room.as_mut_slice(), self.end, bytes);
        Ok(())
    }

    /// Writes a piece for which the buffer has no room, after what it holds.
    #[cold]
    #[inline(never)]
    fn put_piece_past<P: Piece>(&mut self, piece: &P) -> Result<(), Failed>
        ensures { Writes result self.old self.new (P.text piece.now) }
    {
        self.flush()?;
        self.end = piece.write(self.room.as_mut_slice(), 0);
        Ok(())
    }

    /// Passes all that is held on to the sink. `Failed` comes if the sink fails; then the sink has a beginning of it. Nothing is held either way.
    pub fn flush(&mut self) -> Result<(), Failed>
        ensures written { Writes result self.old self.new [] }
        ensures empty { self.new.held ≡ [] }
    {
        let put = put_all(&mut self.sink, &self.room[..self.end]);
        self.end = 0;
        put
    }
}

/// Writes the bytes into the room from `at` on, if there is room for them, and returns the index after them.
#[inline]
fn place(room: &mut [u8], at: usize, bytes: &[u8]) -> usize
    requires { at + length bytes.now ≤ length room.old }
    ensures { IsPlaced room.old room.new at bytes.now result }
{
    let end = at + bytes.len();
    room[at..end].copy_from_slice(bytes);
    end
}
