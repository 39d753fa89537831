//! The identifier codes of wires.
ghost use Rattle.std.specs.Prelude.{◌+◌, ◌≤◌};
ghost use Rattle.mp_exports.specs.vcd.Clauses.{length, IsPlaced, code};

use mp_streams::{Failed, Out, Piece, Sink, Text};

/// How many digits a code has to choose from.
const BASE: u32 = 94;

/// The digit 0 of a code.
const FIRST_DIGIT: u8 = b'!';

/// The identifier code of the wire of a number.
#[derive(Clone, Copy)]
pub(crate) struct Code(pub(crate) u32);

impl Piece for Code {
    ghost text = { λ wire. code wire.0 };

    fn write(&self, room: &mut [u8], at: usize) -> usize {
        write_code(self.0, room, at)
    }
}

impl Text for Code {
    ghost text = { λ wire. code wire.0 };

    fn put_to<S: Sink>(&self, out: &mut Out<S>) -> Result<(), Failed> {
        out.put_piece(self)
    }
}

/// Writes the code of a wire from a place on, and returns the index after it.
#[inline(always)]
pub(crate) fn write_code(wire: u32, room: &mut [u8], at: usize) -> usize
    requires { at + 5 ≤ length room.old }
    ensures placed { IsPlaced room.old room.new at (code wire) result }
    ensures short { result ≤ at + 5 }
{
    let mut end = at;
    let mut rest = wire;
    while rest >= BASE {
        room[end] = FIRST_DIGIT + (rest % BASE) as u8;
        rest /= BASE;
        end += 1;
    }
    room[end] = FIRST_DIGIT + rest as u8;
    end + 1
}
