//! Value lines that write themselves.
ghost use Rattle.std.specs.Prelude.{◌≡◌, ◌+◌, ◌≤◌};
ghost use Rattle.mp_exports.specs.vcd.Clauses.{length, IsPlaced, bit, bits, value_text};

use crate::vcd::code::write_code;
use mp_streams::Piece;

/// The line of a wire's level.
#[derive(Clone, Copy)]
pub(crate) struct ValueLine {
    pub(crate) width: u32,
    pub(crate) wire: u32,
    pub(crate) level: u64,
    ghost narrow: { width ≤ 64 },
}

impl Piece for ValueLine {
    ghost use Rattle.mp_exports.specs.vcd.Clauses.{value_line};

    ghost text = { λ line. value_line line.width line.wire line.level };

    #[inline(always)]
    #[tactic(auto, using(mp_streams::proofs::PlaceLemmas::placed_both, mp_streams::proofs::PlaceLemmas::placed_byte))]
    fn write(&self, room: &mut [u8], at: usize) -> usize {
        let value_end = write_value(self.width, self.level, room, at);
        let end = write_code(self.wire, room, value_end);
        room[end] = b'\n';
        end + 1
    }
}

/// Writes a level of so many bits from a place on, and returns the index after it.
#[inline(always)]
fn write_value(width: u32, level: u64, room: &mut [u8], at: usize) -> usize
    requires { at + width + 2 ≤ length room.old }
    ensures placed { IsPlaced room.old room.new at (value_text width level) result }
    ensures short { result ≤ at + width + 2 }
{
    if width == 1 {
        room[at] = bit(level);
        return at + 1;
    }
    room[at] = b'b';
    let end = write_bits(width, level, room, at + 1);
    room[end] = b' ';
    end + 1
}

/// Writes the lowest bits of a level, so many, from a place on, the greatest first, and returns the index after them.
#[inline]
fn write_bits(width: u32, level: u64, room: &mut [u8], at: usize) -> usize
    requires { at + width ≤ length room.old }
    ensures placed { IsPlaced room.old room.new at (bits width level) result }
    ensures end { result ≡ at + width }
{
    let end = at + width as usize;
    let mut place = end;
    let mut rest = level;
    while place > at {
        place -= 1;
        room[place] = bit(rest);
        rest /= 2;
    }
    end
}

/// The digit of the lowest bit.
#[inline(always)]
fn bit(level: u64) -> u8
    ensures { result ≡ bit level }
{
    b'0' + (level % 2) as u8
}
