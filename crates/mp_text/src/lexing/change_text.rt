//! Changes of waves as texts.
ghost use Rattle.std.specs.Prelude.{◌≡◌, ◌+◌, ◌≤◌};
ghost use Rattle.mp_text.specs.lexing.Clauses.{length, decimal, IsPlaced, change_text};

use itoa::write_digits;
use mp_streams::Piece;

/// A change of a wave, written as ` T=V`.
#[derive(Clone, Copy)]
pub(crate) struct ChangeText {
    pub(crate) time: u32,
    pub(crate) value: u64,
}

impl Piece for ChangeText {
    ghost text = { λ change. change_text (change.time, change.value) };

    #[inline(always)]
    #[tactic(auto, using(crate::proofs::lemmas::lexing::DecimalLemmas::changepiece_write_steps))]
    fn write(&self, room: &mut [u8], at: usize) -> usize {
        room[at] = b' ';
        let sign = write_number(u64::from(self.time), room, at + 1);
        room[sign] = b'=';
        write_number(self.value, room, sign + 1)
    }
}

/// Writes the number in decimal digits into the room from `at` on, and returns the index after them. For most times and levels the number of digits
/// is known.
#[inline(always)]
#[tactic(auto, using(crate::proofs::lemmas::lexing::DecimalLemmas::few_digits))]
pub(crate) fn write_number(number: u64, room: &mut [u8], at: usize) -> usize
    requires { at + 20 ≤ length room.old }
    ensures placed { IsPlaced room.old room.new at (decimal number) result }
    ensures short { result ≤ at + 20 }
{
    match number {
        1_000..=9_999 => write_counted(number, 4, room, at),
        10_000..=99_999 => write_counted(number, 5, room, at),
        100_000..=999_999 => write_counted(number, 6, room, at),
        _ => write_any(number, room, at),
    }
}

/// Writes a number whose digits have to be counted first into the room from `at` on, and returns the index after them.
fn write_any(number: u64, room: &mut [u8], at: usize) -> usize
    requires { at + 20 ≤ length room.old }
    ensures placed { IsPlaced room.old room.new at (decimal number) result }
    ensures short { result ≤ at + 20 }
{
    write_counted(number, digit_count(number), room, at)
}

/// Writes a number with this number of decimal digits into the room from `at` on, and returns the index after them.
#[inline(always)]
fn write_counted(number: u64, digits: usize, room: &mut [u8], at: usize) -> usize
    requires count { digits ≡ length (decimal number) }
    requires within { at + digits ≤ length room.old }
    ensures { IsPlaced room.old room.new at (decimal number) result }
{
    let end = at + digits;
    write_digits(number, room, end);
    end
}

/// The number of decimal digits. Times and most values have few, and as many as the number before.
#[inline]
#[tactic(auto, using(std::proofs::lemmas::Fmt::decimal_digit, crate::proofs::lemmas::lexing::DecimalLemmas::few_digits, crate::proofs::lemmas::lexing::DecimalLemmas::digits_of_power))]
fn digit_count(number: u64) -> usize
    ensures value { result ≡ length (decimal number) }
    ensures short { result ≤ 20 }
{
    match number {
        0..=9 => 1,
        10..=99 => 2,
        100..=999 => 3,
        1_000..=9_999 => 4,
        10_000..=99_999 => 5,
        _ => number.ilog10() as usize + 1,
    }
}
