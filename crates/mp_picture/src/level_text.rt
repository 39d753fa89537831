//! The text of a level.
ghost use Rattle.std.specs.Prelude.{◌≡◌, ◌<◌, ◌≤◌, false, drop};
ghost use Rattle.std.specs.Fmt.{digits, digit_glyph};

use crate::numerals::Numerals;
use mp_streams::{Failed, Out, Sink, Text};

/// The text of a level: its digits, and the prefix before them.
#[derive(Clone, Copy)]
pub(crate) struct LevelText {
    prefix: &'static str,
    digits: [u8; 64],
    /// The index of the first digit in `digits`.
    start: usize,
    ghost within: { start ≤ 64 },
}

impl LevelText {
    ghost use Rattle.std.specs.Prelude.{◌≡◌, length};
    ghost use Rattle.mp_picture.specs.Levels.{level_text, shown, digits_shown};

    /// The text of a level in these numerals.
    pub(crate) fn new(numerals: Numerals, level: u64) -> LevelText
        ensures { shown result ≡ level_text numerals level }
    {
        let mut digits = [0; 64];
        let start = put_digits(level, numerals.base(), &mut digits);
        let prefix = numerals.prefix();
        LevelText {
            prefix,
            digits,
            start,
        }
    }

    /// How many characters it has.
    pub(crate) fn len(&self) -> usize
        ensures { result ≡ length (shown self.now) }
    {
        self.prefix.len() + self.digits().len()
    }

    /// The prefix before the digits.
    pub(crate) fn prefix(&self) -> &'static str
        ensures { result.now ≡ self.now.prefix.now }
    {
        self.prefix
    }

    /// The digits.
    pub(crate) fn digits(&self) -> &[u8]
        ensures { result.now ≡ digits_shown self.now }
    {
        let all = &self.digits[..];
        &all[self.start..]
    }
}

impl Text for LevelText {
    ghost use Rattle.mp_picture.specs.Levels.{shown};

    ghost text = { λ level. shown level };

    fn put_to<S: Sink>(&self, out: &mut Out<S>) -> Result<(), Failed> {
        (self.prefix, self.digits()).put_to(out)
    }
}

/// Writes the digits of a number to the end of some bytes, and returns the index of the first one.
fn put_digits(number: u64, base: u64, bytes: &mut [u8; 64]) -> usize
    requires some { 2 ≤ base }
    requires few { base ≤ 16 }
    ensures within { result ≤ 64 }
    ensures value { drop result bytes.new ≡ digits base false number }
{
    let mut place = 64;
    let mut rest = number;
    while place > 0 {
        place -= 1;
        bytes[place] = digit(rest % base);
        rest /= base;
        if rest == 0 {
            break;
        }
    }
    place
}

/// The character of a digit.
fn digit(value: u64) -> u8
    requires { value < 16 }
    ensures { result ≡ digit_glyph false value }
{
    let low = value as u8;
    if low < 10 {
        b'0' + low
    } else {
        b'a' + (low - 10)
    }
}
