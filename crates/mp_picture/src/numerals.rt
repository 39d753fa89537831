//! How levels are written.
ghost use Rattle.std.specs.Prelude.{◌≡◌};
ghost use Rattle.mp_picture.specs.Levels.{base_of, prefix_of};

/// How levels are written: in decimal digits, or in hex digits behind `0x`.
#[derive(Clone, Copy, PartialEq, Eq)]
pub enum Numerals {
    Decimal,
    Hex,
}

impl Numerals {
    ghost use Rattle.std.specs.Prelude.{◌≡◌, ◌≤◌};
    ghost use Rattle.mp_picture.specs.Levels.{base_of, prefix_of};

    /// How many digits there are.
    pub(crate) fn base(self) -> u64
        ensures value { result ≡ base_of self }
        ensures some { 2 ≤ result }
        ensures few { result ≤ 16 }
    {
        match self {
            Numerals::Decimal => 10,
            Numerals::Hex => 16,
        }
    }

    /// The prefix before the digits.
    pub(crate) fn prefix(self) -> &'static str
        ensures { result.now ≡ prefix_of self }
    {
        match self {
            Numerals::Decimal => "",
            Numerals::Hex => "0x",
        }
    }
}
