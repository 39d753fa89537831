//! The outputs of a module that toggle in a unit.

/// Which output ports toggle in a unit.
#[derive(Clone, Copy)]
pub struct Toggles {
    pub first: bool,
    pub second: bool,
    pub third: bool,
}

impl Toggles {
    ghost use Rattle.std.specs.Prelude.{◌≡◌, ◌<◌};
    ghost use Rattle.mp_modules.specs.automata.Codes.{toggles_code};

    /// The sum of their bits: 1 for the first output, 2 for the second and 4 for the third.
    pub(crate) fn code(self) -> u8
        ensures value { result ≡ toggles_code self }
        ensures low { result < 8 }
    {
        u8::from(self.first) + u8::from(self.second) * 2 + u8::from(self.third) * 4
    }
}
