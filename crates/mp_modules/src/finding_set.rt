//! Sets of findings.

use crate::finding_code::FindingCode;

/// The number of codes.
pub const CODES: usize = 14;

/// A set of codes: for each code, at the index of its number less 1, whether it is present.
#[derive(Clone, Copy, PartialEq, Eq)]
pub struct FindingSet {
    pub present: [bool; CODES],
}

impl FindingSet {
    ghost use Rattle.std.specs.Prelude.{◌≡◌};
    ghost use Rattle.mp_modules.specs.Findings.{no_findings, has_code, with_code, with_code_if};

    /// No code.
    pub fn empty() -> Self
        ensures { result ≡ no_findings }
    {
        FindingSet {
            present: [false; CODES],
        }
    }

    /// Whether the code is present.
    pub fn contains(self, code: FindingCode) -> bool
        ensures { result ≡ has_code self code }
    {
        self.present[code.number() as usize - 1]
    }

    /// The set with the code too.
    pub fn with(mut self, code: FindingCode) -> Self
        ensures { result ≡ with_code code self }
    {
        let place = code.number() as usize - 1;
        self.present[place] = true;
        self
    }

    /// The set, with the code too if `found` is true.
    pub fn with_if(self, code: FindingCode, found: bool) -> Self
        ensures { result ≡ with_code_if code found self }
    {
        if found { self.with(code) } else { self }
    }
}
