//! What `check` reports besides findings.
ghost use Rattle.std.specs.Prelude.{◌≡◌};
ghost use Rattle.mp_request.specs.explain.CheckWords.{word_of};

/// What a line of `check` reports that isn't a finding. The last four are notes: three on wires, and one on bundles.
#[derive(Clone, Copy, PartialEq, Eq)]
pub enum CheckWord {
    /// Data of a bundle come after their request.
    Late,
    /// Modules wait for each other, and will for ever.
    Deadlock,
    /// A wire changes at once from its declared level.
    Becomes,
    /// Nothing drives a wire.
    Undriven,
    /// Nothing reads a stimulus.
    Unread,
    /// Nobody ended a bundle's transfer.
    Busy,
}

impl CheckWord {
    /// The word by which it is explained.
    pub fn word(self) -> &'static str
        ensures { result.now ≡ word_of self }
    {
        match self {
            CheckWord::Late => "late",
            CheckWord::Deadlock => "deadlock",
            CheckWord::Becomes => "becomes",
            CheckWord::Undriven => "undriven",
            CheckWord::Unread => "unread",
            CheckWord::Busy => "busy",
        }
    }
}
