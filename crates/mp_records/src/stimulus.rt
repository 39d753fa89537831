//! What sets a wire from outside.
ghost use Rattle.std.specs.Prelude.{◌≡◌};

use std::alloc::AllocError;
use std::marker::Model;

/// The times at which a wire is set from outside, in units, and the level from then on.
#[derive(Drop)]
pub struct Stimulus {
    pairs: Vec<(u32, u64)>,
}

impl Model for Stimulus {
    ghost use Rattle.std.specs.Prelude.{List, ℕ};

    ghost Value = { List (ℕ × ℕ) };

    ghost view = { λ stimulus. stimulus.pairs.items };
}

impl Clone for Stimulus {
    ghost is_clone = { λ old new. new ≡ old };

    fn clone(&self) -> Result<Self, AllocError> {
        Ok(Stimulus {
            pairs: Vec::from_slice(*self.pairs.allocator(), self.pairs.as_slice())?,
        })
    }
}

impl Stimulus {
    /// A stimulus of these times and levels.
    pub fn new(pairs: Vec<(u32, u64)>) -> Self
        ensures { result ≡ pairs.items }
    {
        Stimulus { pairs }
    }

    /// The times and levels, in order.
    pub fn as_slice(&self) -> &[(u32, u64)]
        ensures { result.now ≡ self.now }
    {
        self.pairs.as_slice()
    }
}
