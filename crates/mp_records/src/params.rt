//! The parameters of a module.
ghost use Rattle.std.specs.Prelude.{◌≡◌};

use std::alloc::AllocError;
use std::marker::Model;

/// The parameters of a module, in the order of its kind.
#[derive(Drop)]
pub struct Params {
    numbers: Vec<u64>,
}

impl Model for Params {
    ghost use Rattle.std.specs.Prelude.{List, ℕ};

    ghost Value = { List ℕ };

    ghost view = { λ params. params.numbers.items };
}

impl Clone for Params {
    ghost is_clone = { λ old new. new ≡ old };

    fn clone(&self) -> Result<Self, AllocError> {
        Ok(Params {
            numbers: Vec::from_slice(*self.numbers.allocator(), self.numbers.as_slice())?,
        })
    }
}

impl Params {
    /// Parameters of these numbers.
    pub fn new(numbers: Vec<u64>) -> Self
        ensures { result ≡ numbers.items }
    {
        Params { numbers }
    }

    /// The numbers, in order.
    pub fn as_slice(&self) -> &[u64]
        ensures { result.now ≡ self.now }
    {
        self.numbers.as_slice()
    }
}
