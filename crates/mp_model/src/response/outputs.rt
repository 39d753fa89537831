//! The outputs of a module over a span of time.

use crate::response::changes::Changes;
use mp_modules::{MOST_OUTPUTS, Memory};
use std::alloc::{AllocError, Global};
use std::marker::Model;

/// The changes of each output, by port. They are kept in place, without a block of memory of their own.
#[derive(Drop)]
pub struct Outputs {
    count: usize,
    places: [Changes; MOST_OUTPUTS],
}

impl Model for Outputs {
    ghost use Rattle.std.specs.Prelude.{◌≡◌, ℕ, List, ◌≤◌, take, length};

    ghost Value = { List (List (ℕ × ℕ)) };

    ghost view = { λ outputs. take outputs.count outputs.places };

    ghost invariant = { λ outputs. (outputs.count ≤ 3) × (length outputs.places ≡ 3) };
}

impl Outputs {
    ghost use Rattle.std.specs.Prelude.{◌≡◌, ℕ, ◌<◌, ◌≤◌, [], OnOk, length, slice_index_or};
    ghost use Rattle.mp_modules.specs.Memories.{output_of};
    ghost use Rattle.mp_model.specs.response.Span.{extended};

    /// This number of outputs without changes. It takes no memory.
    pub fn none(alloc: Global, count: usize) -> Self
        requires { count ≤ MOST_OUTPUTS }
        ensures ports { length result ≡ count }
        ensures empty { (p : ℕ) → slice_index_or result p [] ≡ [] }
    {
        Outputs {
            count,
            places: [
                Changes::none(alloc),
                Changes::none(alloc),
                Changes::none(alloc),
            ],
        }
    }

    /// The changes of each port.
    pub fn ports(&self) -> &[Changes]
        ensures { result.now ≡ self.now }
    {
        &self.places[..self.count]
    }

    /// One more unit, from the state before it to the state after.
    pub(crate) fn extend(
        &mut self,
        time: u32,
        before: &Memory,
        now: &Memory,
    ) -> Result<(), AllocError>
        ensures ports { OnOk result (length self.new ≡ length self.old) }
        ensures each { OnOk result ((p : ℕ) → p < length self.old → slice_index_or self.new p [] ≡ extended (slice_index_or self.old p []) time (output_of before.now p) (output_of now.now p)) }
    {
        for port in 0..self.count {
            let changes = &mut self.places[port];
            changes.extend(time, before.output(port), now.output(port))?;
        }
        Ok(())
    }
}
