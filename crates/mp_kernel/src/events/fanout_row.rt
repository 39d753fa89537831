//! The inputs that read one wire.

use crate::events::fanout_entry::FanoutEntry;
use smallvec::SmallVec;
use std::alloc::{AllocError, Global};
use std::marker::Model;

/// This number of inputs is kept in place. Most wires have no more readers.
const IN_PLACE: usize = 2;

/// The inputs of modules of width 1 that read one wire.
#[derive(Drop)]
pub struct FanoutRow {
    entries: SmallVec<FanoutEntry, IN_PLACE>,
}

impl Model for FanoutRow {
    ghost use Rattle.std.specs.Prelude.{List};
    ghost use Rattle.mp_kernel.specs.declared.events.fanout_entry.FanoutEntry.{FanoutEntry};

    ghost Value = { List FanoutEntry };

    ghost view = { λ row. row.entries.items };
}

impl FanoutRow {
    ghost use Rattle.std.specs.Prelude.{◌≡◌, ◌++◌, ◌∷◌, [], OnOk};

    /// A row without inputs. It takes no memory.
    pub fn new(alloc: Global) -> Self
        ensures { result ≡ [] }
    {
        FanoutRow {
            entries: SmallVec::new(alloc),
        }
    }

    /// The inputs, in the order in which they were pushed.
    pub fn as_slice(&self) -> &[FanoutEntry]
        ensures { result.now ≡ self.now }
    {
        self.entries.as_slice()
    }

    /// Adds an input that reads the wire.
    pub fn push(&mut self, entry: FanoutEntry) -> Result<(), AllocError>
        ensures { OnOk result (self.new ≡ self.old ++ entry ∷ []) }
    {
        self.entries.push(entry)?;
        Ok(())
    }
}
