//! The edits of a batch.
ghost use Rattle.std.specs.Prelude.{◌≡◌};

use crate::single_edit::SingleEdit;
use std::marker::Model;

/// Edits that are made one after the other, as one edit. A batch may have any number of them; a netlist refuses a batch with none or too many.
#[derive(Drop)]
pub struct Batch {
    edits: Vec<SingleEdit>,
}

impl Model for Batch {
    ghost use Rattle.std.specs.Prelude.{List};
    ghost use Rattle.mp_records.specs.declared.single_edit.SingleEdit.{SingleEdit};

    ghost Value = { List SingleEdit };

    ghost view = { λ batch. batch.edits.items };
}

impl Batch {
    /// A batch of these edits, the first being made first.
    pub fn new(edits: Vec<SingleEdit>) -> Self
        ensures { result ≡ edits.items }
    {
        Batch { edits }
    }

    /// The edits, in order.
    pub fn as_slice(&self) -> &[SingleEdit]
        ensures { result.now ≡ self.now }
    {
        self.edits.as_slice()
    }
}
