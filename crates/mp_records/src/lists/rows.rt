//! Rows of numbers.
ghost use Rattle.std.specs.Prelude.{◌≡◌, ◌<◌, ◌++◌, ◌∷◌, [], OnOk, OnErr, slice_index_or, slice_set, vec_len};
ghost use Rattle.std.specs.Arc.{arc_value};

use crate::lists::kept::Kept;
use std::alloc::{AllocError, Global};
use std::marker::Model;
use std::sync::Arc;

/// Numbers in a row. Contracts see them as a list.
#[derive(Drop)]
pub struct Row {
    numbers: Vec<u32>,
}

impl Model for Row {
    ghost use Rattle.std.specs.Prelude.{List, ℕ};

    ghost Value = { List ℕ };

    ghost view = { λ row. row.numbers.items };
}

impl Clone for Row {
    ghost use Rattle.std.specs.Prelude.{◌≡◌};

    ghost is_clone = { λ old new. new ≡ old };

    /// The same numbers once more.
    fn clone(&self) -> Result<Self, AllocError> {
        Ok(Row {
            numbers: Vec::from_slice(*self.numbers.allocator(), self.numbers.as_slice())?,
        })
    }
}

impl Kept for Row {
    ghost use Rattle.std.specs.Prelude.{◌≡◌};

    ghost clones_equal = { λ old new same. same };
}

impl Row {
    ghost use Rattle.std.specs.Prelude.{◌≡◌, ◌++◌, ◌∷◌, [], OnOk, OnErr};

    /// No numbers.
    pub fn new(alloc: Global) -> Row
        ensures { result ≡ [] }
    {
        Row {
            numbers: Vec::new(alloc),
        }
    }

    /// The numbers, in order.
    pub fn as_slice(&self) -> &[u32]
        ensures { result.now ≡ self.now }
    {
        self.numbers.as_slice()
    }

    /// Adds a number at the end.
    pub(crate) fn push(&mut self, number: u32) -> Result<(), AllocError>
        ensures ok { OnOk result (self.new ≡ self.old ++ number ∷ []) }
        ensures err { OnErr result (self.new ≡ self.old) }
    {
        self.numbers.push(number)?;
        Ok(())
    }
}

/// Adds a number at the end of a row, in a copy where others look there too.
pub(crate) fn push_number_in(
    rows: &mut Arc<Vec<Row>, Global>,
    place: usize,
    number: u32,
) -> Result<(), AllocError>
    requires { place < vec_len (arc_value rows.old) }
    ensures ok { OnOk result ((arc_value rows.new).items ≡ slice_set (arc_value rows.old).items place (slice_index_or (arc_value rows.old).items place [] ++ number ∷ [])) }
    ensures err { OnErr result ((arc_value rows.new).items ≡ (arc_value rows.old).items) }
{
    push_number_to(Arc::make_mut(rows)?, place, number)
}

/// Adds a number at the end of a row.
fn push_number_to(rows: &mut Vec<Row>, place: usize, number: u32) -> Result<(), AllocError>
    requires { place < vec_len rows.old }
    ensures ok { OnOk result (rows.new.items ≡ slice_set rows.old.items place (slice_index_or rows.old.items place [] ++ number ∷ [])) }
    ensures err { OnErr result (rows.new.items ≡ rows.old.items) }
{
    rows[place].push(number)
}
