//! Who made the edits of a version, as a list that readers take.
ghost use Rattle.std.specs.Prelude.{◌≡◌};

use std::alloc::{AllocError, Global};
use std::marker::Model;
use std::sync::Arc;

/// The number of the designer who made each edit of a version, in order; 0 for an edit that is older than the desk. Copies share the list. A contract
/// sees the list.
#[derive(Drop)]
pub struct EditAuthors {
    numbers: Arc<Vec<usize>, Global>,
}

impl Model for EditAuthors {
    ghost use Rattle.std.specs.Prelude.{ℕ, List};
    ghost use Rattle.std.specs.Arc.{arc_value};

    ghost Value = { List ℕ };

    ghost view = { λ authors. (arc_value authors.numbers).items };
}

impl EditAuthors {
    ghost use Rattle.std.specs.Prelude.{◌≡◌, ◌++◌, ◌∷◌, [], replicate, IfOk};

    /// Nobody at the desk made this many edits.
    pub(crate) fn unsigned(alloc: Global, count: u32) -> Result<EditAuthors, AllocError>
        ensures { IfOk result (λ authors. authors ≡ replicate count 0) }
    {
        let mut numbers = Vec::new(alloc);
        numbers.resize(count as usize, 0usize)?;
        Ok(EditAuthors {
            numbers: Arc::new(alloc, numbers)?,
        })
    }

    /// These, and behind them one more.
    pub(crate) fn followed_by(&self, author: usize) -> Result<EditAuthors, AllocError>
        ensures { IfOk result (λ authors. authors ≡ self.now ++ author ∷ []) }
    {
        let alloc = *self.numbers.allocator();
        let before = self.as_slice();
        let mut numbers = Vec::with_capacity(alloc, before.len().saturating_add(1))?;
        numbers.extend_from_slice(before)?;
        numbers.push(author)?;
        Ok(EditAuthors {
            numbers: Arc::new(alloc, numbers)?,
        })
    }

    /// The same list once more.
    pub(crate) fn try_copy(&self) -> Result<EditAuthors, AllocError>
        ensures { IfOk result (λ authors. authors ≡ self.now) }
    {
        Ok(EditAuthors {
            numbers: Arc::try_clone(&self.numbers)?,
        })
    }

    /// The numbers.
    pub fn as_slice(&self) -> &[usize]
        ensures { result.now ≡ self.now }
    {
        self.numbers.as_slice()
    }
}
