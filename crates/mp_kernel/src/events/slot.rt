//! A slot of a wheel.

use std::alloc::{AllocError, Global};
use std::marker::Model;

/// What happens in one unit: the wires that toggle, or the levels that wires with data get.
#[derive(Drop)]
pub struct Slot<E: Copy> {
    entries: Vec<E>,
}

impl<E: Copy> Model for Slot<E> {
    ghost use Rattle.std.specs.Prelude.{List};

    ghost Value = { List E };

    ghost view = { λ slot. slot.entries.items };
}

impl<E: Copy> Slot<E> {
    ghost use Rattle.std.specs.Prelude.{◌≡◌, ◌↔◌, ◌++◌, ◌∷◌, [], IsTrue, OnOk};

    /// A slot in which nothing happens. It takes no memory.
    pub fn new(alloc: Global) -> Slot<E>
        ensures { result ≡ [] }
    {
        Slot {
            entries: Vec::new(alloc),
        }
    }

    /// The entries, in the order in which they were pushed.
    #[inline(always)]
    pub fn as_slice(&self) -> &[E]
        ensures { result.now ≡ self.now }
    {
        self.entries.as_slice()
    }

    /// Whether nothing happens.
    #[inline(always)]
    pub(crate) fn is_empty(&self) -> bool
        ensures { IsTrue result ↔ self.now ≡ [] }
    {
        self.entries.is_empty()
    }

    /// Adds an entry.
    #[inline(always)]
    pub fn push(&mut self, entry: E) -> Result<(), AllocError>
        ensures { OnOk result (self.new ≡ self.old ++ entry ∷ []) }
    {
        self.entries.push(entry)?;
        Ok(())
    }

    /// Adds these entries.
    #[inline(always)]
    pub fn extend_from_slice(&mut self, entries: &[E]) -> Result<(), AllocError>
        ensures { OnOk result (self.new ≡ self.old ++ entries.now) }
    {
        if entries.is_empty() {
            return Ok(());
        }
        self.entries.extend_from_slice(entries)?;
        Ok(())
    }

    /// Empties the slot. It keeps its memory.
    #[inline(always)]
    pub fn clear(&mut self)
        ensures { self.new ≡ [] }
    {
        self.entries.clear();
    }
}
