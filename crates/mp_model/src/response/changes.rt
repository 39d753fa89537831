//! The changes of a level.

use std::alloc::{AllocError, Global};
use std::marker::Model;

/// Pairs of a time and the level from then on.
#[derive(Drop)]
pub struct Changes {
    items: Vec<(u32, u64)>,
}

impl Model for Changes {
    ghost use Rattle.std.specs.Prelude.{ℕ, List};

    ghost Value = { List (ℕ × ℕ) };

    ghost view = { λ changes. changes.items.items };
}

impl Changes {
    ghost use Rattle.std.specs.Prelude.{◌≡◌, ◌++◌, ◌∷◌, [], OnOk, OnErr};
    ghost use Rattle.mp_model.specs.response.Span.{extended};

    /// No changes. It takes no memory.
    pub fn none(alloc: Global) -> Self
        ensures { result ≡ [] }
    {
        Changes {
            items: Vec::new(alloc),
        }
    }

    /// These changes.
    pub fn from_vec(items: Vec<(u32, u64)>) -> Self
        ensures { result ≡ items.items }
    {
        Changes { items }
    }

    /// The list that they are.
    pub fn into_vec(self) -> Vec<(u32, u64)>
        ensures { result.items ≡ self }
    {
        let Changes { items } = self;
        items
    }

    pub fn as_slice(&self) -> &[(u32, u64)]
        ensures { result.now ≡ self.now }
    {
        self.items.as_slice()
    }

    fn push(&mut self, time: u32, level: u64) -> Result<(), AllocError>
        ensures ok { OnOk result (self.new ≡ self.old ++ (time, level) ∷ []) }
        ensures err { OnErr result (self.new ≡ self.old) }
    {
        self.items.push((time, level))?;
        Ok(())
    }

    /// One more unit, of an output with one level before it and one after. The level at time 0 counts as a change.
    pub(crate) fn extend(&mut self, time: u32, before: u64, now: u64) -> Result<(), AllocError>
        ensures ok { OnOk result (self.new ≡ extended self.old time before now) }
    {
        if time == 0 {
            self.push(time, now)
        } else if before == now {
            Ok(())
        } else {
            self.push(time, now)
        }
    }
}
