//! Values in blocks of memory of their own.
ghost use Rattle.std.specs.Prelude.{◌≡◌, IfOk};

use std::alloc::{AllocError, Global};
use std::marker::Model;
use std::sync::Arc;

/// A value in a block of memory of its own, so that the owner stays small. Contracts see the value.
#[derive(Drop)]
pub struct Boxed<T> {
    inner: Arc<T, Global>,
}

impl<T> Model for Boxed<T> {
    ghost use Rattle.std.specs.Arc.{arc_value};

    ghost Value = { T };

    ghost coded = { T.code };

    ghost view = { λ boxed. arc_value boxed.inner };
}

impl<T: Drop> Boxed<T> {
    /// This value in a block of its own. `AllocError` comes if memory runs out.
    pub fn new(alloc: Global, value: T) -> Result<Self, AllocError>
        ensures { IfOk result (λ boxed. boxed ≡ value) }
    {
        Ok(Boxed {
            inner: Arc::new(alloc, value)?,
        })
    }
}

impl<T> Boxed<T> {
    /// The value.
    pub fn get(&self) -> &T
        ensures { result.now ≡ self.now }
    {
        &self.inner
    }
}
