//! Marks by number.
ghost use Rattle.std.specs.Prelude.{◌≡◌, ℕ, false, length, IfOk};
ghost use Rattle.mp_partition.specs.runs.Marks.{is_marked};

use std::alloc::{AllocError, Global};

/// This number of places, none of which is marked.
pub(crate) fn no_marks(alloc: Global, count: u32) -> Result<Vec<bool>, AllocError>
    ensures places { IfOk result (λ marks. length marks.items ≡ count) }
    ensures none { IfOk result (λ marks. (m : ℕ) → is_marked marks.items m ≡ false) }
{
    let mut marks = Vec::new(alloc);
    for _place in 0..count {
        marks.push(false)?;
    }
    Ok(marks)
}
