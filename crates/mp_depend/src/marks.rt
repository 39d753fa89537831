//! Marks of modules, by number.
ghost use Rattle.std.specs.Prelude.{◌≡◌, ◌≢◌, ℕ, ◌<◌, true, IfOk, length};
ghost use Rattle.std.specs.List.{Contains};
ghost use Rattle.mp_partition.specs.runs.Marks.{is_marked};

use mp_netlist::ModuleId;
use std::alloc::{AllocError, Global};

/// This number of marks, of which those of the given modules are set.
pub fn marks_of(alloc: Global, count: u32, ids: &[ModuleId]) -> Result<Vec<bool>, AllocError>
    ensures places { IfOk result (λ marks. length marks.items ≡ count) }
    ensures marked { IfOk result (λ marks. (m : ℕ) → is_marked marks.items m ≡ true → Contains ids.now (record { 0 = m })) }
    ensures all { IfOk result (λ marks. (m : ℕ) → m < count → Contains ids.now (record { 0 = m }) → is_marked marks.items m ≡ true) }
{
    let mut marks = vec![in alloc; false; count as usize]?;
    for id in ids {
        set_mark(&mut marks, *id);
    }
    Ok(marks)
}

/// Sets the mark of a module, if it has one.
fn set_mark(marks: &mut Vec<bool>, id: ModuleId)
    ensures places { length marks.new.items ≡ length marks.old.items }
    ensures here { id.0 < length marks.old.items → is_marked marks.new.items id.0 ≡ true }
    ensures others { (m : ℕ) → m ≢ id.0 → is_marked marks.new.items m ≡ is_marked marks.old.items m }
{
    let m = id.0 as usize;
    if m < marks.len() {
        marks[m] = true;
    }
}
