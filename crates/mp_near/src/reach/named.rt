//! What an edit may change, by the names in it.
ghost use Rattle.std.specs.Prelude.{◌≡◌, ℕ, ◌<◌, ◌≤◌, true, false, Ok, Some, IfOk, length};
ghost use Rattle.std.specs.Option.{option_copied};
ghost use Rattle.mp_records.specs.declared.module_record.ModuleRecord.{ModuleRecord as Part};
ghost use Rattle.mp_records.specs.declared.wire_record.WireRecord.{WireRecord as Line};
ghost use Rattle.mp_netlist.specs.Circuit.{module_at, wire_at};
ghost use Rattle.mp_netlist.specs.Edits.{after};
ghost use Rattle.mp_partition.specs.runs.Marks.{is_marked};
ghost use Rattle.mp_near.specs.reach.Marks.{AreGrown};
ghost use Rattle.mp_near.specs.reach.Named.{edits_in, module_changed_by, wire_changed_by};
ghost use Rattle.mp_near.specs.reach.Reach.{IsSetSame};

use crate::reach::ports::mark;
use mp_netlist::{Edit, Name, Netlist, SingleEdit};
use std::alloc::{AllocError, Global};
use std::slice;

/// A mark for each module that doesn't exist in both netlists with the same record, and for each other whose name is in the edit.
pub(crate) fn named_modules(
    alloc: Global,
    old: &Netlist,
    edit: &Edit,
    new: &Netlist,
) -> Result<Vec<bool>, AllocError>
    requires { after old.now edit.now ≡ Ok new.now }
    ensures places { IfOk result (λ marks. length marks.items ≡ length new.now.modules) }
    ensures same { IfOk result (λ marks. (m : ℕ) → m < length new.now.modules → is_marked marks.items m ≡ false → module_at old.now m ≡ module_at new.now m) }
{
    let mut marks = marks_from(alloc, old.module_slots(), new.module_slots())?;
    let edits = edits_of(edit);
    for place in 0..edits.len() {
        mark_module(old, &edits[place], &mut marks);
    }
    Ok(marks)
}

/// A mark for each wire that doesn't exist in both netlists with the same stimulus, and for each other whose name is in the edit.
pub(crate) fn named_wires(
    alloc: Global,
    old: &Netlist,
    edit: &Edit,
    new: &Netlist,
) -> Result<Vec<bool>, AllocError>
    requires { after old.now edit.now ≡ Ok new.now }
    ensures places { IfOk result (λ marks. length marks.items ≡ length new.now.wires) }
    ensures same { IfOk result (λ marks. (w : ℕ) → w < length new.now.wires → is_marked marks.items w ≡ false → IsSetSame old.now new.now w) }
{
    let mut marks = marks_from(alloc, old.wire_slots(), new.wire_slots())?;
    let edits = edits_of(edit);
    for place in 0..edits.len() {
        mark_wire(old, &edits[place], &mut marks);
    }
    Ok(marks)
}

/// So many marks, set from a number on.
fn marks_from(alloc: Global, first: u32, count: u32) -> Result<Vec<bool>, AllocError>
    ensures places { IfOk result (λ marks. length marks.items ≡ count) }
    ensures marked { IfOk result (λ marks. (k : ℕ) → first ≤ k → k < count → is_marked marks.items k ≡ true) }
{
    let mut marks = vec![in alloc; false; count as usize]?;
    for number in first..count {
        mark(&mut marks, number);
    }
    Ok(marks)
}

/// The edits of one thing that an edit consists of.
fn edits_of(edit: &Edit) -> &[SingleEdit]
    ensures { result.now ≡ edits_in edit.now }
{
    match edit {
        Edit::Single(single) => slice::from_ref(single),
        Edit::Batch(batch) => batch.as_slice(),
    }
}

/// Marks the module that an edit changes or removes.
fn mark_module(old: &Netlist, edit: &SingleEdit, marks: &mut Vec<bool>)
    ensures grown { AreGrown marks.old.items marks.new.items }
    ensures named { (m : ℕ) (r : Part) → module_at old.now m ≡ Some r → module_changed_by edit.now ≡ Some r.name → m < length marks.old.items → is_marked marks.new.items m ≡ true }
{
    // Its contract says that the netlist is well formed.
    let _horizon = old.horizon();
    if let Some(name) = module_changed(edit) {
        if let Some(id) = old.module_named(name.as_str()) {
            mark(marks, id.0);
        }
    }
}

/// Marks the wire that an edit removes, or whose stimulus it changes.
fn mark_wire(old: &Netlist, edit: &SingleEdit, marks: &mut Vec<bool>)
    ensures grown { AreGrown marks.old.items marks.new.items }
    ensures named { (w : ℕ) (r : Line) → wire_at old.now w ≡ Some r → wire_changed_by edit.now ≡ Some r.name → w < length marks.old.items → is_marked marks.new.items w ≡ true }
{
    // Its contract says that the netlist is well formed.
    let _horizon = old.horizon();
    if let Some(name) = wire_changed(edit) {
        if let Some(id) = old.wire_named(name.as_str()) {
            mark(marks, id.0);
        }
    }
}

/// The name of the module that an edit removes, or whose ports it changes.
fn module_changed(edit: &SingleEdit) -> Option<&Name>
    ensures { option_copied result ≡ module_changed_by edit.now }
{
    match edit {
        SingleEdit::RemoveModule { module } => Some(module),
        SingleEdit::RewireInput { module, .. } => Some(module),
        SingleEdit::RewireOutput { module, .. } => Some(module),
        SingleEdit::SetInputDelay { module, .. } => Some(module),
        SingleEdit::SetDelay { module, .. } => Some(module),
        _ => None,
    }
}

/// The name of the wire that an edit removes, or whose stimulus it changes.
fn wire_changed(edit: &SingleEdit) -> Option<&Name>
    ensures { option_copied result ≡ wire_changed_by edit.now }
{
    match edit {
        SingleEdit::RemoveWire { wire } => Some(wire),
        SingleEdit::SetStimulus { wire, .. } => Some(wire),
        SingleEdit::ClearStimulus { wire } => Some(wire),
        _ => None,
    }
}
