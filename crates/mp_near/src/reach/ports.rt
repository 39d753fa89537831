//! Marks on the wires at a module's ports.
ghost use Rattle.std.specs.Prelude.{◌≡◌, ◌⊎◌, ℕ, ◌<◌, true, false, Some, length};
ghost use Rattle.std.specs.List.{list_any};
ghost use Rattle.mp_records.specs.declared.ports.Input.{Input as Entry};
ghost use Rattle.mp_records.specs.Inputs.{input_in};
ghost use Rattle.mp_records.specs.Outputs.{output_in};
ghost use Rattle.mp_netlist.specs.Circuit.{Drives};
ghost use Rattle.mp_partition.specs.runs.Marks.{is_marked};
ghost use Rattle.mp_partition.specs.regions.Readers.{Reads};
ghost use Rattle.mp_near.specs.reach.Marks.{AreGrown};
ghost use Rattle.mp_near.specs.reach.Reach.{ReadsNone};

use mp_netlist::{Input, ModuleId, Netlist, Output};

/// Marks the wires that a module drives, if it exists.
pub(crate) fn mark_outputs(netlist: &Netlist, id: ModuleId, marks: &mut Vec<bool>)
    ensures grown { AreGrown marks.old.items marks.new.items }
    ensures driven { (p w : ℕ) → Drives netlist.now id.0 p w → w < length marks.old.items → is_marked marks.new.items w ≡ true }
    ensures only { (w : ℕ) → is_marked marks.new.items w ≡ true → (is_marked marks.old.items w ≡ true) ⊎ ((p : ℕ) × Drives netlist.now id.0 p w) }
{
    if let Some(found) = netlist.module(id) {
        mark_driven(found.outputs.as_slice(), marks);
    }
}

fn mark_driven(outputs: &[Output], marks: &mut Vec<bool>)
    ensures grown { AreGrown marks.old.items marks.new.items }
    ensures driven { (p w : ℕ) → (output_in outputs.now p).wire ≡ Some (record { 0 = w }) → w < length marks.old.items → is_marked marks.new.items w ≡ true }
    ensures only { (w : ℕ) → is_marked marks.new.items w ≡ true → (is_marked marks.old.items w ≡ true) ⊎ ((p : ℕ) × ((output_in outputs.now p).wire ≡ Some (record { 0 = w }))) }
{
    for output in outputs {
        mark_output(*output, marks);
    }
}

fn mark_output(output: Output, marks: &mut Vec<bool>)
    ensures grown { AreGrown marks.old.items marks.new.items }
    ensures driven { (w : ℕ) → output.wire ≡ Some (record { 0 = w }) → w < length marks.old.items → is_marked marks.new.items w ≡ true }
    ensures only { (w : ℕ) → is_marked marks.new.items w ≡ true → (is_marked marks.old.items w ≡ true) ⊎ (output.wire ≡ Some (record { 0 = w })) }
{
    if let Some(wire) = output.wire {
        mark(marks, wire.0);
    }
}

/// Marks the wires that a module reads, if it exists.
pub(crate) fn mark_inputs(netlist: &Netlist, id: ModuleId, marks: &mut Vec<bool>)
    ensures grown { AreGrown marks.old.items marks.new.items }
    ensures read { (w : ℕ) → Reads netlist.now id.0 w → w < length marks.old.items → is_marked marks.new.items w ≡ true }
{
    if let Some(found) = netlist.module(id) {
        mark_read(found.inputs.as_slice(), marks);
    }
}

fn mark_read(inputs: &[Input], marks: &mut Vec<bool>)
    ensures grown { AreGrown marks.old.items marks.new.items }
    ensures read { (p : ℕ) → p < length inputs.now → (input_in inputs.now p).wire.0 < length marks.old.items → is_marked marks.new.items (input_in inputs.now p).wire.0 ≡ true }
{
    for input in inputs {
        mark(marks, input.wire.0);
    }
}

/// Marks a number, if it has a place.
pub(crate) fn mark(marks: &mut Vec<bool>, number: u32)
    ensures grown { AreGrown marks.old.items marks.new.items }
    ensures marked { number < length marks.old.items → is_marked marks.new.items number ≡ true }
    ensures only { (k : ℕ) → is_marked marks.new.items k ≡ true → (is_marked marks.old.items k ≡ true) ⊎ (k ≡ number) }
{
    let place = number as usize;
    if place < marks.len() {
        marks[place] = true;
    }
}

/// Whether a module exists and reads a wire that is marked.
pub(crate) fn reads_marked(netlist: &Netlist, id: ModuleId, marks: &[bool]) -> bool
    ensures { result ≡ false → ReadsNone netlist.now marks.now id.0 }
{
    match netlist.module(id) {
        Some(found) => is_any_marked(found.inputs.as_slice(), marks),
        None => false,
    }
}

fn is_any_marked(inputs: &[Input], marks: &[bool]) -> bool
    ensures { result ≡ list_any (λ (i : Entry). is_marked marks.now i.wire.0) inputs.now }
{
    inputs.iter().any(|input| is_marked(marks, input.wire.0))
}

/// Whether there is a mark at this number.
pub(crate) fn is_marked(marks: &[bool], number: u32) -> bool
    ensures { result ≡ is_marked marks.now number }
{
    match marks.get(number as usize) {
        Some(mark) => *mark,
        None => false,
    }
}
