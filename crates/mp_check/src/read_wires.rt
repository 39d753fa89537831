//! Which wires are read.
ghost use Rattle.std.specs.Prelude.{◌≡◌, ◌≢◌, ◌+◌, ◌<◌, ◌==◌, ◌||◌, ℕ, true, IfOk, length};
ghost use Rattle.std.specs.List.{list_any};
ghost use Rattle.mp_records.specs.declared.ports.Input.{Input as Port};
ghost use Rattle.mp_records.specs.NamedWires.{bundle_names};
ghost use Rattle.mp_check.specs.ReadWires.{AreRead, AreReadByBundles, AreReadByModules, mark_at};

use mp_netlist::{BundleId, BundleRecord, Input, ModuleId, Netlist, WireId};
use std::alloc::{AllocError, Global};

/// A mark for each wire by number: whether an input or a bundle names it.
pub(crate) fn read_wires(alloc: Global, netlist: &Netlist) -> Result<Vec<bool>, AllocError>
    ensures { IfOk result (λ marks. AreRead netlist.now marks.items) }
{
    let mut marks = vec![in alloc; false; netlist.wire_slots() as usize]?;
    for number in 0..netlist.module_slots() {
        mark_module(netlist, ModuleId(number), &mut marks);
    }
    mark_bundles(netlist, &mut marks);
    Ok(marks)
}

/// Marks the wires that a module reads, if it exists.
fn mark_module(netlist: &Netlist, id: ModuleId, marks: &mut Vec<bool>)
    requires within { id.0 < length netlist.now.modules }
    requires before { AreReadByModules netlist.now id.0 marks.old.items }
    ensures { AreReadByModules netlist.now (id.0 + 1) marks.new.items }
{
    match netlist.module(id) {
        Some(part) => mark_inputs(part.inputs.as_slice(), marks),
        None => {}
    }
}

/// Marks what some inputs read.
fn mark_inputs(inputs: &[Input], marks: &mut Vec<bool>)
    ensures places { length marks.new.items ≡ length marks.old.items }
    ensures each { (w : ℕ) → w < length marks.old.items → mark_at marks.new.items w ≡ (mark_at marks.old.items w || list_any (λ (i : Port). i.wire.0 == w) inputs.now) }
{
    for input in inputs {
        mark(input.wire, marks);
    }
}

/// Marks what the bundles name.
fn mark_bundles(netlist: &Netlist, marks: &mut Vec<bool>)
    requires { AreReadByModules netlist.now (length netlist.now.modules) marks.old.items }
    ensures { AreReadByBundles netlist.now (length netlist.now.bundles) marks.new.items }
{
    for number in 0..netlist.bundle_slots() {
        mark_bundle(netlist, BundleId(number), marks);
    }
}

/// Marks the wires that a bundle names, if it exists.
fn mark_bundle(netlist: &Netlist, id: BundleId, marks: &mut Vec<bool>)
    requires within { id.0 < length netlist.now.bundles }
    requires before { AreReadByBundles netlist.now id.0 marks.old.items }
    ensures { AreReadByBundles netlist.now (id.0 + 1) marks.new.items }
{
    match netlist.bundle(id) {
        Some(bundle) => mark_named(bundle, marks),
        None => {}
    }
}

/// Marks the three wires of a bundle.
fn mark_named(bundle: &BundleRecord, marks: &mut Vec<bool>)
    ensures places { length marks.new.items ≡ length marks.old.items }
    ensures each { (w : ℕ) → w < length marks.old.items → mark_at marks.new.items w ≡ (mark_at marks.old.items w || bundle_names w bundle.now) }
{
    mark(bundle.request, marks);
    mark(bundle.acknowledge, marks);
    mark(bundle.payload, marks);
}

/// Marks a wire, if it has a place.
fn mark(wire: WireId, marks: &mut Vec<bool>)
    ensures places { length marks.new.items ≡ length marks.old.items }
    ensures here { wire.0 < length marks.old.items → mark_at marks.new.items wire.0 ≡ true }
    ensures others { (w : ℕ) → w ≢ wire.0 → mark_at marks.new.items w ≡ mark_at marks.old.items w }
{
    let place = wire.0 as usize;
    if place < marks.len() {
        marks[place] = true;
    }
}

/// Whether a wire is marked.
pub(crate) fn is_marked(marks: &[bool], wire: WireId) -> bool
    ensures { result ≡ mark_at marks.now wire.0 }
{
    match marks.get(wire.0 as usize) {
        Some(mark) => *mark,
        None => false,
    }
}
