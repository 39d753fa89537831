//! Whether a small netlist is what was picked from a large one.
ghost use Rattle.std.specs.Prelude.{◌≡◌, ◌↔◌, ◌<◌, ◌^◌, ℕ, true, IsTrue, Some, length, map, option_map, slice_index_or};
ghost use Rattle.std.specs.Option.{option_copied};
ghost use Rattle.mp_netlist.specs.Circuit.{wire_at, module_at};
ghost use Rattle.mp_model.specs.Waves.{level};
ghost use Rattle.mp_near.specs.laws.Picking.{placed, placed_input, placed_output, placed_wire};
ghost use Rattle.mp_near.specs.Changes.{IsChange, IsEither};
ghost use Rattle.mp_near.specs.region.Likeness.{AreModulesLike, AreWiresLike, HasFrame, picked_wire, set_by};
ghost use Rattle.mp_near.specs.reach.Numbers.{place_at};
ghost use Rattle.mp_near.specs.region.Picks.{ArePicks, picking};
ghost use Rattle.mp_near.specs.region.Regions.{IsLike};

use crate::reach::Numbering;
use crate::region::picked::Picked;
use crate::revision::Revision;
use mp_netlist::{
    Format, Input, ModuleId, ModuleRecord, Netlist, Output, Stimulus, WireId, WireRecord,
};
use mp_records::{Same, same_place};
use mp_wave::Wave;

/// Whether the small netlist has just the wires and modules that are picked, and on each given wire its old wave as the stimulus.
pub(crate) fn is_picked(
    change: &Revision<'_>,
    netlist: &Netlist,
    picked: &Picked,
    small: &Netlist,
) -> bool
    requires change { IsChange change.now }
    requires either { IsEither change.now netlist.now }
    requires picks { ArePicks change.now.old.now change.now.new.now picked.now }
    ensures { result ≡ true → IsLike netlist.now small.now (picking change.now.new.now picked.now) picked.now (level change.now.old.now) }
{
    if !is_same_frame(netlist, small) {
        return false;
    }
    if !are_wires_picked(change, netlist, picked, small) {
        return false;
    }
    are_modules_picked(netlist, picked, small)
}

/// Whether the small netlist has the format and the horizon, and no bundles.
fn is_same_frame(netlist: &Netlist, small: &Netlist) -> bool
    ensures { result ≡ true → HasFrame netlist.now small.now }
{
    is_same_format(netlist.format(), small.format())
        && small.horizon() == netlist.horizon()
        && small.bundle_slots() == 0
}

fn is_same_format(one: Format, other: Format) -> bool
    ensures { IsTrue result ↔ (one ≡ other) }
{
    one == other
}

fn are_wires_picked(
    change: &Revision<'_>,
    netlist: &Netlist,
    picked: &Picked,
    small: &Netlist,
) -> bool
    requires few { length picked.now.wires.numbers.items < 2 ^ 32 }
    requires given { length picked.now.given.items ≡ length picked.now.wires.numbers.items }
    ensures { result ≡ true → AreWiresLike change.now.run.now netlist.now picked.now small.now (length picked.now.wires.numbers.items) }
{
    let numbers = picked.wires.numbers.as_slice();
    if small.wire_slots() as usize > numbers.len() {
        return false;
    }
    for k in 0..numbers.len() {
        let wire = WireId(numbers[k]);
        let other = small.wire(WireId(k as u32));
        if !is_wire_picked(change, netlist, wire, picked.given[k], other) {
            return false;
        }
    }
    true
}

/// Whether this is a wire of the netlist, with its old wave as the stimulus if it is given.
fn is_wire_picked(
    change: &Revision<'_>,
    netlist: &Netlist,
    wire: WireId,
    given: bool,
    other: Option<&WireRecord>,
) -> bool
    ensures { result ≡ true → option_copied other.entry ≡ picked_wire change.now.run.now netlist.now wire.0 given }
{
    let one = netlist.wire(wire);
    if given {
        is_set_wire(one, change.run.wave(wire), other)
    } else {
        same_place(other, one)
    }
}

fn is_set_wire(one: Option<&WireRecord>, wave: Option<&Wave>, other: Option<&WireRecord>) -> bool
    ensures { result ≡ true → option_copied other.entry ≡ set_by (option_copied wave.entry) (option_copied one.entry) }
{
    match (one, wave, other) {
        (Some(one), Some(wave), Some(other)) => {
            are_same_frames(one, other) && has_changes(wave, &other.stimulus)
        }
        (None, _, None) => true,
        _ => false,
    }
}

/// Whether two wires have the same name, width and initial level.
fn are_same_frames(one: &WireRecord, other: &WireRecord) -> bool
    ensures { result ≡ true → other.now ≡ record one.now { stimulus = other.now.stimulus } }
{
    one.name.same(&other.name) && one.width == other.width && one.initial == other.initial
}

fn has_changes(wave: &Wave, stimulus: &Option<Stimulus>) -> bool
    ensures { result ≡ true → stimulus.now ≡ Some wave.now.changes }
{
    match stimulus {
        Some(found) => are_changes(wave, found.as_slice()),
        None => false,
    }
}

fn are_changes(wave: &Wave, pairs: &[(u32, u64)]) -> bool
    ensures { result ≡ true → pairs.now ≡ wave.now.changes }
{
    let changes = wave.changes();
    if changes.len() != pairs.len() {
        return false;
    }
    for place in 0..pairs.len() {
        let pair = pairs[place];
        if pair.0 != changes.time_at(place) || pair.1 != changes.level_at(place) {
            return false;
        }
    }
    true
}

fn are_modules_picked(netlist: &Netlist, picked: &Picked, small: &Netlist) -> bool
    requires { length picked.now.modules.numbers.items < 2 ^ 32 }
    ensures { result ≡ true → AreModulesLike netlist.now picked.now small.now (length picked.now.modules.numbers.items) }
{
    let numbers = picked.modules.numbers.as_slice();
    if small.module_slots() as usize > numbers.len() {
        return false;
    }
    for k in 0..numbers.len() {
        let one = netlist.module(ModuleId(numbers[k]));
        let other = small.module(ModuleId(k as u32));
        if !is_module_picked(&picked.wires, one, other) {
            return false;
        }
    }
    true
}

/// Whether a module is another one with its wires numbered anew.
fn is_module_picked(
    wires: &Numbering,
    one: Option<&ModuleRecord>,
    other: Option<&ModuleRecord>,
) -> bool
    ensures { result ≡ true → option_copied other.entry ≡ option_map (placed (place_at wires.now.places.items)) (option_copied one.entry) }
{
    match (one, other) {
        (Some(one), Some(other)) => is_placed(wires, one, other),
        (None, None) => true,
        _ => false,
    }
}

fn is_placed(wires: &Numbering, one: &ModuleRecord, other: &ModuleRecord) -> bool
    ensures { result ≡ true → other.now ≡ placed (place_at wires.now.places.items) one.now }
{
    one.kind == other.kind
        && one.name.same(&other.name)
        && one.params.as_slice() == other.params.as_slice()
        && are_placed_inputs(wires, one.inputs.as_slice(), other.inputs.as_slice())
        && are_placed_outputs(wires, one.outputs.as_slice(), other.outputs.as_slice())
}

fn are_placed_inputs(wires: &Numbering, ones: &[Input], others: &[Input]) -> bool
    ensures { result ≡ true → others.now ≡ map (placed_input (place_at wires.now.places.items)) ones.now }
{
    if ones.len() != others.len() {
        return false;
    }
    for port in 0..ones.len() {
        if !is_placed_input(wires, ones[port], others[port]) {
            return false;
        }
    }
    true
}

fn is_placed_input(wires: &Numbering, one: Input, other: Input) -> bool
    ensures { result ≡ true → other ≡ placed_input (place_at wires.now.places.items) one }
{
    other.wire.0 == wires.place_of(one.wire.0) && other.delay == one.delay
}

fn are_placed_outputs(wires: &Numbering, ones: &[Output], others: &[Output]) -> bool
    ensures { result ≡ true → others.now ≡ map (placed_output (place_at wires.now.places.items)) ones.now }
{
    if ones.len() != others.len() {
        return false;
    }
    for port in 0..ones.len() {
        if !is_placed_output(wires, ones[port], others[port]) {
            return false;
        }
    }
    true
}

fn is_placed_output(wires: &Numbering, one: Output, other: Output) -> bool
    ensures { result ≡ true → other ≡ placed_output (place_at wires.now.places.items) one }
{
    other.delay == one.delay && is_placed_wire(wires, one.wire, other.wire)
}

fn is_placed_wire(wires: &Numbering, one: Option<WireId>, other: Option<WireId>) -> bool
    ensures { result ≡ true → other ≡ option_map (placed_wire (place_at wires.now.places.items)) one }
{
    match (one, other) {
        (Some(one), Some(other)) => other.0 == wires.place_of(one.0),
        (None, None) => true,
        _ => false,
    }
}
