//! Which modules a change reaches at once.

use mp_depend::touched;
use mp_netlist::{Input, ModuleId, Netlist, Stimulus, WireId};
use mp_partition::{Division, partition_of};
use mp_records::same_place;
use std::alloc::{AllocError, Global};

/// The modules that a change touches, and those that read a wire on which it sets something else. One that is both may come twice.
pub(crate) fn first_reached(
    alloc: Global,
    old: &Netlist,
    new: &Netlist,
) -> Result<Vec<ModuleId>, AllocError> {
    let mut reached = touched(alloc, old, new)?;
    let set = set_otherwise(alloc, old, new)?;
    if set.is_empty() {
        return Ok(reached);
    }
    for m in 0..new.module_slots() {
        if reads(new, ModuleId(m), set.as_slice()) {
            reached.push(ModuleId(m))?;
        }
    }
    Ok(reached)
}

/// A mark for each wire on which something else is set. No marks if there is none.
fn set_otherwise(alloc: Global, old: &Netlist, new: &Netlist) -> Result<Vec<bool>, AllocError> {
    let mut marks = Vec::new(alloc);
    let mut any = false;
    for w in 0..new.wire_slots() {
        let set = is_set_otherwise(old, new, WireId(w));
        marks.push(set)?;
        any = any || set;
    }
    if !any {
        marks.clear();
    }
    Ok(marks)
}

fn is_set_otherwise(old: &Netlist, new: &Netlist, wire: WireId) -> bool {
    !same_place(stimulus_of(old, wire), stimulus_of(new, wire))
}

fn stimulus_of(netlist: &Netlist, wire: WireId) -> Option<&Stimulus> {
    match netlist.wire(wire) {
        Some(found) => found.stimulus.as_ref(),
        None => None,
    }
}

/// Whether a module reads a wire that is marked.
fn reads(netlist: &Netlist, id: ModuleId, marks: &[bool]) -> bool {
    match netlist.module(id) {
        Some(found) => any_marked(found.inputs.as_slice(), marks),
        None => false,
    }
}

fn any_marked(inputs: &[Input], marks: &[bool]) -> bool {
    for input in inputs {
        if let Some(true) = marks.get(input.wire.0 as usize) {
            return true;
        }
    }
    false
}

/// Whether at most three quarters of these modules are at home in one part.
pub(crate) fn are_spread(
    alloc: Global,
    reached: &[ModuleId],
    division: &Division,
) -> Result<bool, AllocError> {
    let mut counts = vec![in alloc; 0usize; division.parts as usize]?;
    for id in reached {
        count_at(&mut counts, partition_of(division.homes.as_slice(), id.0));
    }
    let most = most_of(counts.as_slice());
    Ok(most.saturating_mul(4) <= reached.len().saturating_mul(3))
}

/// Counts one more at a part, if there is one with this number.
fn count_at(counts: &mut Vec<usize>, home: u32) {
    if let Some(count) = counts.get_mut(home as usize) {
        *count = count.saturating_add(1);
    }
}

/// The largest of these counts, 0 if there is none.
fn most_of(counts: &[usize]) -> usize {
    let mut most = 0usize;
    for count in counts {
        most = most.max(*count);
    }
    most
}
