//! The small netlist before the edit, made wire by wire and module by module.

use crate::region::picked::Picked;
use crate::revision::Revision;
use mp_netlist::{
    Changes, Edit, EditError, Input, InputName, InputNames, ModuleId, ModuleRecord, Name, Netlist,
    NewModule, Output, OutputName, OutputNames, SingleEdit, Stimulus, WireId, WireRecord,
};
use mp_wave::Wave;
use std::alloc::{AllocError, Global};

/// The small netlist of what is picked from the old one. A given wire has its old wave as its stimulus. `None` where it can't be made so.
pub(crate) fn small_before(
    alloc: Global,
    change: &Revision<'_>,
    picked: &Picked,
) -> Result<Option<Netlist>, AllocError> {
    let old = change.old;
    let Ok(mut small) = Netlist::empty(alloc, old.keys(), old.format(), u64::from(old.horizon()))
    else {
        return Ok(None);
    };
    match add_picked(alloc, change, picked, &mut small) {
        Ok(true) => Ok(Some(small)),
        Ok(false) => {
            drop(small);
            Ok(None)
        }
        Err(error) => {
            drop(small);
            Err(error)
        }
    }
}

fn add_picked(
    alloc: Global,
    change: &Revision<'_>,
    picked: &Picked,
    small: &mut Netlist,
) -> Result<bool, AllocError> {
    if !add_wires(alloc, change, picked, small)? {
        return Ok(false);
    }
    add_modules(alloc, change.old, picked, small)
}

fn add_wires(
    alloc: Global,
    change: &Revision<'_>,
    picked: &Picked,
    small: &mut Netlist,
) -> Result<bool, AllocError> {
    for (k, number) in picked.wires.numbers.iter().enumerate() {
        let wire = WireId(*number);
        let Some(found) = change.old.wire(wire) else {
            continue;
        };
        let wave = match picked.given.get(k) {
            Some(true) => change.run.wave(wire),
            _ => None,
        };
        if !add_wire(alloc, found, wave, small)? {
            return Ok(false);
        }
    }
    Ok(true)
}

fn add_wire(
    alloc: Global,
    found: &WireRecord,
    wave: Option<&Wave>,
    small: &mut Netlist,
) -> Result<bool, AllocError> {
    let added = wire_added(found)?;
    if !make(small, added)? {
        return Ok(false);
    }
    let set = match (wave, &found.stimulus) {
        (Some(wave), _) => stimulus_set(found, changes_of_wave(alloc, wave)?)?,
        (None, Some(stimulus)) => stimulus_set(found, changes_of_stimulus(alloc, stimulus)?)?,
        (None, None) => return Ok(true),
    };
    make(small, set)
}

/// The edit that adds a wire like this one, without its stimulus.
fn wire_added(found: &WireRecord) -> Result<SingleEdit, AllocError> {
    let name = found.name.clone()?;
    Ok(SingleEdit::AddWire {
        name,
        width: u64::from(found.width),
        level: found.initial,
    })
}

/// The edit that sets these changes as the stimulus of a wire of this name.
fn stimulus_set(found: &WireRecord, changes: Changes) -> Result<SingleEdit, AllocError> {
    let Ok(wire) = found.name.clone() else {
        drop(changes);
        return Err(AllocError);
    };
    Ok(SingleEdit::SetStimulus { wire, changes })
}

/// Makes an edit, if it can be made.
fn make(small: &mut Netlist, edit: SingleEdit) -> Result<bool, AllocError> {
    let edit = Edit::Single(edit);
    let answer = small.apply(&edit);
    drop(edit);
    is_made(answer)
}

fn changes_of_wave(alloc: Global, wave: &Wave) -> Result<Changes, AllocError> {
    let changes = wave.changes();
    let mut pairs = Vec::with_capacity(alloc, changes.len())?;
    for place in 0..changes.len() {
        pairs.push((u64::from(changes.time_at(place)), changes.level_at(place)))?;
    }
    Ok(Changes::new(pairs))
}

fn changes_of_stimulus(alloc: Global, stimulus: &Stimulus) -> Result<Changes, AllocError> {
    let mut pairs = Vec::with_capacity(alloc, stimulus.as_slice().len())?;
    for &(time, level) in stimulus.as_slice() {
        pairs.push((u64::from(time), level))?;
    }
    Ok(Changes::new(pairs))
}

fn add_modules(
    alloc: Global,
    old: &Netlist,
    picked: &Picked,
    small: &mut Netlist,
) -> Result<bool, AllocError> {
    for m in picked.modules.numbers.as_slice() {
        if let Some(found) = old.module(ModuleId(*m)) {
            if !add_module(alloc, old, found, small)? {
                return Ok(false);
            }
        }
    }
    Ok(true)
}

fn add_module(
    alloc: Global,
    old: &Netlist,
    found: &ModuleRecord,
    small: &mut Netlist,
) -> Result<bool, AllocError> {
    let added = new_module(alloc, old, found)?;
    is_made(small.apply_module(added))
}

/// A module like this one, by the names of its wires.
fn new_module(alloc: Global, old: &Netlist, found: &ModuleRecord) -> Result<NewModule, AllocError> {
    let name = found.name.clone()?;
    let Ok(params) = found.params.clone() else {
        drop(name);
        return Err(AllocError);
    };
    let Ok((inputs, outputs)) = port_names(alloc, old, found) else {
        drop(name);
        drop(params);
        return Err(AllocError);
    };
    Ok(NewModule {
        name,
        kind: found.kind,
        params,
        inputs,
        outputs,
    })
}

fn port_names(
    alloc: Global,
    old: &Netlist,
    found: &ModuleRecord,
) -> Result<(InputNames, OutputNames), AllocError> {
    let inputs = input_names(alloc, old, found.inputs.as_slice())?;
    let Ok(outputs) = output_names(alloc, old, found.outputs.as_slice()) else {
        drop(inputs);
        return Err(AllocError);
    };
    Ok((inputs, outputs))
}

fn input_names(alloc: Global, old: &Netlist, inputs: &[Input]) -> Result<InputNames, AllocError> {
    let mut ports = Vec::with_capacity(alloc, inputs.len())?;
    for input in inputs {
        ports.push(InputName {
            wire: name_of(alloc, old, input.wire)?,
            delay: u64::from(input.delay),
        })?;
    }
    Ok(InputNames::new(ports))
}

fn output_names(
    alloc: Global,
    old: &Netlist,
    outputs: &[Output],
) -> Result<OutputNames, AllocError> {
    let mut ports = Vec::with_capacity(alloc, outputs.len())?;
    for output in outputs {
        ports.push(output_name(alloc, old, output)?)?;
    }
    Ok(OutputNames::new(ports))
}

fn output_name(alloc: Global, old: &Netlist, output: &Output) -> Result<OutputName, AllocError> {
    let wire = match output.wire {
        Some(wire) => Some(name_of(alloc, old, wire)?),
        None => None,
    };
    Ok(OutputName {
        wire,
        delay: u64::from(output.delay),
    })
}

fn name_of(alloc: Global, netlist: &Netlist, wire: WireId) -> Result<Name, AllocError> {
    match netlist.wire(wire) {
        Some(found) => found.name.clone(),
        None => Name::new(alloc, ""),
    }
}

/// Whether an edit was made.
pub(crate) fn is_made(answer: Result<(), EditError>) -> Result<bool, AllocError> {
    match answer {
        Ok(()) => Ok(true),
        Err(EditError::OutOfMemory) => Err(AllocError),
        Err(_) => Ok(false),
    }
}
