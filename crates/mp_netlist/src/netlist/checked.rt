//! Changes of a netlist that are checked.
use crate::netlist::new_ports::NewPorts;
use crate::record_changes::{NewDelay, NewInput, NewInputDelay, NewOutput};
use mp_records::{BundleId, Changes, ModuleId, Name, NewModule, WireId};

/// What an edit changes, once it has passed all its checks: it has the numbers of the things that the edit names, as the checks found them.
#[derive(Drop)]
pub(crate) enum Checked<'a> {
    NewWire {
        name: &'a Name,
        width: u32,
        level: u64,
    },
    NoWire(WireId),
    Stimulus(WireId, &'a Changes),
    NoStimulus(WireId),
    AddedModule(&'a NewModule, NewPorts),
    NoModule(ModuleId),
    Input(ModuleId, NewInput),
    InputDelay(ModuleId, NewInputDelay),
    Output(ModuleId, NewOutput),
    Delay(ModuleId, NewDelay),
    NewBundle(CheckedBundle<'a>),
    NoBundle(BundleId),
}

/// A bundle that is to be added, at its wires.
#[derive(Clone, Copy)]
pub(crate) struct CheckedBundle<'a> {
    pub(crate) name: &'a Name,
    pub(crate) request: WireId,
    pub(crate) acknowledge: WireId,
    pub(crate) payload: WireId,
    pub(crate) setup: u32,
}
