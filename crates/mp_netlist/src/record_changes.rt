//! Changes of a record in place, which keep the record's name.
ghost use Rattle.std.proofs.Common.{refl, rules};
ghost use Rattle.mp_records.specs.PortChanges.{with_input, with_input_delay, with_output, with_delay};
ghost use Rattle.mp_netlist.specs.Edits.{with_stimulus, without_stimulus};

use crate::table::{Change, Named};
use mp_records::{BundleRecord, ModuleRecord, Name, Stimulus, WireId, WireRecord};

impl Named for WireRecord {
    ghost name_of = { λ thing. thing.name };

    ghost clones_equal = { Prim.search rules };

    fn name(&self) -> &Name {
        &self.name
    }
}

impl Named for ModuleRecord {
    ghost name_of = { λ thing. thing.name };

    ghost clones_equal = { Prim.search rules };

    fn name(&self) -> &Name {
        &self.name
    }
}

impl Named for BundleRecord {
    ghost name_of = { λ thing. thing.name };

    ghost clones_equal = { Prim.search rules };

    fn name(&self) -> &Name {
        &self.name
    }
}

/// An input port reads another wire.
#[derive(Drop)]
pub struct NewInput {
    pub port: usize,
    pub wire: WireId,
}

impl Change<ModuleRecord> for NewInput {
    ghost changed = { λ change thing. with_input change.port change.wire thing };

    ghost keeps_name = { λ change thing. refl };

    fn make(self, thing: &mut ModuleRecord) {
        thing.set_input(self.port, self.wire);
    }
}

/// An input port has another delay.
#[derive(Drop)]
pub struct NewInputDelay {
    pub port: usize,
    pub delay: u32,
}

impl Change<ModuleRecord> for NewInputDelay {
    ghost changed = { λ change thing. with_input_delay change.port change.delay thing };

    ghost keeps_name = { λ change thing. refl };

    fn make(self, thing: &mut ModuleRecord) {
        thing.set_input_delay(self.port, self.delay);
    }
}

/// An output port drives another wire, or none.
#[derive(Drop)]
pub struct NewOutput {
    pub port: usize,
    pub wire: Option<WireId>,
}

impl Change<ModuleRecord> for NewOutput {
    ghost changed = { λ change thing. with_output change.port change.wire thing };

    ghost keeps_name = { λ change thing. refl };

    fn make(self, thing: &mut ModuleRecord) {
        thing.set_output(self.port, self.wire);
    }
}

/// An output port has another delay.
#[derive(Drop)]
pub struct NewDelay {
    pub port: usize,
    pub delay: u32,
}

impl Change<ModuleRecord> for NewDelay {
    ghost changed = { λ change thing. with_delay change.port change.delay thing };

    ghost keeps_name = { λ change thing. refl };

    fn make(self, thing: &mut ModuleRecord) {
        thing.set_delay(self.port, self.delay);
    }
}

/// A wire is set from outside.
#[derive(Drop)]
pub struct NewStimulus {
    pub stimulus: Stimulus,
}

impl Change<WireRecord> for NewStimulus {
    ghost changed = { λ change thing. with_stimulus change.stimulus thing };

    ghost keeps_name = { λ change thing. refl };

    fn make(self, thing: &mut WireRecord) {
        thing.stimulus = Some(self.stimulus);
    }
}

/// A wire is no longer set from outside.
#[derive(Drop)]
pub struct NoStimulus;

impl Change<WireRecord> for NoStimulus {
    ghost changed = { λ change thing. without_stimulus thing };

    ghost keeps_name = { λ change thing. refl };

    fn make(self, thing: &mut WireRecord) {
        thing.stimulus = None;
    }
}
