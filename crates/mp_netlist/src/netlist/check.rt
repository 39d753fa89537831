//! Checks of edits.
ghost use Rattle.std.specs.Prelude.{◌≡◌};
ghost use Rattle.std.specs.Result.{result_err};
ghost use Rattle.mp_netlist.specs.Edits.{first_failing, batch_checks};

use crate::driver::Driver;
use crate::netlist::checked::{Checked, CheckedBundle};
use crate::netlist::new_ports::NewPorts;
use crate::netlist::ports::{delays_fit, has_ports};
use crate::netlist::{MAX_BATCH, MAX_SETUP, Netlist};
use mp_modules::fits_width;
use mp_records::{Batch, Changes, Edit, EditError, Name, NewBundle, NewModule, SingleEdit, WireId};

impl Netlist {
    ghost use Rattle.std.specs.Prelude.{◌≡◌, ◌&&◌, None, Some, IfOk, IfSome, is_some, map, option_map};
    ghost use Rattle.std.specs.Result.{result_err};
    ghost use Rattle.mp_netlist.specs.Edits.{checked, refusal, wire_refusal, wire_removal_refusal, module_refusal, module_removal_refusal, bundle_refusal, bundle_removal_refusal, stimulus_refusal, clearing_refusal, input_of, output_of, edited, with_new_wire, with_wire, with_module, with_new_module, new_module, with_bundle, with_new_bundle, new_bundle, with_stimulus, without_stimulus, stands, wire_id, module_id, bundle_id};
    ghost use Rattle.mp_netlist.specs.Circuit.{wire_at, wire_named};
    ghost use Rattle.mp_netlist.specs.Checked.{Makes};

    /// Checks the edit. The error is the first check that it fails, in the order of its kind, lack of memory apart. For a batch it is only
    /// `BadBatch`, since the edits of a batch are checked as they are made.
    pub fn check(&self, edit: &Edit) -> Result<(), EditError>
        ensures { result_err result ≡ checked self.now edit.now }
    {
        match edit {
            Edit::Single(single) => {
                drop(self.check_single(single)?);
                Ok(())
            }
            Edit::Batch(batch) => check_batch(batch),
        }
    }

    #[tactic(auto, unfolding(crate::specs::Edits::refusal, crate::specs::Edits::edited))]
    /// Checks an edit of one thing, and returns what the checks found, with which it is made. The error is the first check that it fails, in the
    /// order of its kind, lack of memory apart.
    pub(crate) fn check_single<'a>(&self, edit: &'a SingleEdit) -> Result<Checked<'a>, EditError>
        ensures refused { result_err result ≡ refusal self.now edit.now }
        ensures found { IfOk result (λ found. Makes self.now found (edited self.now edit.now)) }
    {
        match edit {
            SingleEdit::AddWire { name, width, level } => self.check_wire(name, *width, *level),
            SingleEdit::RemoveWire { wire } => self.check_wire_removal(wire),
            SingleEdit::AddModule(new) => self.check_new_module(new.get()),
            SingleEdit::RemoveModule { module } => self.check_module_removal(module),
            SingleEdit::AddBundle(new) => self.check_bundle(new.get()),
            SingleEdit::RemoveBundle { bundle } => self.check_bundle_removal(bundle),
            SingleEdit::RewireInput { module, port, wire } => self.check_input(
                module,
                *port,
                wire.get(),
            ),
            SingleEdit::RewireOutput { module, port, wire } => self.check_output(
                module, *port, wire,
            ),
            SingleEdit::SetInputDelay {
                module,
                port,
                delay,
            } => self.check_input_delay(module, *port, *delay),
            SingleEdit::SetDelay {
                module,
                port,
                delay,
            } => self.check_delay(module, *port, *delay),
            SingleEdit::SetStimulus { wire, changes } => self.check_stimulus(wire, changes),
            SingleEdit::ClearStimulus { wire } => self.check_clearing(wire),
        }
    }

    fn check_wire<'a>(
        &self,
        name: &'a Name,
        width: u64,
        level: u64,
    ) -> Result<Checked<'a>, EditError>
        ensures refused { result_err result ≡ wire_refusal self.now name.now width level }
        ensures found { IfOk result (λ found. Makes self.now found (with_new_wire self.now name.now width level)) }
    {
        if !name.is_valid() {
            return Err(EditError::BadName);
        }
        if self.find_wire(name).is_some() {
            return Err(EditError::NameTaken);
        }
        if width < 1 || width > 64 {
            return Err(EditError::BadWidth);
        }
        if !fits_width(level, width) {
            return Err(EditError::BadLevel);
        }
        if self.wires.len() >= self.format.max_wires() {
            return Err(EditError::TableFull);
        }
        Ok(Checked::NewWire {
            name,
            width: width as u32,
            level,
        })
    }

    fn check_wire_removal<'a>(&self, name: &Name) -> Result<Checked<'a>, EditError>
        ensures refused { result_err result ≡ wire_removal_refusal self.now name.now }
        ensures found { IfOk result (λ found. Makes self.now found (with_wire self.now (wire_id self.now name.now).0 None)) }
    {
        let Some(id) = self.find_wire(name) else {
            return Err(EditError::NoSuchWire);
        };
        if self.is_used(id) {
            return Err(EditError::StillUsed);
        }
        Ok(Checked::NoWire(id))
    }

    /// The ports of a module that is to be added. The error is the first check that it fails.
    pub(crate) fn check_module(&self, new: &NewModule) -> Result<NewPorts, EditError>
        ensures refused { result_err result ≡ module_refusal self.now new.now }
        ensures inputs { IfOk result (λ ports. ports.inputs ≡ map (input_of self.now) new.now.inputs) }
        ensures outputs { IfOk result (λ ports. ports.outputs ≡ map (output_of self.now) new.now.outputs) }
    {
        if !new.name.is_valid() {
            return Err(EditError::BadName);
        }
        if self.find_module(&new.name).is_some() {
            return Err(EditError::NameTaken);
        }
        if !has_ports(new.kind, &new.inputs, &new.outputs) {
            return Err(EditError::WrongPorts);
        }
        let Some(ports) = self.named_ports(new) else {
            return Err(EditError::NoSuchWire);
        };
        let width = self.new_width(new, &ports);
        if !self.ports_fit(new, &ports, width) {
            return Err(EditError::WidthMismatch);
        }
        if !new.kind.accepts(width, new.params.as_slice()) {
            return Err(EditError::BadParam);
        }
        if !delays_fit(&new.inputs, &new.outputs) {
            return Err(EditError::BadDelay);
        }
        if !self.outputs_are_free(new, &ports) {
            return Err(EditError::AlreadyDriven);
        }
        if self.modules.len() >= self.format.max_modules() {
            return Err(EditError::TableFull);
        }
        Ok(ports)
    }

    /// Checks a module that is to be added.
    fn check_new_module<'a>(&self, new: &'a NewModule) -> Result<Checked<'a>, EditError>
        ensures refused { result_err result ≡ module_refusal self.now new.now }
        ensures found { IfOk result (λ found. Makes self.now found (with_new_module self.now (new_module self.now new.now))) }
    {
        let ports = self.check_module(new)?;
        Ok(Checked::AddedModule(new, ports))
    }

    fn check_module_removal<'a>(&self, name: &Name) -> Result<Checked<'a>, EditError>
        ensures refused { result_err result ≡ module_removal_refusal self.now name.now }
        ensures found { IfOk result (λ found. Makes self.now found (with_module self.now (module_id self.now name.now).0 None)) }
    {
        match self.find_module(name) {
            Some(id) => Ok(Checked::NoModule(id)),
            None => Err(EditError::NoSuchModule),
        }
    }

    fn check_bundle<'a>(&self, new: &'a NewBundle) -> Result<Checked<'a>, EditError>
        ensures refused { result_err result ≡ bundle_refusal self.now new.now }
        ensures found { IfOk result (λ found. Makes self.now found (with_new_bundle self.now (new_bundle self.now new.now))) }
    {
        if !new.name.is_valid() {
            return Err(EditError::BadName);
        }
        if self.find_bundle(&new.name).is_some() {
            return Err(EditError::NameTaken);
        }
        let Some(wires) = self.bundle_wires(new) else {
            return Err(EditError::NoSuchWire);
        };
        if self.wire_width(wires.0) != 1 || self.wire_width(wires.1) != 1 {
            return Err(EditError::WidthMismatch);
        }
        if new.setup > MAX_SETUP {
            return Err(EditError::BadParam);
        }
        if self.bundles.len() >= self.format.max_bundles() {
            return Err(EditError::TableFull);
        }
        Ok(Checked::NewBundle(CheckedBundle {
            name: &new.name,
            request: wires.0,
            acknowledge: wires.1,
            payload: wires.2,
            setup: new.setup as u32,
        }))
    }

    /// The wires of a bundle that is to be added, if all of them exist.
    fn bundle_wires(&self, new: &NewBundle) -> Option<(WireId, WireId, WireId)>
        ensures stand { is_some result ≡ (stands self.now new.now.request && stands self.now new.now.acknowledge && stands self.now new.now.payload) }
        ensures wires { IfSome result (λ wires. (Some wires.0.0 ≡ wire_named self.now new.now.request) × (Some wires.1.0 ≡ wire_named self.now new.now.acknowledge) × (Some wires.2.0 ≡ wire_named self.now new.now.payload)) }
    {
        let request = self.find_wire(&new.request)?;
        let acknowledge = self.find_wire(&new.acknowledge)?;
        let payload = self.find_wire(&new.payload)?;
        Some((request, acknowledge, payload))
    }

    fn check_bundle_removal<'a>(&self, name: &Name) -> Result<Checked<'a>, EditError>
        ensures refused { result_err result ≡ bundle_removal_refusal self.now name.now }
        ensures found { IfOk result (λ found. Makes self.now found (with_bundle self.now (bundle_id self.now name.now).0 None)) }
    {
        match self.find_bundle(name) {
            Some(id) => Ok(Checked::NoBundle(id)),
            None => Err(EditError::NoSuchBundle),
        }
    }

    fn check_stimulus<'a>(
        &self,
        wire: &Name,
        changes: &'a Changes,
    ) -> Result<Checked<'a>, EditError>
        ensures refused { result_err result ≡ stimulus_refusal self.now wire.now changes.now }
        ensures found { IfOk result (λ found. Makes self.now found (with_wire self.now (wire_id self.now wire.now).0 (option_map (with_stimulus changes.now) (wire_at self.now (wire_id self.now wire.now).0)))) }
    {
        let Some(id) = self.find_wire(wire) else {
            return Err(EditError::NoSuchWire);
        };
        if let Driver::Port(_, _) = self.driver_of(id) {
            return Err(EditError::AlreadyDriven);
        }
        let width = self.wire_width(id);
        if !changes.is_valid(u64::from(self.horizon), u64::from(width)) {
            return Err(EditError::BadStimulus);
        }
        Ok(Checked::Stimulus(id, changes))
    }

    fn check_clearing<'a>(&self, wire: &Name) -> Result<Checked<'a>, EditError>
        ensures refused { result_err result ≡ clearing_refusal self.now wire.now }
        ensures found { IfOk result (λ found. Makes self.now found (with_wire self.now (wire_id self.now wire.now).0 (option_map (without_stimulus) (wire_at self.now (wire_id self.now wire.now).0)))) }
    {
        let Some(id) = self.find_wire(wire) else {
            return Err(EditError::NoSuchWire);
        };
        if !self.has_stimulus(id) {
            return Err(EditError::NoStimulus);
        }
        Ok(Checked::NoStimulus(id))
    }
}

/// Checks that a batch has edits, and not too many.
pub(crate) fn check_batch(batch: &Batch) -> Result<(), EditError>
    ensures { result_err result ≡ first_failing (batch_checks batch.now) }
{
    let edits = batch.as_slice();
    if edits.is_empty() || edits.len() > MAX_BATCH {
        return Err(EditError::BadBatch);
    }
    Ok(())
}
