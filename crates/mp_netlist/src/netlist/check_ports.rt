//! Checks of changes at the ports of a module.

use crate::netlist::checked::Checked;
use crate::netlist::drivers::is_free_for;
use crate::netlist::ports::is_delay;
use crate::netlist::{MAX_DELAY, Netlist};
use crate::record_changes::{NewDelay, NewInput, NewInputDelay, NewOutput};
use mp_records::{Boxed, EditError, Name};

impl Netlist {
    ghost use Rattle.std.specs.Prelude.{◌≡◌, IfOk, option_map};
    ghost use Rattle.std.specs.Result.{result_err};
    ghost use Rattle.mp_records.specs.PortChanges.{with_input, with_input_delay, with_output, with_delay};
    ghost use Rattle.mp_netlist.specs.Circuit.{module_at};
    ghost use Rattle.mp_netlist.specs.Edits.{input_refusal, output_refusal, input_delay_refusal, delay_refusal, with_module, wire_id, module_id};
    ghost use Rattle.mp_netlist.specs.Checked.{Makes};

    pub(crate) fn check_input<'a>(
        &self,
        name: &Name,
        port: u64,
        wire: &Name,
    ) -> Result<Checked<'a>, EditError>
        ensures refused { result_err result ≡ input_refusal self.now name.now port wire.now }
        ensures found { IfOk result (λ found. Makes self.now found (with_module self.now (module_id self.now name.now).0 (option_map (with_input port (wire_id self.now wire.now)) (module_at self.now (module_id self.now name.now).0)))) }
    {
        let Some(id) = self.find_module(name) else {
            return Err(EditError::NoSuchModule);
        };
        if port >= self.input_ports(id) {
            return Err(EditError::BadPort);
        }
        let Some(read) = self.find_wire(wire) else {
            return Err(EditError::NoSuchWire);
        };
        if self.wire_width(read) != self.input_width(id, port) {
            return Err(EditError::WidthMismatch);
        }
        let port = port as usize;
        Ok(Checked::Input(id, NewInput { port, wire: read }))
    }

    pub(crate) fn check_output<'a>(
        &self,
        name: &Name,
        port: u64,
        wire: &Option<Boxed<Name>>,
    ) -> Result<Checked<'a>, EditError>
        ensures refused { result_err result ≡ output_refusal self.now name.now port wire.now }
        ensures found { IfOk result (λ found. Makes self.now found (with_module self.now (module_id self.now name.now).0 (option_map (with_output port (option_map (wire_id self.now) wire.now)) (module_at self.now (module_id self.now name.now).0)))) }
    {
        let Some(id) = self.find_module(name) else {
            return Err(EditError::NoSuchModule);
        };
        if port >= self.output_ports(id) {
            return Err(EditError::BadPort);
        }
        let Some(wire) = wire else {
            let (port, wire) = (port as usize, None);
            return Ok(Checked::Output(id, NewOutput { port, wire }));
        };
        let Some(driven) = self.find_wire(wire.get()) else {
            return Err(EditError::NoSuchWire);
        };
        if self.wire_width(driven) != self.output_width(id, port) {
            return Err(EditError::WidthMismatch);
        }
        if !is_free_for(id, port, self.driver_of(driven)) {
            return Err(EditError::AlreadyDriven);
        }
        let (port, wire) = (port as usize, Some(driven));
        Ok(Checked::Output(id, NewOutput { port, wire }))
    }

    pub(crate) fn check_input_delay<'a>(
        &self,
        name: &Name,
        port: u64,
        delay: u64,
    ) -> Result<Checked<'a>, EditError>
        ensures refused { result_err result ≡ input_delay_refusal self.now name.now port delay }
        ensures found { IfOk result (λ found. Makes self.now found (with_module self.now (module_id self.now name.now).0 (option_map (with_input_delay port delay) (module_at self.now (module_id self.now name.now).0)))) }
    {
        let Some(id) = self.find_module(name) else {
            return Err(EditError::NoSuchModule);
        };
        if port >= self.input_ports(id) {
            return Err(EditError::BadPort);
        }
        if delay > MAX_DELAY {
            return Err(EditError::BadDelay);
        }
        let (port, delay) = (port as usize, delay as u32);
        Ok(Checked::InputDelay(id, NewInputDelay { port, delay }))
    }

    pub(crate) fn check_delay<'a>(
        &self,
        name: &Name,
        port: u64,
        delay: u64,
    ) -> Result<Checked<'a>, EditError>
        ensures refused { result_err result ≡ delay_refusal self.now name.now port delay }
        ensures found { IfOk result (λ found. Makes self.now found (with_module self.now (module_id self.now name.now).0 (option_map (with_delay port delay) (module_at self.now (module_id self.now name.now).0)))) }
    {
        let Some(id) = self.find_module(name) else {
            return Err(EditError::NoSuchModule);
        };
        if port >= self.output_ports(id) {
            return Err(EditError::BadPort);
        }
        if !is_delay(delay) {
            return Err(EditError::BadDelay);
        }
        let (port, delay) = (port as usize, delay as u32);
        Ok(Checked::Delay(id, NewDelay { port, delay }))
    }
}
