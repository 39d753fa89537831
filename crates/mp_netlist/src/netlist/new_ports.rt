//! The ports of a module that is to be added.
ghost use Rattle.std.specs.Prelude.{◌≡◌};
ghost use Rattle.mp_netlist.specs.NewPorts.{kept_delay};

use crate::driver::Driver;
use crate::netlist::ports::are_distinct;
use crate::netlist::{MAX_DELAY, Netlist};
use arrayvec::ArrayVec;
use mp_modules::{Kind, MOST_INPUTS, MOST_OUTPUTS};
use mp_records::{
    Input, InputNames, Inputs, Name, NewModule, Output, OutputNames, Outputs, WireId,
};

/// The ports of a new module, at the wires that it names: each name is looked up once.
#[derive(Drop)]
pub(crate) struct NewPorts {
    pub(crate) inputs: Inputs,
    pub(crate) outputs: Outputs,
}

impl Netlist {
    ghost use Rattle.std.specs.Prelude.{◌≡◌, ◌≤◌, ◌&&◌, is_some, length, map, IfSome};
    ghost use Rattle.std.specs.List.{list_all};
    ghost use Rattle.mp_modules.specs.Kinds.{width_from};
    ghost use Rattle.mp_netlist.specs.Edits.{are_distinct, stands, wire_id, inputs_stand, inputs_fit, outputs_fit, is_undriven, driven_names, new_width};
    ghost use Rattle.mp_netlist.specs.NewPorts.{AreNamedPorts, named_input, named_output, width_of_first};

    /// The ports of a new module, if all wires that it names exist. Their delays aren't checked.
    pub(crate) fn named_ports(&self, new: &NewModule) -> Option<NewPorts>
        requires inputs { length new.now.inputs ≤ MOST_INPUTS }
        requires outputs { length new.now.outputs ≤ MOST_OUTPUTS }
        ensures stand { is_some result ≡ (inputs_stand self.now new.now.inputs && list_all (stands self.now) (driven_names new.now.outputs)) }
        ensures ports { IfSome result (AreNamedPorts self.now new.now) }
    {
        let inputs = self.named_inputs(&new.inputs, self.last_driven())?;
        let outputs = self.named_outputs(&new.outputs, last_read(inputs.as_slice()))?;
        Some(NewPorts { inputs, outputs })
    }

    /// The inputs at the wires that they name, if all of these exist.
    fn named_inputs(&self, names: &InputNames, near: WireId) -> Option<Inputs>
        requires { length names.now ≤ MOST_INPUTS }
        ensures stand { is_some result ≡ inputs_stand self.now names.now }
        ensures inputs { IfSome result (λ inputs. inputs ≡ map (named_input self.now) names.now) }
    {
        let mut ports = ArrayVec::new();
        let mut last = near;
        for port in names.as_slice() {
            last = self.standing_wire(&port.wire, last)?;
            ports.push(Input {
                wire: last,
                delay: kept_delay(port.delay),
            });
        }
        Some(Inputs::new(ports))
    }

    /// The outputs at the wires that they name, if all of these exist.
    fn named_outputs(&self, names: &OutputNames, near: WireId) -> Option<Outputs>
        requires { length names.now ≤ MOST_OUTPUTS }
        ensures stand { is_some result ≡ list_all (stands self.now) (driven_names names.now) }
        ensures outputs { IfSome result (λ outputs. outputs ≡ map (named_output self.now) names.now) }
    {
        let mut ports = ArrayVec::new();
        for port in names.as_slice() {
            let delay = kept_delay(port.delay);
            match &port.wire {
                Some(name) => {
                    let wire = Some(self.standing_wire(name, near)?);
                    ports.push(Output { wire, delay });
                }
                None => ports.push(Output { wire: None, delay }),
            }
        }
        Some(Outputs::new(ports))
    }

    /// The number of the wire that has the name, if there is one. It costs less if a wire around this one has it.
    fn standing_wire(&self, name: &Name, near: WireId) -> Option<WireId>
        ensures stand { is_some result ≡ stands self.now name.now }
        ensures wire { IfSome result (λ wire. wire ≡ wire_id self.now name.now) }
    {
        match self.wires.number_near(name, near.0) {
            Some(number) => Some(WireId(number)),
            None => None,
        }
    }

    /// A wire that the last module drives, if that module exists and drives one. The wires of a new module are often near it.
    fn last_driven(&self) -> WireId {
        match self
            .modules
            .get((self.modules.len() as u32).wrapping_sub(1))
        {
            Some(last) => first_driven(last.outputs.as_slice()),
            None => WireId(0),
        }
    }

    /// The width of a new module, which has these ports.
    pub(crate) fn new_width(&self, new: &NewModule, ports: &NewPorts) -> u32
        requires { AreNamedPorts self.now new.now ports.now }
        ensures { result ≡ new_width self.now new.now.kind new.now.inputs }
    {
        self.width_with(new.kind, ports.inputs.as_slice())
    }

    /// The width of a module of this kind with these inputs.
    #[tactic(auto, using(mp_modules::proofs::KindLemmas::width_from_narrow))]
    fn width_with(&self, kind: Kind, inputs: &[Input]) -> u32
        ensures { result ≡ width_from kind (width_of_first self.now inputs.now) }
    {
        if !kind.has_width() {
            return 1;
        }
        let first = match inputs {
            [first, ..] => self.wire_width(first.wire),
            [] => 0,
        };
        kind.width_from(first)
    }

    /// Whether the wires at the ports of a new module, which has this width, have the widths of the ports.
    pub(crate) fn ports_fit(&self, new: &NewModule, ports: &NewPorts, width: u32) -> bool
        requires { AreNamedPorts self.now new.now ports.now }
        ensures { result ≡ (inputs_fit self.now new.now.kind width new.now.inputs && outputs_fit self.now new.now.kind width new.now.outputs) }
    {
        self.inputs_fit(new, ports, width) && self.outputs_fit(new, ports, width)
    }

    /// Whether each wire that is to be read has the width of its port.
    fn inputs_fit(&self, new: &NewModule, ports: &NewPorts, width: u32) -> bool
        requires { AreNamedPorts self.now new.now ports.now }
        ensures { result ≡ inputs_fit self.now new.now.kind width new.now.inputs }
    {
        let inputs = ports.inputs.as_slice();
        for (port, input) in inputs.iter().enumerate() {
            if self.wire_width(input.wire) != new.kind.input_width(width, port) {
                return false;
            }
        }
        true
    }

    /// Whether each wire that is to be driven has the width of its port.
    fn outputs_fit(&self, new: &NewModule, ports: &NewPorts, width: u32) -> bool
        requires { AreNamedPorts self.now new.now ports.now }
        ensures { result ≡ outputs_fit self.now new.now.kind width new.now.outputs }
    {
        let outputs = ports.outputs.as_slice();
        for (port, output) in outputs.iter().enumerate() {
            if let Some(driven) = output.wire {
                if self.wire_width(driven) != new.kind.output_width(width, port) {
                    return false;
                }
            }
        }
        true
    }

    /// Whether nothing drives the wires that are to be driven, and no two outputs name one.
    pub(crate) fn outputs_are_free(&self, new: &NewModule, ports: &NewPorts) -> bool
        requires { AreNamedPorts self.now new.now ports.now }
        ensures { result ≡ (list_all (is_undriven self.now) (driven_names new.now.outputs) && are_distinct (driven_names new.now.outputs)) }
    {
        self.outputs_are_undriven(new, ports) && are_distinct(new.outputs.as_slice())
    }

    /// Whether nothing drives the wires that are to be driven.
    fn outputs_are_undriven(&self, new: &NewModule, ports: &NewPorts) -> bool
        requires { AreNamedPorts self.now new.now ports.now }
        ensures { result ≡ list_all (is_undriven self.now) (driven_names new.now.outputs) }
    {
        let outputs = ports.outputs.as_slice();
        for output in outputs {
            if let Some(driven) = output.wire {
                if !matches!(self.driver_of(driven), Driver::Nothing) {
                    return false;
                }
            }
        }
        true
    }
}

/// The wire of the first output, if it drives one.
fn first_driven(outputs: &[Output]) -> WireId {
    match outputs {
        [
            Output {
                wire: Some(wire),
                ..
            },
            ..
        ] => *wire,
        _ => WireId(0),
    }
}

/// The wire at the last input, if there is one.
fn last_read(inputs: &[Input]) -> WireId {
    match inputs {
        [.., last] => last.wire,
        [] => WireId(0),
    }
}

/// The delay if a port may have it, and otherwise one that no port may have.
fn kept_delay(delay: u64) -> u32
    ensures { result ≡ kept_delay delay }
{
    delay.min(MAX_DELAY + 1) as u32
}
