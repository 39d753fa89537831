//! The longest delays of a netlist.
ghost use Rattle.std.specs.Prelude.{◌≤◌, All};
ghost use Rattle.mp_records.specs.declared.ports.Input.{Input as Entry};
ghost use Rattle.mp_records.specs.declared.ports.Output.{Output as Exit};

use mp_netlist::{Input, ModuleId, Output};
use mp_partition::Region;

/// The longest delays of outputs and of inputs, each at least 1.
#[derive(Clone, Copy)]
pub(crate) struct Delays {
    pub outputs: u32,
    pub inputs: u32,
}

impl Delays {
    ghost use Rattle.std.specs.Prelude.{◌≡◌, ℕ, ◌<◌, ◌≤◌, Some, length};
    ghost use Rattle.mp_records.specs.declared.module_record.ModuleRecord.{ModuleRecord as Part};
    ghost use Rattle.mp_netlist.specs.Circuit.{module_at};
    ghost use Rattle.mp_simulation.specs.run.Delays.{AreWithin, IsWithin, AreNotBelow};

    /// The longest delays of all modules.
    pub(crate) fn of(netlist: &Region<'_>) -> Delays
        ensures within { AreWithin netlist.now (length netlist.now.modules) result }
        ensures outputs { 0 < result.outputs }
        ensures inputs { 0 < result.inputs }
    {
        let mut longest = Delays {
            outputs: 1,
            inputs: 1,
        };
        for m in 0..netlist.module_slots() {
            longest = longest.with_module(netlist, ModuleId(m));
        }
        longest
    }

    /// The longest of all.
    pub(crate) fn longest(self) -> u32
        ensures outputs { self.outputs ≤ result }
        ensures inputs { self.inputs ≤ result }
        ensures some { 0 < self.outputs → 0 < result }
    {
        if self.outputs < self.inputs {
            self.inputs
        } else {
            self.outputs
        }
    }

    /// The longest of these and those of a module.
    fn with_module(self, netlist: &Region<'_>, id: ModuleId) -> Delays
        ensures longer { AreNotBelow self result }
        ensures within { (r : Part) → module_at netlist.now id.0 ≡ Some r → IsWithin result r }
    {
        match netlist.module(id) {
            Some(found) => Delays {
                outputs: longest_output(self.outputs, found.outputs.as_slice()),
                inputs: longest_input(self.inputs, found.inputs.as_slice()),
            },
            None => self,
        }
    }
}

/// The longest of a delay and those of outputs.
fn longest_output(first: u32, outputs: &[Output]) -> u32
    ensures first { first ≤ result }
    ensures each { All (λ (o : Exit). o.delay ≤ result) outputs.now }
{
    let mut longest = first;
    for output in outputs {
        longest = longest.max(output.delay);
    }
    longest
}

/// The longest of a delay and those of inputs.
fn longest_input(first: u32, inputs: &[Input]) -> u32
    ensures first { first ≤ result }
    ensures each { All (λ (i : Entry). i.delay ≤ result) inputs.now }
{
    let mut longest = first;
    for input in inputs {
        longest = longest.max(input.delay);
    }
    longest
}
