//! The inputs of a module as waves.
ghost use Rattle.std.specs.Prelude.{ℕ, ◌≡◌, All, IsSome, Some, slice_index};
ghost use Rattle.mp_records.specs.declared.ports.Input.{Input as Port};
ghost use Rattle.mp_netlist.specs.Circuit.{IsModule, wire_at};
ghost use Rattle.mp_model.specs.Levels.{inputs_by};
ghost use Rattle.mp_model.specs.Waves.{level};
ghost use Rattle.mp_questions.specs.timing.Hearing.{HearsPort};

use crate::timing::delayed_input::{DelayedInput, level_at, next};
use crate::timing::wait_moment::WaitMoment;
use mp_modules::MOST_INPUTS;
use mp_netlist::ModuleRecord;

/// The delayed wave at each port that a module can have; `None` if the module has no such port.
#[derive(Clone, Copy)]
pub struct InputPorts<'a> {
    pub first: Option<DelayedInput<'a>>,
    pub second: Option<DelayedInput<'a>>,
    pub third: Option<DelayedInput<'a>>,
    pub fourth: Option<DelayedInput<'a>>,
}

impl<'a> InputPorts<'a> {
    ghost use Rattle.std.specs.Prelude.{◌≡◌, ℕ, ◌<◌, ◌≤◌, ◌∷◌, [], List, slice_index};
    ghost use Rattle.mp_modules.specs.Memories.{input_levels};
    ghost use Rattle.mp_netlist.specs.Circuit.{IsModule};
    ghost use Rattle.mp_model.specs.Levels.{inputs_by};
    ghost use Rattle.mp_model.specs.Waves.{level};
    ghost use Rattle.mp_questions.specs.timing.Hearing.{AreHeard};

    /// The inputs of a module.
    pub fn of(at: &WaitMoment<'a>, found: &ModuleRecord) -> Self
        requires { IsModule at.now.netlist.now found.now }
        ensures { AreHeard (inputs_by at.now.netlist.now (level at.now.netlist.now) found.now) at.now.netlist.now.horizon result }
    {
        InputPorts {
            first: ear(at, found, 0),
            second: ear(at, found, 1),
            third: ear(at, found, 2),
            fourth: ear(at, found, 3),
        }
    }

    /// The levels at a time.
    pub fn levels(self, time: u32) -> [u64; MOST_INPUTS]
        ensures { (x : ℕ → List ℕ) (end : ℕ) → AreHeard x end self.entry → time < end → result ≡ input_levels (x time) }
    {
        [
            level_at(self.first, time),
            level_at(self.second, time),
            level_at(self.third, time),
            level_at(self.fourth, time),
        ]
    }

    /// The first time after one at which an input has an event, or an end that comes first.
    pub fn next(self, time: u32, end: u32) -> u32
        ensures within { result ≤ end }
        ensures later { time < end → time < result }
        ensures quiet { (x : ℕ → List ℕ) (most t : ℕ) → AreHeard x most self.entry → end ≤ most → time ≤ t → t < result → input_levels (x t) ≡ input_levels (x time) }
    {
        let end = next(self.first, time, end);
        let end = next(self.second, time, end);
        let end = next(self.third, time, end);
        next(self.fourth, time, end)
    }
}

/// The delayed wave at a port of a module.
fn ear<'a>(at: &WaitMoment<'a>, found: &ModuleRecord, port: usize) -> Option<DelayedInput<'a>>
    requires { IsModule at.now.netlist.now found.now }
    ensures { HearsPort (λ t. slice_index (inputs_by at.now.netlist.now (level at.now.netlist.now) found.now t) port) at.now.netlist.now.horizon result }
{
    let _horizon = at.netlist.horizon();
    match found.inputs.as_slice().get(port) {
        Some(input) => Some(DelayedInput {
            wave: at.wave_of(input.wire),
            delay: input.delay,
        }),
        None => None,
    }
}
