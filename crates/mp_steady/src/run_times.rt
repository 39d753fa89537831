//! The times of a run on which a period depends.
ghost use Rattle.std.specs.Prelude.{◌≡◌, ℕ};
ghost use Rattle.mp_model.specs.Waves.{level};
ghost use Rattle.mp_netlist.specs.Circuit.{Circuit};
ghost use Rattle.mp_questions.specs.timing.Events.{since};
ghost use Rattle.mp_records.specs.Outputs.{delay_of};
ghost use Rattle.mp_steady.specs.Periods.{delay_by, last_unit, longest_input, set_by};

use crate::wire_inputs::wire_inputs;
use crate::wire_set::WireSet;
use mp_netlist::{Driver, Input, ModuleRecord, Netlist, WireId};
use mp_questions::timing::WaitMoment;

/// The times of a run on which a period of some wires depends, in units.
#[derive(Clone, Copy)]
pub(crate) struct RunTimes {
    /// The last unit.
    pub(crate) end: u32,
    /// The last change of a wire, 0 if none changes.
    pub(crate) last_change: u32,
    /// The last change of a wire by a stimulus, 0 if there is none.
    pub(crate) last_set: u32,
    /// The longest delay of the ports that drive the wires.
    longest_delay: u32,
    /// The longest delay of the inputs on which the wires depend.
    longest_input_delay: u32,
}

impl RunTimes {
    ghost use Rattle.std.specs.Prelude.{◌≡◌, ◌<◌, ◌++◌, ◌∷◌, [], ℕ, List, IsSome};
    ghost use Rattle.mp_model.specs.Waves.{level};
    ghost use Rattle.mp_netlist.specs.Circuit.{Circuit};
    ghost use Rattle.mp_questions.specs.timing.Events.{since};
    ghost use Rattle.mp_steady.specs.Periods.{heard_from, is_over, last_unit, longest_period, told_until};
    ghost use Rattle.mp_steady.specs.RunTimes.{AreTimes};
    ghost use Rattle.mp_steady.specs.WireSets.{numbers};

    /// The times of a run.
    pub(crate) fn of(set: WireSet<'_>) -> Self
        ensures { AreTimes set.entry.of.netlist.now (numbers set.entry.wires.now) result }
    {
        let at = WaitMoment {
            netlist: set.of.netlist,
            waves: set.of.waves,
            time: set.of.netlist.horizon() - 1,
        };
        let mut times = RunTimes {
            end: at.time,
            last_change: 0,
            last_set: 0,
            longest_delay: 0,
            longest_input_delay: 0,
        };
        for &wire in set.wires {
            times.add(set, wire, at.prompt(wire).since(at.time));
        }
        times
    }

    /// One more wire, with its last change.
    fn add(&mut self, set: WireSet<'_>, wire: WireId, changed: u32)
        requires { changed ≡ since (level set.of.netlist.now wire.0) (last_unit set.of.netlist.now) }
        ensures { (wires : List ℕ) → AreTimes set.entry.of.netlist.now wires self.old → AreTimes set.entry.of.netlist.now (wires ++ wire.0 ∷ []) self.new }
    {
        let driver = set.of.driver_of(wire);
        self.last_change = self.last_change.max(changed);
        self.last_set = self.last_set.max(set_by(driver, changed));
        self.longest_delay = self.longest_delay.max(delay_by(set.of.netlist, driver));
        let inputs = wire_inputs(set.of, wire);
        self.longest_input_delay = self.longest_input_delay.max(longest_input(inputs));
    }

    /// Whether nothing is on its way any more.
    pub(crate) fn is_over(self) -> bool
        ensures { (n : Circuit) (wires : List ℕ) → AreTimes n wires self → result ≡ is_over n wires }
    {
        let delays = u64::from(self.longest_delay) + u64::from(self.longest_input_delay);
        u64::from(self.last_change) + delays <= u64::from(self.end)
    }

    /// The last unit of which the wires tell, up to the last unit, what the modules gave.
    pub(crate) fn told_until(self) -> u32
        ensures { (n : Circuit) (wires : List ℕ) → AreTimes n wires self → result ≡ told_until n wires }
    {
        self.end.saturating_sub(self.longest_delay)
    }

    /// The first unit that the modules may still hear at that time.
    pub(crate) fn heard_from(self) -> u32
        ensures { (n : Circuit) (wires : List ℕ) → AreTimes n wires self → result ≡ heard_from n wires }
    {
        self.told_until().saturating_sub(self.longest_input_delay)
    }

    /// The longest period that is looked for.
    pub(crate) fn longest_period(self) -> u32
        ensures { (n : Circuit) (wires : List ℕ) → AreTimes n wires self → result ≡ longest_period n wires }
    {
        self.heard_from().saturating_sub(self.last_set)
    }
}

/// The time of a change if the driver is a stimulus, and else 0.
fn set_by(driver: Driver, changed: u32) -> u32
    ensures { (n : Circuit) (w : ℕ) → changed ≡ since (level n w) (last_unit n) → result ≡ set_by n w driver }
{
    match driver {
        Driver::Stimulus => changed,
        Driver::Nothing | Driver::Port(..) => 0,
    }
}

/// The delay of the port that is a driver, 0 if it is none.
fn delay_by(netlist: &Netlist, driver: Driver) -> u32
    ensures { result ≡ delay_by netlist.now driver }
{
    match driver {
        Driver::Port(id, port) => match netlist.module(id) {
            Some(part) => delay_of(part, port),
            None => 0,
        },
        Driver::Nothing | Driver::Stimulus => 0,
    }
}

/// The delay of an output port: 1, as the least, if there is no such port.
fn delay_of(part: &ModuleRecord, port: u32) -> u32
    ensures { result ≡ delay_of part.now port }
{
    match part.outputs.as_slice().get(port as usize) {
        Some(output) => output.delay,
        None => 1,
    }
}

/// The longest delay of some inputs, 0 if there is none.
fn longest_input(inputs: &[Input]) -> u32
    ensures { result ≡ longest_input inputs.now }
{
    let mut longest = 0;
    for input in inputs {
        longest = longest.max(input.delay);
    }
    longest
}
