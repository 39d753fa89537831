//! What makes a wire change.
ghost use Rattle.std.specs.Prelude.{◌≡◌, ◌<◌, ◌≤◌, length};
ghost use Rattle.mp_netlist.specs.Circuit.{IsCircuit};
ghost use Rattle.mp_questions.specs.causes.Causes.{events_at};

use crate::causes::driving_port::DrivingPort;
use crate::causes::input_event::InputEvent;
use crate::causes::levels::Levels;
use crate::causes::wire_change::WireChange;
use arrayvec::ArrayVec;
use mp_modules::MOST_INPUTS;
use mp_netlist::Input;

/// What makes a wire change: what is set on it from outside, the start of the module that drives it, or events at the inputs of that
/// module.
#[derive(Drop)]
pub(crate) enum Cause<'a> {
    Outside,
    Start(DrivingPort<'a>),
    Events(DrivingPort<'a>, ArrayVec<InputEvent, MOST_INPUTS>),
}

impl<'a> Cause<'a> {
    ghost use Rattle.std.specs.Prelude.{◌≡◌, if◌then◌else◌, nat_lt, None, option_map, IfSome};
    ghost use Rattle.mp_questions.specs.causes.Causes.{cause_seen, port_seen, port_of, followed};
    ghost use Rattle.mp_questions.specs.causes.Chains.{begin_by};

    /// The change that a change with this cause follows: that of the first event.
    pub(crate) fn followed(&self) -> Option<WireChange>
        ensures { result ≡ followed (cause_seen self.now) }
    {
        match self {
            Cause::Outside | Cause::Start(_) => None,
            Cause::Events(_, events) => events.first().map(|event| event.change),
        }
    }

    /// The port from which a change with this cause comes, if it isn't set from outside.
    pub(crate) fn port(&self) -> Option<DrivingPort<'a>>
        ensures { option_map port_seen result ≡ port_of (cause_seen self.now) }
    {
        match self {
            Cause::Outside => None,
            Cause::Start(port) | Cause::Events(port, _) => Some(*port),
        }
    }

    /// The port from which a change with this cause comes, if the change is above a time and isn't set from outside.
    pub(crate) fn port_above(&self, from: u32, change: WireChange) -> Option<DrivingPort<'a>>
        ensures { option_map port_seen result ≡ (if nat_lt from change.time then port_of (cause_seen self.now) else None) }
    {
        if change.time <= from {
            return None;
        }
        self.port()
    }

    /// The time at which a chain begins, if it begins with a change that has this cause: 0 if that isn't set from outside.
    pub(crate) fn begin(&self, change: WireChange) -> u32
        ensures { result ≡ begin_by change (cause_seen self.now) }
    {
        match self {
            Cause::Outside => change.time,
            Cause::Start(_) | Cause::Events(_, _) => 0,
        }
    }
}

/// The events of a module's inputs at a time, by port.
pub(crate) fn events_at(
    levels: Levels<'_>,
    inputs: &[Input],
    time: u32,
) -> ArrayVec<InputEvent, MOST_INPUTS>
    requires form { IsCircuit levels.netlist.now }
    requires few { length inputs.now ≤ MOST_INPUTS }
    requires within { time < levels.netlist.now.horizon }
    ensures { result.items ≡ events_at levels.entry.netlist.now time inputs.now }
{
    let mut events = ArrayVec::new();
    for &input in inputs {
        if let Some(event) = levels.event_at(input, time) {
            events.push(event);
        }
    }
    events
}
