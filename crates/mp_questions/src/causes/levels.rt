//! The levels of a netlist's wires.
ghost use Rattle.mp_model.specs.Waves.{AreWavesOf};

use crate::causes::input_event::InputEvent;
use crate::causes::moment::Moment;
use crate::causes::wire_change::WireChange;
use crate::timing::read_time;
use mp_model::Waves;
use mp_netlist::{Input, Netlist, WireId};

/// A netlist with the levels of its wires.
#[derive(Clone, Copy)]
pub(crate) struct Levels<'a> {
    pub(crate) netlist: &'a Netlist,
    pub(crate) waves: &'a Waves,
    ghost are_waves: { AreWavesOf netlist.now waves.now },
}

impl<'a> Levels<'a> {
    ghost use Rattle.std.specs.Prelude.{◌≡◌, ◌<◌, IfSome, if◌then◌else◌, Some, None};
    ghost use Rattle.mp_netlist.specs.Circuit.{IsCircuit};
    ghost use Rattle.mp_model.specs.Waves.{AreWavesOf};
    ghost use Rattle.mp_questions.specs.causes.Changes.{change_if, last_change};
    ghost use Rattle.mp_questions.specs.timing.Ranges.{read_time};
    ghost use Rattle.mp_questions.specs.causes.Causes.{hears, event_at};

    /// A netlist and its waves.
    pub(crate) fn new(netlist: &'a Netlist, waves: &'a Waves) -> Self
        requires { AreWavesOf netlist.now waves.now }
        ensures netlist { result.netlist.now ≡ netlist.now }
        ensures form { IsCircuit netlist.now }
    {
        // Its contract says that the netlist is well formed.
        let _horizon = netlist.horizon();
        Levels { netlist, waves }
    }

    /// The change of a wire at a time, if its level differs from that a unit before.
    pub(crate) fn change_at(self, wire: WireId, time: u32) -> Option<WireChange>
        requires form { IsCircuit self.netlist.now }
        requires within { time < self.netlist.now.horizon }
        ensures { result ≡ change_if self.entry.netlist.now wire time }
    {
        if time == 0 {
            return None;
        }
        match self.waves.of(wire) {
            Some(wave) => {
                let level = wave.level_at(time);
                if wave.level_at(time - 1) == level {
                    return None;
                }
                Some(WireChange { wire, time, level })
            }
            None => None,
        }
    }

    /// The event of an input at a time, if there is one.
    pub(crate) fn event_at(self, input: Input, time: u32) -> Option<InputEvent>
        requires form { IsCircuit self.netlist.now }
        requires within { time < self.netlist.now.horizon }
        ensures { result ≡ (if hears self.entry.netlist.now time input then Some (event_at self.entry.netlist.now time input) else None) }
    {
        // An event of an input comes later than its delay: up to then the input has the wire's first level.
        match self.change_at(input.wire, time.saturating_sub(input.delay)) {
            Some(change) => Some(InputEvent {
                change,
                delay: input.delay,
            }),
            None => None,
        }
    }

    /// The last change of a wire at or before a time, found by search.
    pub(crate) fn last_change(self, moment: Moment) -> Option<WireChange>
        ensures value { result ≡ last_change self.entry.netlist.now moment.wire (read_time self.entry.netlist.now.horizon moment.time) }
        ensures from { IfSome result (λ change. 0 < change.time) }
        ensures within { IfSome result (λ change. change.time < self.entry.netlist.now.horizon) }
    {
        let end = read_time(self.netlist.horizon(), moment.time) + 1;
        match self.waves.of(moment.wire) {
            Some(wave) => match wave.changes_between(0, end).last() {
                Some((time, level)) => Some(WireChange {
                    wire: moment.wire,
                    time,
                    level,
                }),
                None => None,
            },
            None => None,
        }
    }
}
