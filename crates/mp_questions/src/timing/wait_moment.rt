//! A netlist at a time.
ghost use Rattle.std.specs.Prelude.{◌<◌, ◌≤◌};
ghost use Rattle.mp_netlist.specs.Limits.{max_horizon};
ghost use Rattle.mp_model.specs.Waves.{AreWavesOf};

use crate::timing::delayed_input::DelayedInput;
use mp_model::Waves;
use mp_netlist::{Input, Netlist, WireId};
use mp_wave::Wave;

/// A netlist with its waves, at a time below its horizon.
#[derive(Clone, Copy)]
pub struct WaitMoment<'a> {
    pub netlist: &'a Netlist,
    pub waves: &'a Waves,
    /// In units from 0.
    pub time: u32,
    ghost are_waves: { AreWavesOf netlist.now waves.now },
    ghost within: { time < netlist.now.horizon },
    ghost short: { netlist.now.horizon ≤ max_horizon },
}

impl<'a> WaitMoment<'a> {
    ghost use Rattle.std.specs.Prelude.{◌≡◌, IsSome};
    ghost use Rattle.mp_netlist.specs.Circuit.{wire_at};
    ghost use Rattle.mp_model.specs.Levels.{input_by};
    ghost use Rattle.mp_model.specs.Waves.{level, wave};
    ghost use Rattle.mp_questions.specs.timing.Hearing.{Hears};

    /// The wave of a wire that exists.
    pub fn wave_of(&self, wire: WireId) -> &'a Wave
        requires { IsSome (wire_at self.now.netlist.now wire.0) }
        ensures { result.now ≡ wave self.now.netlist.now wire.0 }
    {
        match self.waves.of(wire) {
            Some(wave) => wave,
            None => unreachable!(),
        }
    }

    /// The delayed wave at an input whose wire exists.
    pub fn heard(&self, input: Input) -> DelayedInput<'a>
        requires { IsSome (wire_at self.now.netlist.now input.wire.0) }
        ensures { Hears (input_by self.now.netlist.now (level self.now.netlist.now) input) self.now.netlist.now.horizon result }
    {
        let _horizon = self.netlist.horizon();
        DelayedInput {
            wave: self.wave_of(input.wire),
            delay: input.delay,
        }
    }

    /// The wave of a wire that exists, without a delay.
    pub fn prompt(&self, wire: WireId) -> DelayedInput<'a>
        requires { IsSome (wire_at self.now.netlist.now wire.0) }
        ensures { Hears (level self.now.netlist.now wire.0) self.now.netlist.now.horizon result }
    {
        DelayedInput {
            wave: self.wave_of(wire),
            delay: 0,
        }
    }
}
