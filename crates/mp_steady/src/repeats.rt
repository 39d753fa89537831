//! Whether wires repeat after a number of units.
ghost use Rattle.std.specs.Prelude.{◌≡◌, ◌≤◌, true};
ghost use Rattle.mp_steady.specs.Periods.{last_unit, start};
ghost use Rattle.mp_steady.specs.RunTimes.{AreTimes};
ghost use Rattle.mp_steady.specs.WireSets.{has_wire, numbers};

use crate::run_times::RunTimes;
use crate::states::are_states_again;
use crate::wave_repeats::repeats_from;
use crate::wire_set::WireSet;
use mp_netlist::WireId;
use std::alloc::{AllocError, Global};

/// Some wires, of which one may refuse the next number of units.
#[derive(Clone, Copy)]
pub(crate) struct Trial<'a> {
    pub(crate) set: WireSet<'a>,
    pub(crate) times: RunTimes,
    /// The wire that refused the last number of units.
    pub(crate) suspect: WireId,
    ghost are_times: { AreTimes set.of.netlist.now (numbers set.wires.now) times },
    ghost one_of_them: { has_wire (numbers set.wires.now) suspect.0 ≡ true },
}

impl<'a> Trial<'a> {
    ghost use Rattle.std.specs.Prelude.{◌≡◌, ◌-◌, ◌≤◌, true, IfOk, IfSome, IsSome, is_none, nat_le};
    ghost use Rattle.mp_netlist.specs.Circuit.{wire_at};
    ghost use Rattle.mp_model.specs.Waves.{level};
    ghost use Rattle.mp_steady.specs.Periods.{heard_from, last_unit, longest_period, repeats, repeats_from, start};
    ghost use Rattle.mp_steady.specs.WireSets.{has_wire, numbers};

    /// Whether the wires repeat after a number of units.
    pub(crate) fn repeats(&mut self, alloc: Global, units: u32) -> Result<bool, AllocError>
        requires { units ≤ longest_period self.old.set.of.netlist.now (numbers self.old.set.wires.now) }
        ensures value { IfOk result (λ is. is ≡ repeats self.old.set.of.netlist.now (numbers self.old.set.wires.now) units) }
        ensures set { self.new.set ≡ self.old.set }
        ensures times { self.new.times ≡ self.old.times }
    {
        if !self.are_levels_again(units) {
            return Ok(false);
        }
        are_states_again(alloc, self.set, self.times, units)
    }

    /// Whether their levels do, as far back as modules may still hear them.
    fn are_levels_again(&mut self, units: u32) -> bool
        requires { units ≤ longest_period self.old.set.of.netlist.now (numbers self.old.set.wires.now) }
        ensures value { result ≡ nat_le (start self.old.set.of.netlist.now (numbers self.old.set.wires.now) units) (heard_from self.old.set.of.netlist.now (numbers self.old.set.wires.now) - units) }
        ensures set { self.new.set ≡ self.old.set }
        ensures times { self.new.times ≡ self.old.times }
    {
        match self.refusing(units) {
            Some(wire) => {
                self.suspect = wire;
                false
            }
            None => true,
        }
    }

    /// A wire of which the level doesn't, the suspect if that is one.
    fn refusing(&self, units: u32) -> Option<WireId>
        requires { units ≤ longest_period self.now.set.of.netlist.now (numbers self.now.set.wires.now) }
        ensures one { IfSome result (λ wire. has_wire (numbers self.now.set.wires.now) wire.0 ≡ true) }
        ensures value { is_none result ≡ nat_le (start self.now.set.of.netlist.now (numbers self.now.set.wires.now) units) (heard_from self.now.set.of.netlist.now (numbers self.now.set.wires.now) - units) }
    {
        if !self.is_level_again(self.suspect, units) {
            return Some(self.suspect);
        }
        for &wire in self.set.wires {
            if !self.is_level_again(wire, units) {
                return Some(wire);
            }
        }
        None
    }

    /// Whether the level of a wire does.
    fn is_level_again(&self, wire: WireId, units: u32) -> bool
        requires few { units ≤ longest_period self.now.set.of.netlist.now (numbers self.now.set.wires.now) }
        requires stands { IsSome (wire_at self.now.set.of.netlist.now wire.0) }
        ensures { result ≡ nat_le (repeats_from (level self.now.set.of.netlist.now wire.0) units (last_unit self.now.set.of.netlist.now - units)) (heard_from self.now.set.of.netlist.now (numbers self.now.set.wires.now) - units) }
    {
        // Its contract says how long it is.
        let _horizon = self.set.of.netlist.horizon();
        let from = self.times.heard_from() - units;
        let wave = self.set.wave_of(wire);
        repeats_from(wave, units, self.times.end - units, from) <= from
    }
}

/// The least time from which on each wire has, up to the last unit, the level of so many units before.
pub(crate) fn start(set: WireSet<'_>, times: RunTimes, units: u32) -> u32
    requires times { AreTimes set.of.netlist.now (numbers set.wires.now) times }
    requires few { units ≤ last_unit set.of.netlist.now }
    ensures { result ≡ start set.entry.of.netlist.now (numbers set.entry.wires.now) units }
{
    // Its contract says how long it is.
    let _horizon = set.of.netlist.horizon();
    let mut from = 0;
    for &wire in set.wires {
        from = repeats_from(set.wave_of(wire), units, times.end - units, from);
    }
    from
}
