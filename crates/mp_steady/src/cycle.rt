//! The critical cycle.
ghost use Rattle.std.specs.Prelude.{◌≡◌, ◌+◌, ◌*◌, ◌^◌, ◌<◌, ◌≤◌, IfOk};
ghost use Rattle.mp_steady.specs.Cycles.{from_place, is_place};
ghost use Rattle.mp_steady.specs.RunTimes.{AreTimes};
ghost use Rattle.mp_steady.specs.WireSets.{numbers};

use crate::control::has_events;
use crate::run_times::RunTimes;
use crate::wire_set::WireSet;
use mp_netlist::WireId;
use mp_questions::WireChange;
use mp_questions::causes::Tracer;
use mp_wave::WaveChanges;
use std::alloc::{AllocError, Global};
use std::collections::BTreeSet;

/// How many numbers there are for the wires of one time.
const WIRES: u64 = 4_294_967_296;

/// Among how many changes a cycle is looked for.
const MOST_PLACES: u32 = 4_294_967_295;

/// Some wires with their period.
#[derive(Clone, Copy)]
pub(crate) struct Repeating<'a> {
    pub(crate) set: WireSet<'a>,
    pub(crate) times: RunTimes,
    /// The period.
    pub(crate) units: u32,
    ghost are_times: { AreTimes set.of.netlist.now (numbers set.wires.now) times },
    ghost some: { 0 < units },
    ghost few: { units ≤ times.end },
}

impl<'a> Repeating<'a> {
    ghost use Rattle.std.specs.Prelude.{◌≡◌, ◌<◌, ◌≤◌, ◌-◌, ◌%◌, ◌^◌, ◌||◌, IfNone, IfOk, IfSome, IsSome, All, None, Some, false, length, not, true};
    ghost use Rattle.std.specs.List.{find};
    ghost use Rattle.mp_netlist.specs.Circuit.{IsCircuit, wire_at};
    ghost use Rattle.mp_model.specs.Waves.{level, wave};
    ghost use Rattle.mp_wave.specs.Waveform.{between};
    ghost use Rattle.mp_wave.specs.WaveChanges.{changes_in};
    ghost use Rattle.mp_questions.specs.causes.Changes.{last_change};
    ghost use Rattle.mp_questions.specs.timing.Events.{event_times, times_of};
    ghost use Rattle.mp_questions.specs.declared.causes.wire_change.WireChange.{WireChange as Change};
    ghost use Rattle.mp_steady.specs.Cycles.{behind, cycle, first_wire, is_moving, last_of};
    ghost use Rattle.mp_steady.specs.Periods.{last_unit};
    ghost use Rattle.mp_steady.specs.WireSets.{has_events, numbers};

    /// The changes of a wire in the last period.
    pub(crate) fn changes_of(self, wire: WireId) -> WaveChanges<'a>
        requires { IsSome (wire_at self.set.of.netlist.now wire.0) }
        ensures value { changes_in result ≡ between (self.entry.set.of.netlist.now.horizon - 1 - self.entry.units) self.entry.set.of.netlist.now.horizon (wave self.entry.set.of.netlist.now wire.0).changes }
        ensures times { times_of (changes_in result) ≡ event_times (level self.entry.set.of.netlist.now wire.0) (self.entry.set.of.netlist.now.horizon - self.entry.units) self.entry.set.of.netlist.now.horizon }
    {
        let horizon = self.set.of.netlist.horizon();
        let wave = self.set.wave_of(wire);
        wave.changes_between(horizon - 1 - self.units, horizon)
    }

    /// The critical cycle: from the last change of the first wire back, from cause to cause, until one comes again. A cause before the last period stands
    /// for the change so many periods later.
    pub(crate) fn cycle(
        self,
        alloc: Global,
        tracer: &mut Tracer<'_>,
    ) -> Result<Vec<WireChange>, AllocError>
        requires { tracer.old.levels.netlist.now ≡ self.set.of.netlist.now }
        ensures value { IfOk result (λ found. found.items ≡ cycle self.entry.set.of.netlist.now (numbers self.entry.set.wires.now) self.entry.units) }
        ensures few { IfOk result (λ found. length found.items < 2 ^ 32) }
        ensures within { IfOk result (λ found. All (λ (c : Change). (0 < c.time) × (c.time < self.entry.set.of.netlist.now.horizon)) found.items) }
        ensures tracer { tracer.new.levels ≡ tracer.old.levels }
    {
        let mut seen = BTreeSet::new(alloc);
        let mut way = Vec::new(alloc);
        let mut next = self.first_change();
        for _ in 0..MOST_PLACES {
            let Some(change) = next else {
                return Ok(Vec::new(alloc));
            };
            let is_new = seen.insert(key_of(change))?;
            if !is_new {
                return from_place(alloc, change, way.as_slice());
            }
            way.push(change)?;
            next = self.behind(tracer, change);
        }
        Ok(Vec::new(alloc))
    }

    /// The change behind a change.
    fn behind(self, tracer: &mut Tracer<'_>, change: WireChange) -> Option<WireChange>
        requires tracer { tracer.old.levels.netlist.now ≡ self.set.of.netlist.now }
        requires from { 0 < change.time }
        requires within { change.time < self.set.of.netlist.now.horizon }
        ensures value { result ≡ behind self.entry.set.of.netlist.now self.entry.units change }
        ensures within { IfSome result (λ (c : Change). (0 < c.time) × (c.time < self.entry.set.of.netlist.now.horizon)) }
        ensures tracer { tracer.new.levels ≡ tracer.old.levels }
    {
        // Its contract says that the netlist is well formed.
        let _horizon = self.set.of.netlist.horizon();
        match tracer.followed(change) {
            Some(found) => Some(WireChange {
                wire: found.wire,
                time: self.in_last(found.time),
                level: found.level,
            }),
            None => None,
        }
    }

    /// The time in the last period that is some periods after a time.
    fn in_last(self, time: u32) -> u32
        requires { time ≤ last_unit self.set.of.netlist.now }
        ensures { result ≡ last_unit self.entry.set.of.netlist.now - (last_unit self.entry.set.of.netlist.now - time) % self.entry.units }
    {
        self.times.end - (self.times.end - time) % self.units
    }

    /// The last change of the first wire of width 1 with events; if there is none, of the first wire with events.
    fn first_change(self) -> Option<WireChange>
        ensures { result ≡ last_of self.entry.set.of.netlist.now (first_wire self.entry.set.of.netlist.now self.entry.units (numbers self.entry.set.wires.now)) }
    {
        match self.first_moving(true) {
            Some(change) => Some(change),
            None => self.first_moving(false),
        }
    }

    /// The last change of the first wire with events, or of the first one of width 1 with events.
    fn first_moving(self, narrow: bool) -> Option<WireChange>
        ensures none { IfNone result (find (is_moving self.entry.set.of.netlist.now self.entry.units narrow) (numbers self.entry.set.wires.now) ≡ None) }
        ensures some { IfSome result (λ c. last_of self.entry.set.of.netlist.now (find (is_moving self.entry.set.of.netlist.now self.entry.units narrow) (numbers self.entry.set.wires.now)) ≡ Some c) }
    {
        for &wire in self.set.wires {
            if let Some(change) = self.last_change(wire, narrow) {
                return Some(change);
            }
        }
        None
    }

    /// The last change of a wire with events, if it has any; with `narrow` only if its width is 1.
    fn last_change(self, wire: WireId, narrow: bool) -> Option<WireChange>
        requires { IsSome (wire_at self.set.of.netlist.now wire.0) }
        ensures none { IfNone result (is_moving self.entry.set.of.netlist.now self.entry.units narrow wire.0 ≡ false) }
        ensures moving { IfSome result (λ c. is_moving self.entry.set.of.netlist.now self.entry.units narrow wire.0 ≡ true) }
        ensures some { IfSome result (λ c. last_change self.entry.set.of.netlist.now wire (last_unit self.entry.set.of.netlist.now) ≡ Some c) }
    {
        if !self.counts(wire, narrow) {
            return None;
        }
        match self.changes_of(wire).last() {
            Some((time, level)) => Some(WireChange { wire, time, level }),
            None => None,
        }
    }

    /// Whether a wire counts; with `narrow` only one of width 1 does.
    fn counts(self, wire: WireId, narrow: bool) -> bool
        ensures { result ≡ (not narrow || has_events self.entry.set.of.netlist.now wire.0) }
    {
        !narrow || has_events(self.set.of.netlist, wire)
    }
}

/// A change as a number.
fn key_of(change: WireChange) -> u64
    ensures value { result ≡ change.time * 4294967296 + change.wire.0 }
    ensures low { change.wire.0 < 2 ^ 32 }
{
    u64::from(change.time) * WIRES + u64::from(change.wire.0)
}

/// Whether two changes are of the same wire at the same time.
fn is_place(one: WireChange, other: WireChange) -> bool
    ensures { result ≡ is_place one other }
{
    one.wire.0 == other.wire.0 && one.time == other.time
}

/// The changes from a certain one on.
fn from_place(
    alloc: Global,
    change: WireChange,
    way: &[WireChange],
) -> Result<Vec<WireChange>, AllocError>
    ensures { IfOk result (λ found. found.items ≡ from_place change way.now) }
{
    for place in 0..way.len() {
        if is_place(change, way[place]) {
            return Vec::from_slice(alloc, &way[place..]);
        }
    }
    Ok(Vec::new(alloc))
}
