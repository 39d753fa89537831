//! Wakes modules: a sleeping module takes its place in the simulation again, and the known changes of its wires go back into the wheels.
ghost use Rattle.std.specs.Prelude.{◌≡◌, ℕ, ◌+◌, ◌-◌, ◌≤◌, ◌++◌, ◌∷◌, [], drop, OnOk};
ghost use Rattle.mp_wave.specs.Waveform.{between};
ghost use Rattle.mp_active.specs.steps.Putting.{HasPut, entries_of, room};
ghost use Rattle.mp_redo.specs.rerun.Returning.{IsTailIn, AreTailsIn, tail_of, others_of};

use crate::rerun::last_wave::last_wave;
use crate::rerun::rerun::Rerun;
use mp_active::agreement::laws::wires_agree;
use mp_active::{Change, OldWire, put_change, put_old_changes, rests_near, seat_bits, seat_data};
use mp_modules::{AnyModule, Memory};
use mp_netlist::{ModuleId, ModuleRecord, Output};
use mp_partition::Region;
use mp_simulation::{HeardChanges, NetlistSimulation, StimulusChange, data_module};
use std::alloc::AllocError;

impl Rerun {
    ghost use Rattle.std.specs.Prelude.{◌≡◌, ◌||◌, ℕ, ◌+◌, ◌-◌, ◌<◌, ◌≤◌, ◌^◌, Some, OnOk};
    ghost use Rattle.mp_netlist.specs.Circuit.{module_at};
    ghost use Rattle.mp_netlist.specs.Drivers.{driver};
    ghost use Rattle.mp_model.specs.Levels.{built};
    ghost use Rattle.mp_records.specs.NamedWires.{is_wire};
    ghost use Rattle.mp_records.specs.declared.module_record.ModuleRecord.{ModuleRecord as Part};
    ghost use Rattle.mp_records.specs.Outputs.{delay_of};
    ghost use Rattle.mp_simulation.specs.run.Stimuli.{left_of};
    ghost use Rattle.mp_active.specs.excerpt.Numberings.{Numbering};
    ghost use Rattle.mp_active.specs.excerpt.Leaving.{is_port_of};
    ghost use Rattle.mp_active.specs.steps.Putting.{HasPut, entries_of, room};
    ghost use Rattle.mp_redo.specs.rerun.Reruns.{IsChange};
    ghost use Rattle.mp_redo.specs.rerun.Returning.{HasPlaces, HasSeat, CanReturn, AreBack, IsNextBack, AreTailsIn, CanPutLast, HasPutSpan, tail_of, others_of};

    /// A module takes its place in a state.
    pub(crate) fn seat(
        &mut self,
        change: &Change<'_>,
        id: ModuleId,
        found: &ModuleRecord,
        part: &AnyModule,
        memory: &Memory,
    ) -> Result<(), AllocError>
        requires change { IsChange change.now }
        requires stands { module_at change.now.new.now id.0 ≡ Some found.now }
        requires part { part.now ≡ built change.now.new.now found.now }
        requires places { HasPlaces id.0 self.old }
        ensures { OnOk result (HasSeat change.now.new.now id.0 found.now memory.now self.old self.new) }
    {
        if change.new.module_width(found) == 1 {
            seat_bits(&mut self.simulation, id.0, part, memory);
            return Ok(());
        }
        let m = id.0 as usize;
        let whole = Region::whole(change.new);
        let state = data_module(&whole, found, part, memory, self.inputs[m]);
        let seat = self.activity.seats[m];
        let place = seat_data(&mut self.simulation, id.0, seat, state)?;
        self.activity.seats[m] = Some(place);
        Ok(())
    }

    /// After the unit of a time, the wheels have what is known of a module's wires. It has slept up to then.
    pub(crate) fn put_outputs(
        &mut self,
        change: &Change<'_>,
        id: ModuleId,
        found: &ModuleRecord,
        now: u32,
    ) -> Result<(), AllocError>
        requires change { IsChange change.now }
        requires stands { module_at change.now.new.now id.0 ≡ Some found.now }
        requires below { now + 1 < change.now.new.now.horizon }
        requires can { (numbering : Numbering) × (since : ℕ → ℕ) × CanReturn change.now.old.now change.now.new.now change.now.run.now numbering since now id.0 self.old }
        ensures { OnOk result ((numbering : Numbering) (since : ℕ → ℕ) → CanReturn change.now.old.now change.now.new.now change.now.run.now numbering since now id.0 self.old →
            AreBack change.now.new.now numbering now (λ w. is_port_of id.0 (driver change.now.new.now w)) self.old self.new) }
    {
        for (port, output) in found.outputs.as_slice().iter().enumerate() {
            self.put_output(change, id, port, *output, now)?;
        }
        Ok(())
    }

    /// After the unit of a time, the wheels have what is known of an output's wire: its tail, and then the changes that it had in the old run.
    fn put_output(
        &mut self,
        change: &Change<'_>,
        id: ModuleId,
        port: usize,
        output: Output,
        now: u32,
    ) -> Result<(), AllocError>
        requires change { IsChange change.now }
        requires below { now + 1 < change.now.new.now.horizon }
        requires next { IsNextBack change.now.old.now change.now.new.now change.now.run.now now id.0 port output self.old }
        ensures { OnOk result ((next : IsNextBack change.now.old.now change.now.new.now change.now.run.now now id.0 port output self.old) →
            AreBack change.now.new.now next.numbering now (λ v. next.wires v || is_wire output.wire v) next.start self.new) }
    {
        let Some(wire) = output.wire else {
            return Ok(());
        };
        wires_agree();
        let Some(wave) = change.run.wave(wire) else {
            return Ok(());
        };
        let near = self.near_place(wire.0);
        let w = wire.0 as usize;
        let until = self.comparison.sources[w].until;
        let old = OldWire {
            number: wire.0,
            has_data: self.comparison.numbers.have_data[w],
            wave,
        };
        self.take_tail_back(old, until, now)?;
        let own = until.max(now + 1);
        let known = now + 1 + output.delay;
        let kept = change.new.horizon().min(known).max(own);
        put_near_changes(&mut self.simulation, old, near, own - 1, kept, now)?;
        if kept < known {
            self.put_last_changes(change, id, port, kept, now)?;
        }
        Ok(())
    }

    /// After the unit of a time, the wheels have the changes of an output's wire from another time on, which isn't before the horizon, as far as
    /// they rest on states up to then. No wave has them, so that the module answers once more.
    fn put_last_changes(
        &mut self,
        change: &Change<'_>,
        id: ModuleId,
        port: usize,
        from: u32,
        now: u32,
    ) -> Result<(), AllocError>
        requires change { IsChange change.now }
        requires below { now + 1 < change.now.new.now.horizon }
        requires last { change.now.new.now.horizon ≤ from }
        requires can { (part : Part) × (wire : ℕ) × CanPutLast change.now.old.now change.now.new.now now id.0 port part wire from self.old }
        ensures { OnOk result ((part : Part) (wire : ℕ) → CanPutLast change.now.old.now change.now.new.now now id.0 port part wire from self.old →
            HasPutSpan change.now.new.now wire now (from - 1) (now + 1 + delay_of part port) self.old self.new) }
    {
        let Some(found) = change.new.module(id) else {
            return Ok(());
        };
        let outputs = found.outputs.as_slice();
        let output = outputs[port];
        let Some(wire) = output.wire else {
            return Ok(());
        };
        let alloc = *self.pending_outputs.list.allocator();
        let wave = last_wave(alloc, change, id, found, port, now)?;
        let last = OldWire {
            number: wire.0,
            has_data: self.comparison.numbers.have_data[wire.0 as usize],
            wave: &wave,
        };
        let until = now + 1 + output.delay;
        let put = put_old_changes(&mut self.simulation, last, from - 1, until, now);
        drop(wave);
        put
    }

    /// After the unit of a time, the tail of a wire, which ends before another time, goes back into the wheels.
    fn take_tail_back(&mut self, wire: OldWire<'_>, until: u32, now: u32) -> Result<(), AllocError>
        requires below { now < 2 ^ 32 - 1 }
        requires pending_outputs { AreTailsIn wire.number now until (room wire.has_data self.old.simulation) wire.has_data (left_of self.old.pending_outputs) }
        ensures kept { OnOk result (self.new ≡ record self.old { simulation = self.new.simulation; pending_outputs = self.new.pending_outputs }) }
        ensures put { OnOk result (HasPut wire.entry.has_data (entries_of wire.entry.number now (tail_of wire.entry.number (left_of self.old.pending_outputs))) self.old.simulation self.new.simulation) }
        ensures left { OnOk result (left_of self.new.pending_outputs ≡ others_of wire.entry.number (left_of self.old.pending_outputs)) }
    {
        if until <= now + 1 {
            return Ok(());
        }
        let alloc = *self.pending_outputs.list.allocator();
        let mut others = Vec::new(alloc);
        put_tail(
            &mut self.simulation,
            self.pending_outputs.list.as_slice(),
            self.pending_outputs.place,
            wire,
            now,
            &mut others,
        )?;
        self.pending_outputs = HeardChanges {
            list: others,
            place: 0,
        };
        Ok(())
    }
}

/// Schedules, after the unit of a time, a wire's changes in the old run between two times. Mostly there are none, which a look near a place shows.
fn put_near_changes(
    simulation: &mut NetlistSimulation,
    wire: OldWire<'_>,
    near: usize,
    from: u32,
    to: u32,
    now: u32,
) -> Result<(), AllocError>
    requires later { now ≤ from }
    requires within { to - now ≤ room wire.has_data simulation.old + 1 }
    ensures { OnOk result (HasPut wire.entry.has_data (entries_of wire.entry.number now (between from to wire.entry.wave.now.changes)) simulation.old simulation.new) }
{
    if to > 0 && rests_near(wire.wave, near, from, to - 1) {
        return Ok(());
    }
    put_old_changes(simulation, wire, from, to, now)
}

/// Puts those changes from a place on that are of this wire into the wheels after the unit of a time, and lists the others.
fn put_tail(
    simulation: &mut NetlistSimulation,
    list: &[StimulusChange],
    from: usize,
    wire: OldWire<'_>,
    now: u32,
    others: &mut Vec<StimulusChange>,
) -> Result<(), AllocError>
    requires { (until : ℕ) × AreTailsIn wire.number now until (room wire.has_data simulation.old) wire.has_data (drop from list.now) }
    ensures put { OnOk result (HasPut wire.entry.has_data (entries_of wire.entry.number now (tail_of wire.entry.number (drop from list.now))) simulation.old simulation.new) }
    ensures others { OnOk result (others.new.items ≡ others.old.items ++ others_of wire.entry.number (drop from list.now)) }
{
    for place in from..list.len() {
        put_or_keep(simulation, list[place], wire, now, others)?;
    }
    Ok(())
}

/// Puts a change of this wire into the wheels after the unit of a time, and lists a change of another wire.
fn put_or_keep(
    simulation: &mut NetlistSimulation,
    change: StimulusChange,
    wire: OldWire<'_>,
    now: u32,
    others: &mut Vec<StimulusChange>,
) -> Result<(), AllocError>
    requires { (until : ℕ) × (change.wire ≡ wire.number → IsTailIn now until (room wire.has_data simulation.old) wire.has_data change) }
    ensures put { OnOk result (HasPut wire.entry.has_data (entries_of wire.entry.number now (tail_of wire.entry.number (change ∷ []))) simulation.old simulation.new) }
    ensures others { OnOk result (others.new.items ≡ others.old.items ++ others_of wire.entry.number (change ∷ [])) }
{
    if change.wire == wire.number {
        put_change(simulation, change, now)?;
        return Ok(());
    }
    others.push(change)?;
    Ok(())
}
