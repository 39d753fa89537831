//! Wires are turned on between two units.
ghost use Rattle.std.specs.Prelude.{◌≡◌};

use crate::rerun::rerun::Rerun;
use mp_active::agreement::laws::wires_agree;
use mp_active::{Change, OldWire, turn_on};
use mp_netlist::{ModuleId, ModuleRecord, Output, WireId};
use std::alloc::AllocError;

impl Rerun {
    ghost use Rattle.std.specs.Prelude.{◌≡◌, ◌==◌, ◌||◌, ℕ, ◌+◌, ◌<◌, true, Some, IsSome, OnOk};
    ghost use Rattle.mp_netlist.specs.Circuit.{Drives, wire_at, module_at};
    ghost use Rattle.mp_partition.specs.regions.Readers.{Reads};
    ghost use Rattle.mp_redo.specs.rerun.Reruns.{IsChange, IsRerunAt, on_of};
    ghost use Rattle.mp_redo.specs.rerun.Waking.{HasTurnedOn};

    /// After the unit of a time, all wires are on that a module reads or drives.
    pub(crate) fn turn_ports_on(
        &mut self,
        change: &Change<'_>,
        id: ModuleId,
        found: &ModuleRecord,
        now: u32,
    ) -> Result<(), AllocError>
        requires change { IsChange change.now }
        requires stands { module_at change.now.new.now id.0 ≡ Some found.now }
        requires below { now + 1 < change.now.new.now.horizon }
        requires is { (latest : ℕ) × IsRerunAt change.now.old.now change.now.new.now change.now.run.now latest now self.old }
        ensures is { OnOk result ((latest : ℕ) → IsRerunAt change.now.old.now change.now.new.now change.now.run.now latest now self.old →
            IsRerunAt change.now.old.now change.now.new.now change.now.run.now latest now self.new) }
        ensures turned { OnOk result (HasTurnedOn self.old self.new) }
        ensures read { OnOk result ((w : ℕ) → Reads change.now.new.now id.0 w → on_of self.new w ≡ true) }
        ensures driven { OnOk result ((p w : ℕ) → Drives change.now.new.now id.0 p w → on_of self.new w ≡ true) }
    {
        for input in found.inputs.as_slice() {
            self.turn_wire_on(change, input.wire, now)?;
        }
        for output in found.outputs.as_slice() {
            self.turn_output_on(change, *output, now)?;
        }
        Ok(())
    }

    /// The wire of an output, if any, is on after the unit of a time.
    fn turn_output_on(
        &mut self,
        change: &Change<'_>,
        output: Output,
        now: u32,
    ) -> Result<(), AllocError>
        requires change { IsChange change.now }
        requires stand { (w : ℕ) → output.wire ≡ Some (record { 0 = w }) → IsSome (wire_at change.now.new.now w) }
        requires below { now + 1 < change.now.new.now.horizon }
        requires is { (latest : ℕ) × IsRerunAt change.now.old.now change.now.new.now change.now.run.now latest now self.old }
        ensures is { OnOk result ((latest : ℕ) → IsRerunAt change.now.old.now change.now.new.now change.now.run.now latest now self.old →
            IsRerunAt change.now.old.now change.now.new.now change.now.run.now latest now self.new) }
        ensures turned { OnOk result (HasTurnedOn self.old self.new) }
        ensures on { OnOk result ((w : ℕ) → output.wire ≡ Some (record { 0 = w }) → on_of self.new w ≡ true) }
    {
        let Some(wire) = output.wire else {
            return Ok(());
        };
        self.turn_wire_on(change, wire, now)?;
        Ok(())
    }

    /// A wire is on after the unit of a time. If it was off, it has the levels of the old run up to then.
    fn turn_wire_on(
        &mut self,
        change: &Change<'_>,
        wire: WireId,
        now: u32,
    ) -> Result<(), AllocError>
        requires change { IsChange change.now }
        requires stands { IsSome (wire_at change.now.new.now wire.0) }
        requires below { now + 1 < change.now.new.now.horizon }
        requires is { (latest : ℕ) × IsRerunAt change.now.old.now change.now.new.now change.now.run.now latest now self.old }
        ensures is { OnOk result ((latest : ℕ) → IsRerunAt change.now.old.now change.now.new.now change.now.run.now latest now self.old →
            IsRerunAt change.now.old.now change.now.new.now change.now.run.now latest now self.new) }
        ensures turned { OnOk result (HasTurnedOn self.old self.new) }
        ensures on { OnOk result ((w : ℕ) → on_of self.new w ≡ (on_of self.old w || (w == wire.0))) }
    {
        if self.comparison.sources[wire.0 as usize].is_on {
            return Ok(());
        }
        wires_agree();
        let Some(wave) = change.run.wave(wire) else {
            return Ok(());
        };
        let old = OldWire {
            number: wire.0,
            has_data: self.comparison.numbers.have_data[wire.0 as usize],
            wave,
        };
        turn_on(&mut self.simulation, old, now)?;
        self.comparison.follow(change.run, wire.0, now)?;
        Ok(())
    }
}
