//! A simulator of modules of width 1.
ghost use Rattle.std.specs.Prelude.{◌≡◌};

use mp_kernel::{
    EventSlot, EventWheel, Fanout, OutputTable, WaveTable, add_fanout_events, fire_modules,
    toggle_wires,
};
use mp_modules::{AutomatonState, Memory, PortLevels, TransitionTable};
use std::alloc::AllocError;

/// The modules of width 1 of a netlist: each has a place, with its state, the levels at its ports, and its outputs. The fanout has the inputs that
/// read each number: the numbers of wires, and after them those of their delayed copies. Modules that have had an event in this unit are due. Each
/// wire of width 1 has a wave, and the wheel has the events to come. The wires that toggled in the present unit are kept until others do.
#[derive(Drop)]
pub struct Simulator {
    pub table: TransitionTable,
    pub fanout: Fanout,
    pub outputs: OutputTable,
    pub states: Vec<AutomatonState>,
    pub levels: Vec<PortLevels>,
    pub due: Vec<u32>,
    pub waves: WaveTable,
    pub wheel: EventWheel,
    pub present: EventSlot,
}

impl Simulator {
    ghost use Rattle.std.specs.Prelude.{◌≡◌, ℕ, ◌+◌, ◌<◌, ◌++◌, [], Some, OnOk, length};
    ghost use Rattle.mp_records.specs.declared.module_record.ModuleRecord.{ModuleRecord};
    ghost use Rattle.mp_netlist.specs.Circuit.{Circuit, IsCircuit, module_at};
    ghost use Rattle.mp_model.specs.Waves.{state};
    ghost use Rattle.mp_simulation.specs.bits.Scopes.{Scope, with_answers};
    ghost use Rattle.mp_simulation.specs.bits.Simulators.{next_slot, IsSound, CanApply, AreOnlyDue};
    ghost use Rattle.mp_simulation.specs.bits.Units.{IsBefore, IsDuring, AreDue};

    /// The next unit begins: the wires of its slot toggle, and these others that are set from outside. Inputs that read them have an event, and
    /// so do those that read other numbers that have a change in this unit. A module that isn't due then has had no event.
    pub fn apply_events(&mut self, set: &[u32], others: &[u32], time: u32) -> Result<(), AllocError>
        requires sound { IsSound self.old }
        requires fit { CanApply self.old set.now others.now time }
        ensures sound { OnOk result (IsSound self.new) }
        ensures applied { OnOk result ((n : Circuit) (scope : Scope) (t : ℕ) → IsCircuit n → time ≡ t + 1 → IsBefore n scope t self.old →
            AreDue n scope t (next_slot self.old ++ set.now) others.now → IsDuring n scope t self.new) }
        ensures only { OnOk result (self.old.due.items ≡ [] → AreOnlyDue self.old.fanout ((next_slot self.old ++ set.now) ++ others.now) self.new.due.items) }
        ensures same { OnOk result (self.new.fanout ≡ self.old.fanout) }
        ensures outputs { OnOk result (self.new.outputs ≡ self.old.outputs) }
        ensures present { OnOk result (self.new.present ≡ next_slot self.old ++ set.now) }
        ensures units { OnOk result (length self.new.wheel ≡ length self.old.wheel) }
        ensures places { OnOk result (length self.new.states.items ≡ length self.old.states.items) }
        ensures waves { OnOk result (length self.new.waves ≡ length self.old.waves) }
    {
        self.wheel.turn(&mut self.present);
        self.present.extend_from_slice(set)?;
        toggle_wires(
            &self.fanout,
            &mut self.states,
            &mut self.due,
            &mut self.waves,
            self.present.as_slice(),
            time,
        )?;
        add_fanout_events(&self.fanout, &mut self.states, &mut self.due, others)?;
        Ok(())
    }

    /// The modules that are due fire, and none is due then.
    pub fn fire(&mut self) -> Result<(), AllocError>
        requires sound { IsSound self.old }
        ensures sound { OnOk result (IsSound self.new) }
        ensures fired { OnOk result ((n : Circuit) (scope : Scope) (t : ℕ) → IsCircuit n → IsDuring n scope t self.old →
            IsBefore n (with_answers scope (t + 2)) (t + 1) self.new) }
        ensures same { OnOk result (self.new.fanout ≡ self.old.fanout) }
        ensures outputs { OnOk result (self.new.outputs ≡ self.old.outputs) }
        ensures units { OnOk result (length self.new.wheel ≡ length self.old.wheel) }
        ensures places { OnOk result (length self.new.states.items ≡ length self.old.states.items) }
        ensures waves { OnOk result (self.new.waves ≡ self.old.waves) }
    {
        fire_modules(
            &self.table,
            &self.outputs,
            &mut self.states,
            &mut self.levels,
            &mut self.wheel,
            self.due.as_slice(),
        )?;
        self.due.clear();
        Ok(())
    }

    /// The state of the module at a place, between two units.
    pub fn memory(&self, place: u32) -> Memory
        requires sound { IsSound self.now }
        requires within { place < length self.now.states.items }
        ensures { (n : Circuit) (scope : Scope) (t m : ℕ) (r : ModuleRecord) → IsBefore n scope t self.now → module_at n m ≡ Some r → scope.place m ≡ Some place →
            result ≡ state n m t }
    {
        let q = place as usize;
        self.states[q].memory(self.levels[q])
    }
}
