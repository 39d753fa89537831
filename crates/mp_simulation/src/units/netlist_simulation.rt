//! A simulation of a netlist of any widths.

use crate::bits::Simulation;
use crate::units::data_modules::DataModules;
use crate::units::data_wires::DataWires;
use mp_kernel::{LevelChange, fire_data_modules};
use mp_modules::Memory;
use std::alloc::AllocError;

/// A simulation of a netlist of any widths. A module with data has a place of the simulator of modules of width 1, if it sleeps: so its events are
/// counted there, and it is due if it has one.
#[derive(Drop)]
pub struct NetlistSimulation {
    pub bits: Simulation,
    pub wires: DataWires,
    pub modules: DataModules,
}

impl NetlistSimulation {
    ghost use Rattle.std.specs.Prelude.{◌≡◌, ◌↔◌, ℕ, ◌+◌, ◌-◌, ◌<◌, ◌^◌, [], Some, IsTrue, OnOk, length};
    ghost use Rattle.mp_records.specs.declared.module_record.ModuleRecord.{ModuleRecord as Part};
    ghost use Rattle.mp_netlist.specs.Circuit.{Circuit, IsCircuit, module_at};
    ghost use Rattle.mp_model.specs.Waves.{state};
    ghost use Rattle.mp_kernel.specs.events.Adding.{listed};
    ghost use Rattle.mp_simulation.specs.bits.Simulators.{slot_at};
    ghost use Rattle.mp_simulation.specs.bits.Simulations.{IsSoundRun};
    ghost use Rattle.mp_simulation.specs.units.NetlistSimulations.{IsSimulated, AreStimuli, CanPass, CanTell, IsStill, IsAtRest, HasKeptNumbers};
    ghost use Rattle.mp_simulation.specs.units.DataWheels.{data_slot};
    ghost use Rattle.mp_simulation.specs.units.Units.{IsApplied, CanFire};

    /// Goes through one unit, in which these wires of width 1 toggle and these with data change from outside.
    pub fn pass_unit(
        &mut self,
        set: &[u32],
        levels: &[LevelChange],
        time: u32,
    ) -> Result<(), AllocError>
        requires fit { CanPass set.now levels.now time self.old }
        requires low { time < 2 ^ 32 - 1 }
        ensures { OnOk result ((n : Circuit) (t : ℕ) → IsCircuit n → time ≡ t + 1 → IsSimulated n t self.old → AreStimuli n set.now levels.now time →
            IsSimulated n (t + 1) self.new) }
    {
        self.apply(set, levels, time)?;
        self.fire()?;
        Ok(())
    }

    /// Applies what changes in the next unit, in which these wires of width 1 toggle and these with data change from outside. Modules whose
    /// inputs change are due.
    #[inline(always)]
    pub fn apply(
        &mut self,
        set: &[u32],
        levels: &[LevelChange],
        time: u32,
    ) -> Result<(), AllocError>
        requires fit { CanPass set.now levels.now time self.old }
        requires low { time < 2 ^ 32 - 1 }
        ensures applied { OnOk result ((n : Circuit) (t : ℕ) → IsCircuit n → time ≡ t + 1 → IsSimulated n t self.old → AreStimuli n set.now levels.now time →
            IsApplied n t self.new) }
        ensures numbers { OnOk result (HasKeptNumbers self.old self.new) }
    {
        if set.is_empty() && levels.is_empty() && self.is_still() {
            self.skip_unit();
            return Ok(());
        }
        self.apply_changes(set, levels, time)?;
        Ok(())
    }

    /// The modules that are due, by number: those that have had an event in the present unit and haven't fired. The others stay as they are.
    pub fn due(&self) -> &[u32]
        ensures { (n : Circuit) (t m : ℕ) (r : Part) → IsCircuit n → IsApplied n t self.now → module_at n m ≡ Some r → listed m result.now ≡ 0 →
            state n m (t + 1) ≡ state n m t }
    {
        self.bits.simulator.due.as_slice()
    }

    /// The modules that are due fire, and the unit is over.
    #[inline(always)]
    pub fn fire(&mut self) -> Result<(), AllocError>
        requires { CanFire self.old }
        ensures fired { OnOk result ((n : Circuit) (t : ℕ) → IsCircuit n → IsApplied n t self.old → IsSimulated n (t + 1) self.new) }
        ensures numbers { OnOk result (HasKeptNumbers self.old self.new) }
    {
        if self.bits.simulator.due.is_empty() {
            return Ok(());
        }
        self.fire_due()?;
        Ok(())
    }

    /// The wires of width 1 that toggle `units` after the next unit, as far as is known.
    pub fn toggles_ahead(&self, units: usize) -> &[u32]
        ensures { result.now ≡ slot_at self.now.bits.simulator units }
    {
        self.bits.simulator.wheel.slot(units)
    }

    /// The changes of wires with data `units` after the next unit, as far as is known.
    pub fn levels_ahead(&self, units: usize) -> &[LevelChange]
        ensures { result.now ≡ data_slot self.now.wires.wheel units }
    {
        self.wires.wheel.slot(units)
    }

    /// The state of the module of a number.
    pub fn memory(&self, number: u32) -> Memory
        requires { CanTell number self.now }
        ensures { (n : Circuit) (t : ℕ) (r : Part) → IsCircuit n → IsSimulated n t self.now → module_at n number ≡ Some r → result ≡ state n number t }
    {
        match self.modules.places[number as usize] {
            Some(place) => {
                self.modules.modules[place as usize].memory(self.wires.levels.as_slice())
            }
            None => self.bits.simulator.memory(number),
        }
    }

    /// How often wires have changed so far.
    pub fn count_changes(&self) -> usize {
        let mut count = self.bits.simulator.waves.count_toggles();
        for wave in &self.wires.waves {
            count = count.saturating_add(wave.wave().changes().len());
        }
        count
    }

    /// Whether nothing changes in the next unit that isn't set from outside.
    #[inline(always)]
    pub fn is_still(&self) -> bool
        requires bits { IsSoundRun self.now.bits }
        requires wheel { 0 < length self.now.wires.wheel }
        ensures { IsTrue result ↔ IsStill self.now }
    {
        self.bits.simulator.wheel.is_quiet()
            && self.bits.copies.wheel.is_quiet()
            && self.wires.wheel.is_quiet()
    }

    /// Whether nothing changes in any unit to come that isn't set from outside. A unit in which nothing is set is then over without a step.
    pub fn is_at_rest(&self) -> bool
        ensures { IsTrue result ↔ IsAtRest self.now }
    {
        self.bits.is_idle() && self.wires.wheel.is_idle()
    }

    /// Goes through one unit in which nothing changes.
    #[inline(always)]
    pub fn skip_unit(&mut self)
        requires bits { IsSoundRun self.old.bits }
        requires wheel { 0 < length self.old.wires.wheel }
        requires still { IsStill self.old }
        ensures applied { (n : Circuit) (t : ℕ) → IsCircuit n → IsSimulated n t self.old → AreStimuli n [] [] (t + 1) → IsApplied n t self.new }
        ensures passed { (n : Circuit) (t : ℕ) → IsCircuit n → IsSimulated n t self.old → AreStimuli n [] [] (t + 1) → IsSimulated n (t + 1) self.new }
        ensures numbers { HasKeptNumbers self.old self.new }
    {
        self.bits.simulator.wheel.skip();
        self.bits.copies.wheel.skip();
        self.wires.wheel.skip();
    }

    /// Applies what changes in the next unit, if anything does.
    fn apply_changes(
        &mut self,
        set: &[u32],
        levels: &[LevelChange],
        time: u32,
    ) -> Result<(), AllocError>
        requires fit { CanPass set.now levels.now time self.old }
        requires low { time < 2 ^ 32 - 1 }
        ensures applied { OnOk result ((n : Circuit) (t : ℕ) → IsCircuit n → time ≡ t + 1 → IsSimulated n t self.old → AreStimuli n set.now levels.now time →
            IsApplied n t self.new) }
        ensures numbers { OnOk result (HasKeptNumbers self.old self.new) }
    {
        self.bits.copies.begin_unit();
        self.wires
            .begin_unit(self.bits.copies.present.as_slice(), levels)?;
        self.bits
            .simulator
            .apply_events(set, self.wires.heard.as_slice(), time)?;
        self.wires.apply(
            self.bits.simulator.present.as_slice(),
            self.bits.copies.present.as_slice(),
            time,
        )?;
        self.bits.copies.advance(
            self.bits.simulator.present.as_slice(),
            self.bits.simulator.waves.len(),
        )?;
        self.wires.advance()?;
        Ok(())
    }

    /// The modules that are due fire, if any are, and the unit is over.
    fn fire_due(&mut self) -> Result<(), AllocError>
        requires { CanFire self.old }
        ensures fired { OnOk result ((n : Circuit) (t : ℕ) → IsCircuit n → IsApplied n t self.old → IsSimulated n (t + 1) self.new) }
        ensures numbers { OnOk result (HasKeptNumbers self.old self.new) }
    {
        fire_data_modules(
            self.modules.places.as_slice(),
            &mut self.modules.modules,
            self.wires.levels.as_slice(),
            &mut self.bits.simulator.wheel,
            &mut self.wires.wheel,
            self.bits.simulator.due.as_slice(),
        )?;
        self.bits.simulator.fire()?;
        Ok(())
    }
}
