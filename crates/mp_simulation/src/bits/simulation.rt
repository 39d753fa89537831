//! A simulator with the delayed copies that it reads.

use crate::bits::delayed_copies::DelayedCopies;
use crate::bits::simulator::Simulator;
use std::alloc::AllocError;

/// A simulator with the delayed copies that it reads, in an evaluation that follows no other.
#[derive(Drop)]
pub struct Simulation {
    pub simulator: Simulator,
    pub copies: DelayedCopies,
}

impl Simulation {
    ghost use Rattle.std.specs.Prelude.{◌≡◌, ◌↔◌, ℕ, ◌+◌, [], Option, IsTrue, OnOk, length};
    ghost use Rattle.mp_netlist.specs.Circuit.{Circuit, IsCircuit};
    ghost use Rattle.mp_simulation.specs.bits.Scopes.{Scope, with_answers};
    ghost use Rattle.mp_simulation.specs.bits.Simulators.{CanApply};
    ghost use Rattle.mp_simulation.specs.bits.WholeRuns.{IsWhole, AreSet};
    ghost use Rattle.mp_simulation.specs.bits.Simulations.{copy_slot, IsSoundRun, IsQuiet, IsIdle, IsRunning, HasHeard};

    /// Goes through one unit, in which these wires are set from outside.
    pub fn pass_unit(&mut self, set: &[u32], time: u32) -> Result<(), AllocError>
        requires sound { IsSoundRun self.old }
        requires fit { CanApply self.old.simulator set.now (copy_slot self.old.copies 0) time }
        ensures sound { OnOk result (IsSoundRun self.new) }
        ensures passed { OnOk result ((n : Circuit) (scope : Scope) (before : ℕ → Option ℕ) (t : ℕ) → IsCircuit n → time ≡ t + 1 → IsWhole n scope before t →
            AreSet n scope set.now (t + 1) → IsRunning n scope before t self.old → IsRunning n (with_answers scope (t + 2)) before (t + 1) self.new) }
        ensures waves { OnOk result (length self.new.simulator.waves ≡ length self.old.simulator.waves) }
    {
        if set.is_empty() && self.is_quiet() {
            self.skip_unit();
            return Ok(());
        }
        self.apply(set, time)?;
        self.fire()?;
        Ok(())
    }

    /// The next unit begins, in which these wires are set from outside: modules have their events, and those that have one are due.
    pub fn apply(&mut self, set: &[u32], time: u32) -> Result<(), AllocError>
        requires sound { IsSoundRun self.old }
        requires fit { CanApply self.old.simulator set.now (copy_slot self.old.copies 0) time }
        ensures sound { OnOk result (IsSoundRun self.new) }
        ensures heard { OnOk result ((n : Circuit) (scope : Scope) (before : ℕ → Option ℕ) (t : ℕ) → IsCircuit n → time ≡ t + 1 → IsWhole n scope before t →
            AreSet n scope set.now (t + 1) → IsRunning n scope before t self.old → HasHeard n scope before t self.new) }
        ensures waves { OnOk result (length self.new.simulator.waves ≡ length self.old.simulator.waves) }
    {
        self.copies.begin_unit();
        self.simulator
            .apply_events(set, self.copies.present.as_slice(), time)?;
        self.copies.advance(
            self.simulator.present.as_slice(),
            self.simulator.waves.len(),
        )?;
        Ok(())
    }

    /// The modules that are due fire, and the unit is over.
    pub fn fire(&mut self) -> Result<(), AllocError>
        requires { IsSoundRun self.old }
        ensures sound { OnOk result (IsSoundRun self.new) }
        ensures fired { OnOk result ((n : Circuit) (scope : Scope) (before : ℕ → Option ℕ) (t : ℕ) → IsCircuit n → HasHeard n scope before t self.old →
            IsRunning n (with_answers scope (t + 2)) before (t + 1) self.new) }
        ensures waves { OnOk result (length self.new.simulator.waves ≡ length self.old.simulator.waves) }
    {
        self.simulator.fire()?;
        Ok(())
    }

    /// Whether nothing changes in the next unit that isn't set from outside.
    #[inline(always)]
    pub fn is_quiet(&self) -> bool
        requires { IsSoundRun self.now }
        ensures { IsTrue result ↔ IsQuiet self.now }
    {
        self.simulator.wheel.is_quiet() && self.copies.wheel.is_quiet()
    }

    /// Whether nothing changes in any unit to come that isn't set from outside. A unit in which nothing is set is then over without a step.
    pub fn is_idle(&self) -> bool
        ensures { IsTrue result ↔ IsIdle self.now }
    {
        self.simulator.wheel.is_idle() && self.copies.wheel.is_idle()
    }

    /// Goes through one unit in which nothing changes.
    #[inline(always)]
    pub fn skip_unit(&mut self)
        requires sound { IsSoundRun self.old }
        requires quiet { IsQuiet self.old }
        ensures sound { IsSoundRun self.new }
        ensures passed { (n : Circuit) (scope : Scope) (before : ℕ → Option ℕ) (t : ℕ) → IsCircuit n → IsWhole n scope before t → AreSet n scope [] (t + 1) →
            IsRunning n scope before t self.old → IsRunning n (with_answers scope (t + 2)) before (t + 1) self.new }
        ensures waves { length self.new.simulator.waves ≡ length self.old.simulator.waves }
    {
        self.simulator.wheel.skip();
        self.copies.wheel.skip();
    }
}
