//! The behaviour of an event module.

use crate::finding_set::FindingSet;
use crate::memory::Memory;

/// The behaviour of an event module, unit by unit.
pub trait EventModule {
    ghost use Rattle.std.specs.Prelude.{◌≡◌, ℕ, List};
    ghost use Rattle.mp_modules.specs.declared.memory.Memory.{Memory};
    ghost use Rattle.mp_modules.specs.declared.finding_set.FindingSet.{FindingSet};
    ghost use Rattle.mp_modules.specs.Findings.{no_findings};

    /// The state before time 0.
    ghost start_of: { Self → Memory };

    /// The state at time 0, with these input levels.
    ghost settled: { Self → List ℕ → Memory };

    /// The state after a unit with these input levels.
    ghost stepped: { Self → Memory → List ℕ → Memory };

    /// The level of an output before its delay.
    ghost level_out: { Self → Memory → ℕ → ℕ };

    /// The findings of a unit with these input levels.
    ghost found: { Self → Memory → List ℕ → FindingSet };

    /// The state before time 0.
    fn start(&self) -> Memory
        ensures { result ≡ start_of self.now };

    /// The state at time 0, with these levels at the input ports.
    fn settle(&self, levels: &[u64]) -> Memory
        ensures { result ≡ settled self.now levels.now };

    /// Steps a state to the next unit, at a time from 1 on, with these levels at the input ports.
    fn step(&self, memory: &mut Memory, levels: &[u64])
        ensures { memory.new ≡ stepped self.now memory.old levels.now };

    /// The level of an output in a state, before the output's delay; 0 if there is no such port.
    fn out(&self, memory: Memory, port: usize) -> u64
        ensures { result ≡ level_out self.now memory port };

    /// The findings at a time from 1 on, from the state one unit before and these levels at the input ports.
    fn findings(&self, memory: Memory, levels: &[u64]) -> FindingSet
        ensures { result ≡ found self.now memory levels.now };

    /// After time 0 with some levels, a step with the same levels changes nothing.
    ghost settled_stays: { (part : Self) (levels : List ℕ) → stepped part (settled part levels) levels ≡ settled part levels };

    /// After a step with some levels, a further step with the same levels changes nothing.
    ghost stepped_stays: { (part : Self) (memory : Memory) (levels : List ℕ) → stepped part (stepped part memory levels) levels ≡ stepped part memory levels };

    /// After time 0 with some levels, nothing is found at a step with the same levels.
    ghost settled_quiet: { (part : Self) (levels : List ℕ) → found part (settled part levels) levels ≡ no_findings };

    /// After a step with some levels, nothing is found at a further step with the same levels.
    ghost stepped_quiet: { (part : Self) (memory : Memory) (levels : List ℕ) → found part (stepped part memory levels) levels ≡ no_findings };
}
