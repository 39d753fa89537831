//! The states that a run of a whole netlist keeps on its way.
ghost use Rattle.std.specs.Prelude.{◌≡◌, ℕ, ◌-◌, ◌<◌, ◌∷◌, [], false, IfOk, OnOk, length, slice_set};
ghost use Rattle.mp_netlist.specs.Circuit.{IsCircuit, module_at};
ghost use Rattle.mp_simulation.specs.units.NetlistSimulations.{IsSimulated};
ghost use Rattle.mp_partition.specs.runs.Marks.{is_marked, AreListed, AreAdded};
ghost use Rattle.mp_engine.specs.region_runs.StateHistories.{ids_of, first_kept, AreFirst, AreKept};

use crate::region_runs::marks::no_marks;
use mp_modules::EventModule;
use mp_netlist::{ModuleId, checkpoint_units};
use mp_partition::{Checkpoints, Region};
use mp_simulation::NetlistSimulation;
use std::alloc::{AllocError, Global};

/// What is kept of each module at checkpoints, and which modules have fired since the last one: marked, and listed.
#[derive(Drop)]
pub(crate) struct StateHistory {
    pub marks: Vec<bool>,
    pub list: Vec<ModuleId>,
    pub kept: Vec<Checkpoints>,
}

impl StateHistory {
    ghost use Rattle.std.specs.Prelude.{◌≡◌, ℕ, ◌+◌, ◌-◌, ◌<◌, ◌≤◌, [], IfOk, OnOk};
    ghost use Rattle.mp_netlist.specs.Circuit.{IsCircuit};
    ghost use Rattle.mp_simulation.specs.units.NetlistSimulations.{IsSimulated};
    ghost use Rattle.mp_partition.specs.runs.Checkpoints.{IsBorder};
    ghost use Rattle.mp_partition.specs.runs.Marks.{AreAdded};
    ghost use Rattle.mp_engine.specs.region_runs.StateHistories.{ids_of, IsStateHistory};

    /// The state of each module before time 0 is kept, and each is marked, since it is settled at time 0.
    pub(crate) fn new(alloc: Global, netlist: &Region<'_>) -> Result<StateHistory, AllocError>
        requires { IsCircuit netlist.now }
        ensures { IfOk result (λ history. IsStateHistory netlist.now 1 0 history) }
    {
        let mut marks = no_marks(alloc, netlist.module_slots())?;
        let mut list = Vec::new(alloc);
        for m in 0..netlist.module_slots() {
            mark(&mut marks, &mut list, ModuleId(m))?;
        }
        let kept = first_states(alloc, netlist)?;
        Ok(StateHistory { marks, list, kept })
    }

    /// Goes on to the unit of a time, before which the modules are as the simulation has them: keeps the states of those that have fired since the
    /// last checkpoint, if it is time.
    pub(crate) fn pass(
        &mut self,
        netlist: &Region<'_>,
        simulation: &NetlistSimulation,
        time: u32,
    ) -> Result<(), AllocError>
        requires form { IsCircuit netlist.now }
        requires later { 0 < time }
        requires simulated { IsSimulated netlist.now (time - 1) simulation.now }
        requires before { IsStateHistory netlist.now time (time - 1) self.old }
        ensures { OnOk result (IsStateHistory netlist.now (time + 1) (time - 1) self.new) }
    {
        if !time.is_multiple_of(checkpoint_units(netlist.horizon())) {
            return Ok(());
        }
        keep_states(
            netlist,
            simulation,
            &mut self.marks,
            &mut self.kept,
            self.list.as_slice(),
            time,
        )?;
        self.list.clear();
        Ok(())
    }

    /// The next border after a time, or the end if that comes before it or no module has fired since the last one: what was kept then is the state
    /// before the next one too.
    pub(crate) fn next_border(&self, netlist: &Region<'_>, time: u32, end: u32) -> u32
        requires time { time < end }
        requires within { end ≤ netlist.now.horizon }
        ensures later { time < result }
        ensures most { result ≤ end }
        ensures passed { (b : ℕ) → time < b → b < result → IsBorder netlist.now.horizon b → self.now.list.items ≡ [] }
    {
        if self.list.is_empty() {
            return end;
        }
        let units = checkpoint_units(netlist.horizon());
        (time - time % units + units).min(end)
    }

    /// These modules, by number, are to fire.
    pub(crate) fn mark(&mut self, numbers: &[u32]) -> Result<(), AllocError>
        ensures added { OnOk result (AreAdded (ids_of numbers.now) self.old.marks.items self.new.marks.items self.old.list.items self.new.list.items) }
        ensures kept { self.new.kept.items ≡ self.old.kept.items }
    {
        mark_numbers(&mut self.marks, &mut self.list, numbers)
    }
}

/// Keeps the state of a module, if it is marked, and takes the mark away.
fn keep_state(
    netlist: &Region<'_>,
    simulation: &NetlistSimulation,
    marks: &mut Vec<bool>,
    kept: &mut Vec<Checkpoints>,
    id: ModuleId,
    time: u32,
) -> Result<(), AllocError>
    requires form { IsCircuit netlist.now }
    requires later { 0 < time }
    requires simulated { IsSimulated netlist.now (time - 1) simulation.now }
    requires before { AreKept netlist.now time (time - 1) marks.old.items kept.old.items }
    ensures kept { OnOk result (AreKept netlist.now time (time - 1) marks.new.items kept.new.items) }
    ensures marks { OnOk result (marks.new.items ≡ slice_set marks.old.items id.0 false) }
{
    if !is_marked(marks.as_slice(), id) {
        return Ok(());
    }
    let m = id.0 as usize;
    marks[m] = false;
    kept[m].keep_change(time, simulation.memory(id.0))?;
    Ok(())
}

/// Keeps the states of all marked modules, which are listed.
fn keep_states(
    netlist: &Region<'_>,
    simulation: &NetlistSimulation,
    marks: &mut Vec<bool>,
    kept: &mut Vec<Checkpoints>,
    list: &[ModuleId],
    time: u32,
) -> Result<(), AllocError>
    requires form { IsCircuit netlist.now }
    requires later { 0 < time }
    requires simulated { IsSimulated netlist.now (time - 1) simulation.now }
    requires listed { AreListed marks.old.items list.now }
    requires before { AreKept netlist.now time (time - 1) marks.old.items kept.old.items }
    ensures kept { OnOk result (AreKept netlist.now time (time - 1) marks.new.items kept.new.items) }
    ensures none { OnOk result ((m : ℕ) → is_marked marks.new.items m ≡ false) }
{
    for id in list {
        keep_state(netlist, simulation, marks, kept, *id, time)?;
    }
    Ok(())
}

/// The states before time 0, by module.
fn first_states(alloc: Global, netlist: &Region<'_>) -> Result<Vec<Checkpoints>, AllocError>
    requires { IsCircuit netlist.now }
    ensures { IfOk result (λ kept. AreFirst netlist.now (length netlist.now.modules) kept.items) }
{
    let mut kept = Vec::new(alloc);
    for m in 0..netlist.module_slots() {
        kept.push(first_state(alloc, netlist, ModuleId(m))?)?;
    }
    Ok(kept)
}

/// The state of a module before time 0, if there is one.
fn first_state(alloc: Global, netlist: &Region<'_>, id: ModuleId) -> Result<Checkpoints, AllocError>
    requires { IsCircuit netlist.now }
    ensures { IfOk result (λ kept. kept ≡ first_kept netlist.now (module_at netlist.now id.0)) }
{
    match netlist.module(id) {
        Some(found) => Checkpoints::of_start(alloc, netlist.built(found).start()),
        None => Ok(Checkpoints::new(alloc)),
    }
}

fn is_marked(marks: &[bool], id: ModuleId) -> bool
    ensures { result ≡ is_marked marks.now id.0 }
{
    match marks.get(id.0 as usize) {
        Some(mark) => *mark,
        None => false,
    }
}

/// Marks modules and lists those that weren't marked.
fn mark_numbers(
    marks: &mut Vec<bool>,
    due: &mut Vec<ModuleId>,
    numbers: &[u32],
) -> Result<(), AllocError>
    ensures { OnOk result (AreAdded (ids_of numbers.now) marks.old.items marks.new.items due.old.items due.new.items) }
{
    for number in numbers {
        mark(marks, due, ModuleId(*number))?;
    }
    Ok(())
}

fn mark(marks: &mut Vec<bool>, due: &mut Vec<ModuleId>, id: ModuleId) -> Result<(), AllocError>
    ensures { OnOk result (AreAdded (id ∷ []) marks.old.items marks.new.items due.old.items due.new.items) }
{
    let m = id.0 as usize;
    if m < marks.len() && !marks[m] {
        marks[m] = true;
        due.push(id)?;
    }
    Ok(())
}
