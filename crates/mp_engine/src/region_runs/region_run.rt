//! The run of a part of a netlist on one thread.
ghost use Rattle.std.specs.Prelude.{◌≡◌, ℕ, ◌+◌, ◌-◌, ◌<◌, ◌≤◌, Bool, IfOk, OnOk, length, map, option_map};
ghost use Rattle.std.specs.Arc.{arc_value};
ghost use Rattle.mp_netlist.specs.Circuit.{IsCircuit, module_at};
ghost use Rattle.mp_records.specs.declared.module_record.ModuleRecord.{ModuleRecord as LonePart};
ghost use Rattle.mp_simulation.specs.units.NetlistSimulations.{IsSimulated};
ghost use Rattle.mp_phase.specs.Allowed.{IsOpen};
ghost use Rattle.mp_partition.specs.runs.Checkpoints.{IsBorder};
ghost use Rattle.mp_partition.specs.runs.Outcomes.{AreSlots};
ghost use Rattle.mp_partition.specs.runs.Runs.{end_memory};
ghost use Rattle.mp_model.specs.Waves.{AreWavesOf};
ghost use Rattle.mp_engine.specs.region_runs.StateHistories.{kept_of, AllAreKept, HasHistory, HasMarked, IsHistory};

use crate::region_runs::gate::{pass_all, pass_gate};
use crate::region_runs::state_history::StateHistory;
use mp_model::Waves;
use mp_modules::Memory;
use mp_netlist::{ModuleId, Netlist};
use mp_partition::{Checkpoints, PartRun, Region};
use mp_phase::Gate;
use mp_simulation::{
    HeardChanges, NetlistSimulation, Stimuli, StimulusChange, begin, found_waves, is_seen_at_rest,
};
use std::alloc::{AllocError, Global};
use std::sync::{Arc, Wait};

/// The run of a part of a netlist, unit by unit: its simulation, what is set from outside later, and the states that are kept on the way, if any are.
#[derive(Drop)]
pub struct RegionRun {
    pub simulation: NetlistSimulation,
    pub(crate) stimuli: Stimuli,
    pub(crate) heard: HeardChanges,
    history: Option<StateHistory>,
}

impl RegionRun {
    ghost use Rattle.std.specs.Prelude.{◌≡◌, ℕ, ◌+◌, ◌-◌, ◌<◌, ◌≤◌, Bool, List, IfOk, OnOk};
    ghost use Rattle.mp_netlist.specs.Circuit.{Circuit, IsCircuit};
    ghost use Rattle.mp_simulation.specs.units.NetlistSimulations.{IsSimulated};
    ghost use Rattle.mp_partition.specs.runs.Marks.{is_marked};
    ghost use Rattle.mp_partition.specs.regions.Regions.{HasStimuli};
    ghost use Rattle.mp_partition.specs.merging.PartRuns.{IsPartRun};
    ghost use Rattle.mp_engine.specs.region_runs.StateHistories.{HasHistory, IsHistory};
    ghost use Rattle.mp_phase.specs.Allowed.{IsOpen};
    ghost use Rattle.mp_engine.specs.region_runs.RegionRuns.{AreTidings, IsUnderWay, CanRun, AreUnset, IsBeforeAll};

    /// Begins a run: the state after time 0, at which each module has passed the gate, with no changes of inbound wires so far. `keeps` says whether
    /// states are to be kept.
    pub fn begin<R: Wait, G: Gate>(
        rt: &R,
        alloc: Global,
        netlist: &Netlist,
        region: &Region<'_>,
        gate: &G,
        keeps: bool,
    ) -> Result<RegionRun, AllocError>
        requires open { IsOpen (G.may gate.now) }
        requires form { IsCircuit netlist.now }
        ensures { IfOk result (λ run. (heard : List Bool) (until : ℕ) → HasStimuli netlist.now region.now heard → AreUnset netlist.now heard → IsBeforeAll heard until →
            IsUnderWay region.now keeps (is_marked heard) 0 until run) }
    {
        let _horizon = region.horizon();
        pass_all(rt, alloc, region, gate)?;
        Ok(RegionRun {
            history: first_history(alloc, region, keeps)?,
            stimuli: Stimuli::of(alloc, netlist)?,
            heard: HeardChanges::of(Vec::new(alloc)),
            simulation: begin(alloc, region)?,
        })
    }

    /// Takes all changes of inbound wires before the next time, in place of the earlier ones, which are past.
    pub fn receive(&mut self, changes: Vec<StimulusChange>)
        ensures { (n : Circuit) (keeps : Bool) (is_heard : ℕ → Bool) (t until : ℕ) → IsUnderWay n keeps is_heard t (t + 1) self.old → AreTidings n is_heard t until changes.items →
            IsUnderWay n keeps is_heard t until self.new }
    {
        self.heard = HeardChanges::of(changes);
    }

    /// Runs the units from a time to before another one, up to which all changes of inbound wires are known. Returns how often modules fired.
    pub fn run_units<R: Wait, G: Gate>(
        &mut self,
        rt: &R,
        region: &Region<'_>,
        gate: &G,
        from: u32,
        to: u32,
    ) -> Result<usize, AllocError>
        requires open { IsOpen (G.may gate.now) }
        requires later { 0 < from }
        requires some { from ≤ to }
        requires within { to ≤ region.now.horizon }
        requires before { CanRun region.now (from - 1) to self.old }
        ensures { OnOk result ((keeps : Bool) (is_heard : ℕ → Bool) (until : ℕ) → to ≤ until → IsUnderWay region.now keeps is_heard (from - 1) until self.old →
            IsUnderWay region.now keeps is_heard (to - 1) until self.new) }
    {
        let mut fired = 0usize;
        let mut time = from;
        while time < to {
            fired = fired.saturating_add(self.run_unit(rt, region, gate, time)?);
            time = self.unit_after(region, time, to);
        }
        Ok(fired)
    }

    /// The unit to run after this one, or the end: the next unit, or, if the simulation is seen at rest, that of the next change from outside, or one
    /// before which states have to be kept.
    #[inline(always)]
    fn unit_after(&self, region: &Region<'_>, time: u32, to: u32) -> u32
        requires time { time < to }
        requires within { to ≤ region.now.horizon }
        requires before { CanRun region.now time to self.now }
        ensures later { time < result }
        ensures most { result ≤ to }
        ensures after { (keeps : Bool) (is_heard : ℕ → Bool) (until : ℕ) → to ≤ until → IsUnderWay region.now keeps is_heard time until self.now →
            IsUnderWay region.now keeps is_heard (result - 1) until self.now }
    {
        if !is_seen_at_rest(&self.simulation, time) {
            return time + 1;
        }
        let _horizon = region.horizon();
        let set = self.stimuli.unit_after(time, true, to);
        let heard = self.heard.unit_after(time, to);
        set.min(heard)
            .min(next_kept(&self.history, region, time, to))
    }

    /// Runs a unit, and gives how many modules fired. Each passes the gate before.
    fn run_unit<R: Wait, G: Gate>(
        &mut self,
        rt: &R,
        region: &Region<'_>,
        gate: &G,
        time: u32,
    ) -> Result<usize, AllocError>
        requires open { IsOpen (G.may gate.now) }
        requires later { 0 < time }
        requires low { time < region.now.horizon }
        requires before { CanRun region.now (time - 1) (time + 1) self.old }
        ensures { OnOk result ((keeps : Bool) (is_heard : ℕ → Bool) (until : ℕ) → time < until → IsUnderWay region.now keeps is_heard (time - 1) until self.old →
            IsUnderWay region.now keeps is_heard time until self.new) }
    {
        let _horizon = region.horizon();
        pass_history(&mut self.history, region, &self.simulation, time)?;
        self.stimuli.advance(time)?;
        self.stimuli.hear(&mut self.heard, time)?;
        self.simulation
            .apply(self.stimuli.bits(), self.stimuli.levels(), time)?;
        let due = self.simulation.due();
        let fired = due.len();
        mark_fired(&mut self.history, due)?;
        pass_gate(rt, gate, due, time);
        self.simulation.fire()?;
        Ok(fired)
    }

    /// What a run gives whose units are all over. If no states were kept, none are among it.
    pub fn finish(self, alloc: Global, region: &Region<'_>) -> Result<PartRun, AllocError>
        requires simulated { IsSimulated region.now (region.now.horizon - 1) self.simulation }
        requires kept { HasHistory region.now (region.now.horizon - 1 + 1) (region.now.horizon - 1) self.history }
        ensures { IfOk result (λ run. (keeps : Bool) → IsHistory region.now keeps (region.now.horizon - 1 + 1) (region.now.horizon - 1) self.history → IsPartRun region.now keeps run) }
    {
        let _horizon = region.horizon();
        let RegionRun {
            simulation,
            history,
            ..
        } = self;
        let Some(history) = history else {
            return Ok(PartRun {
                waves: all_waves(alloc, region, simulation)?,
                ends: Vec::new(alloc),
                kept: Vec::new(alloc),
            });
        };
        let Ok(ends) = end_memories(alloc, region, &simulation) else {
            drop(simulation);
            return Err(AllocError);
        };
        let waves = all_waves(alloc, region, simulation)?;
        let kept = shared_checkpoints(alloc, region, history.kept)?;
        Ok(PartRun { waves, ends, kept })
    }
}

/// What states are kept from time 0 on, if any are to be.
fn first_history(
    alloc: Global,
    region: &Region<'_>,
    keeps: bool,
) -> Result<Option<StateHistory>, AllocError>
    requires { IsCircuit region.now }
    ensures { IfOk result (λ history. IsHistory region.now keeps 1 0 history) }
{
    if keeps {
        Ok(Some(StateHistory::new(alloc, region)?))
    } else {
        Ok(None)
    }
}

/// Goes on to the unit of a time with the states that are kept, if any are.
#[inline(always)]
fn pass_history(
    history: &mut Option<StateHistory>,
    region: &Region<'_>,
    simulation: &NetlistSimulation,
    time: u32,
) -> Result<(), AllocError>
    requires form { IsCircuit region.now }
    requires later { 0 < time }
    requires simulated { IsSimulated region.now (time - 1) simulation.now }
    requires before { HasHistory region.now time (time - 1) history.old }
    ensures { OnOk result ((keeps : Bool) → IsHistory region.now keeps time (time - 1) history.old → IsHistory region.now keeps (time + 1) (time - 1) history.new) }
{
    if let Some(kept) = history {
        kept.pass(region, simulation, time)?;
    }
    Ok(())
}

/// The next unit before which states have to be kept, if nothing fires before it, or the end.
fn next_kept(history: &Option<StateHistory>, region: &Region<'_>, time: u32, to: u32) -> u32
    requires time { time < to }
    requires within { to ≤ region.now.horizon }
    ensures later { time < result }
    ensures most { result ≤ to }
    ensures passed { (b : ℕ) → time < b → b < result → IsBorder region.now.horizon b → AllAreKept history.now }
{
    match history {
        Some(kept) => kept.next_border(region, time, to),
        None => to,
    }
}

/// These modules, by number, are to fire: they are marked if states are kept.
#[inline(always)]
fn mark_fired(history: &mut Option<StateHistory>, numbers: &[u32]) -> Result<(), AllocError>
    ensures { OnOk result (HasMarked numbers.now history.old history.new) }
{
    if let Some(kept) = history {
        kept.mark(numbers)?;
    }
    Ok(())
}

/// The waves of a run whose units are all over.
fn all_waves(
    alloc: Global,
    region: &Region<'_>,
    simulation: NetlistSimulation,
) -> Result<Waves, AllocError>
    requires form { IsCircuit region.now }
    requires over { IsSimulated region.now (region.now.horizon - 1) simulation }
    ensures { IfOk result (λ waves. AreWavesOf region.now waves) }
{
    let waves = Waves::of_all(alloc, found_waves(alloc, region, simulation)?)?;
    Ok(waves)
}

/// The states of the modules after the last unit.
fn end_memories(
    alloc: Global,
    netlist: &Region<'_>,
    simulation: &NetlistSimulation,
) -> Result<Vec<Option<Memory>>, AllocError>
    requires form { IsCircuit netlist.now }
    requires over { IsSimulated netlist.now (netlist.now.horizon - 1) simulation.now }
    ensures { IfOk result (λ ends. AreSlots (length netlist.now.modules) (end_memory netlist.now) ends.items) }
{
    let mut ends = Vec::new(alloc);
    for m in 0..netlist.module_slots() {
        ends.push(end_memory(netlist, simulation, m))?;
    }
    Ok(ends)
}

fn end_memory(netlist: &Region<'_>, simulation: &NetlistSimulation, m: u32) -> Option<Memory>
    requires form { IsCircuit netlist.now }
    requires low { m < length netlist.now.modules }
    requires over { IsSimulated netlist.now (netlist.now.horizon - 1) simulation.now }
    ensures { result ≡ end_memory netlist.now m }
{
    match netlist.module(ModuleId(m)) {
        Some(_) => Some(simulation.memory(m)),
        None => None,
    }
}

/// The kept states of the modules, to be shared.
fn shared_checkpoints(
    alloc: Global,
    netlist: &Region<'_>,
    kept: Vec<Checkpoints>,
) -> Result<Vec<Option<Arc<Checkpoints, Global>>>, AllocError>
    requires { length kept.items ≡ length netlist.now.modules }
    ensures { IfOk result (λ found. AreSlots (length netlist.now.modules) (λ m. option_map (λ (r : LonePart). kept_of kept.items m) (module_at netlist.now m)) (map (option_map arc_value) found.items)) }
{
    let mut left = kept;
    let mut found = Vec::new(alloc);
    for m in 0..netlist.module_slots() {
        let checkpoints = std::mem::replace(&mut left[m as usize], Checkpoints::new(alloc));
        found.push(shared(alloc, netlist, ModuleId(m), checkpoints)?)?;
    }
    Ok(found)
}

fn shared(
    alloc: Global,
    netlist: &Region<'_>,
    id: ModuleId,
    checkpoints: Checkpoints,
) -> Result<Option<Arc<Checkpoints, Global>>, AllocError>
    ensures { IfOk result (λ found. option_map arc_value found ≡ option_map (λ (r : LonePart). checkpoints) (module_at netlist.now id.0)) }
{
    match netlist.module(id) {
        Some(_) => Ok(Some(Arc::new(alloc, checkpoints)?)),
        None => Ok(None),
    }
}
