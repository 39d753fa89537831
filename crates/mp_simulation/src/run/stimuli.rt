//! What stimuli set, by time.
ghost use Rattle.std.specs.Prelude.{◌≡◌, ◌++◌, ◌<◌, [], drop, map, IfOk, OnOk, unwrap_or};
ghost use Rattle.mp_netlist.specs.Circuit.{IsCircuit, wire_at, stimulus_at};
ghost use Rattle.mp_model.specs.Levels.{initial_of};
ghost use Rattle.mp_simulation.specs.units.DataLevels.{is_data};
ghost use Rattle.mp_simulation.specs.run.Stimuli.{change_of, set_changes, bits_of, levels_of, bits_at, levels_at, changes_after};

use mp_kernel::LevelChange;
use mp_netlist::{Netlist, WireId};
use std::alloc::{AllocError, Global};

/// A time at which a wire is set to another level, and whether the wire has data.
#[derive(Clone, Copy)]
pub struct StimulusChange {
    pub time: u32,
    pub wire: u32,
    pub has_data: bool,
    pub level: u64,
}

/// What stimuli change, by time. The changes before the place are past or present. Of the present ones, wires of width 1 are listed, and the levels
/// of wires with data.
#[derive(Drop)]
pub struct Stimuli {
    pub list: Vec<StimulusChange>,
    pub place: usize,
    pub bits: Vec<u32>,
    pub levels: Vec<LevelChange>,
}

/// Changes of wires that are driven elsewhere, by time. Those before the place are past or present.
#[derive(Drop)]
pub struct HeardChanges {
    pub list: Vec<StimulusChange>,
    pub place: usize,
}

impl HeardChanges {
    ghost use Rattle.std.specs.Prelude.{◌≡◌, ◌+◌, ◌<◌, ◌≤◌};
    ghost use Rattle.std.specs.List.Sorted.{IsPermutation};
    ghost use Rattle.mp_simulation.specs.run.Stimuli.{left_of, AreFrom, AreInOrder};

    /// These changes, all of which are still to come.
    pub fn of(list: Vec<StimulusChange>) -> HeardChanges
        ensures all { IsPermutation list.items (left_of result) }
        ensures order { AreInOrder (left_of result) }
    {
        let mut list = list;
        list.sort_unstable_by_key(|change| change.time);
        HeardChanges { list, place: 0 }
    }

    /// The unit of the next change, or the one before which all changes are known if none comes before it.
    pub fn unit_after(&self, time: u32, until: u32) -> u32
        requires time { time < until }
        requires ahead { AreFrom (time + 1) (left_of self.now) }
        ensures later { time < result }
        ensures most { result ≤ until }
        ensures ahead { AreFrom result (left_of self.now) }
    {
        match self.list.get(self.place) {
            Some(change) => change.time.min(until),
            None => until,
        }
    }
}

impl Stimuli {
    ghost use Rattle.std.specs.Prelude.{◌≡◌, ℕ, ◌+◌, ◌<◌, ◌≤◌, ◌++◌, IsTrue, IfOk, OnOk};
    ghost use Rattle.mp_netlist.specs.Circuit.{Circuit, IsCircuit};
    ghost use Rattle.mp_simulation.specs.run.Stimuli.{rest_of, left_of, bits_at, levels_at, changes_after, AreFrom, AreAhead, Advances};

    /// What all stimuli change, if all is to come.
    pub fn of(alloc: Global, netlist: &Netlist) -> Result<Stimuli, AllocError>
        requires { IsCircuit netlist.now }
        ensures { IfOk result (λ stimuli. AreAhead netlist.now 0 (rest_of stimuli)) }
    {
        let mut list = Vec::new(alloc);
        for w in 0..netlist.wire_slots() {
            add_wire(netlist, WireId(w), &mut list)?;
        }
        list.sort_unstable_by_key(|change| change.time);
        Ok(Stimuli {
            list,
            place: 0,
            bits: Vec::new(alloc),
            levels: Vec::new(alloc),
        })
    }

    /// The wires of width 1 that are set to another level in the present unit.
    #[inline(always)]
    pub fn bits(&self) -> &[u32]
        ensures { result.now ≡ self.now.bits.items }
    {
        self.bits.as_slice()
    }

    /// The wires with data that are set to another level in the present unit, with their levels.
    #[inline(always)]
    pub fn levels(&self) -> &[LevelChange]
        ensures { result.now ≡ self.now.levels.items }
    {
        self.levels.as_slice()
    }

    /// The unit to run after this one, or the horizon: the next unit, or that of the next change if everything else rests.
    #[inline(always)]
    pub fn unit_after(&self, time: u32, rests: bool, horizon: u32) -> u32
        requires time { time < horizon }
        requires ahead { AreFrom (time + 1) (rest_of self.now) }
        ensures later { time < result }
        ensures most { result ≤ horizon }
        ensures rests { time + 1 < result → IsTrue rests }
        ensures ahead { AreFrom result (rest_of self.now) }
    {
        if !rests {
            return time + 1;
        }
        match self.list.get(self.place) {
            Some(change) => change.time.min(horizon),
            None => horizon,
        }
    }

    /// A unit begins, which is the next after those before.
    #[inline(always)]
    pub fn advance(&mut self, time: u32) -> Result<(), AllocError>
        ensures bits { OnOk result (self.new.bits.items ≡ bits_at time (rest_of self.old)) }
        ensures levels { OnOk result (self.new.levels.items ≡ levels_at time (rest_of self.old)) }
        ensures left { OnOk result (rest_of self.new ≡ changes_after time (rest_of self.old)) }
        ensures ahead { OnOk result ((n : Circuit) (t : ℕ) → IsCircuit n → time ≡ t + 1 → AreAhead n t (rest_of self.old) → Advances n t self.new) }
    {
        self.bits.clear();
        self.levels.clear();
        self.place = put_present(
            self.list.as_slice(),
            self.place,
            time,
            &mut self.bits,
            &mut self.levels,
        )?;
        Ok(())
    }

    /// Adds the changes of inbound wires at a time to those of the present unit.
    #[inline(always)]
    pub fn hear(&mut self, heard: &mut HeardChanges, time: u32) -> Result<(), AllocError>
        ensures bits { OnOk result (self.new.bits.items ≡ self.old.bits.items ++ bits_at time (left_of heard.old)) }
        ensures levels { OnOk result (self.new.levels.items ≡ self.old.levels.items ++ levels_at time (left_of heard.old)) }
        ensures left { OnOk result (left_of heard.new ≡ changes_after time (left_of heard.old)) }
        ensures same { OnOk result (rest_of self.new ≡ rest_of self.old) }
    {
        heard.place = put_present(
            heard.list.as_slice(),
            heard.place,
            time,
            &mut self.bits,
            &mut self.levels,
        )?;
        Ok(())
    }
}

/// Lists the changes at a time, from a place on, and returns the place after them.
#[inline(always)]
fn put_present(
    list: &[StimulusChange],
    from: usize,
    time: u32,
    bits: &mut Vec<u32>,
    levels: &mut Vec<LevelChange>,
) -> Result<usize, AllocError>
    ensures bits { OnOk result (bits.new.items ≡ bits.old.items ++ bits_at time (drop from list.now)) }
    ensures levels { OnOk result (levels.new.items ≡ levels.old.items ++ levels_at time (drop from list.now)) }
    ensures left { IfOk result (λ place. drop place list.now ≡ changes_after time (drop from list.now)) }
{
    let mut place = from;
    while place < list.len() && list[place].time == time {
        put_change(list[place], bits, levels)?;
        place += 1;
    }
    Ok(place)
}

/// Lists a change, by whether its wire has data.
fn put_change(
    change: StimulusChange,
    bits: &mut Vec<u32>,
    levels: &mut Vec<LevelChange>,
) -> Result<(), AllocError>
    ensures bits { OnOk result (bits.new.items ≡ bits.old.items ++ bits_of change) }
    ensures levels { OnOk result (levels.new.items ≡ levels.old.items ++ levels_of change) }
{
    if change.has_data {
        levels.push(LevelChange {
            number: change.wire,
            level: change.level,
        })?;
        return Ok(());
    }
    bits.push(change.wire)?;
    Ok(())
}

/// Adds what the stimulus of a wire changes, if it has one.
fn add_wire(
    netlist: &Netlist,
    wire: WireId,
    list: &mut Vec<StimulusChange>,
) -> Result<(), AllocError>
    ensures { OnOk result (list.new.items ≡ list.old.items ++ map (change_of wire.0 (is_data netlist.now wire.0)) (set_changes (initial_of (wire_at netlist.now wire.0)) (unwrap_or (stimulus_at netlist.now wire.0) []))) }
{
    let Some(found) = netlist.wire(wire) else {
        return Ok(());
    };
    match &found.stimulus {
        Some(stimulus) => {
            add_changes(
                wire.0,
                found.width != 1,
                found.initial,
                stimulus.as_slice(),
                list,
            )
        }
        None => Ok(()),
    }
}

/// Adds the changes of a wire at those times at which it is set to another level than before.
fn add_changes(
    wire: u32,
    has_data: bool,
    initial: u64,
    changes: &[(u32, u64)],
    list: &mut Vec<StimulusChange>,
) -> Result<(), AllocError>
    ensures { OnOk result (list.new.items ≡ list.old.items ++ map (change_of wire has_data) (set_changes initial changes.now)) }
{
    let mut level = initial;
    for change in changes {
        let (time, next) = *change;
        if level != next {
            list.push(StimulusChange {
                time,
                wire,
                has_data,
                level: next,
            })?;
        }
        level = next;
    }
    Ok(())
}
