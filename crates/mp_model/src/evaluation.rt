//! The plain evaluator: unit by unit from time zero, on one thread.
ghost use Rattle.std.specs.Prelude.{◌≡◌, false, ◌+◌, ◌-◌, ◌^◌, ◌<◌, length, map, option_map, Some, IfOk, OnOk, IsTrue};
ghost use Rattle.std.specs.List.{list_any};
ghost use Rattle.std.specs.Option.{option_copied};
ghost use Rattle.mp_netlist.specs.Slots.{slot_at};
ghost use Rattle.mp_netlist.specs.Circuit.{IsCircuit, module_width, module_at};
ghost use Rattle.mp_modules.specs.Kinds.{are_params};
ghost use Rattle.mp_modules.specs.storage.AnyModules.{is_width_of};
ghost use Rattle.mp_model.specs.Levels.{built};
ghost use Rattle.mp_model.specs.Tracks.{Progress, first_progress, advanced, expecting};
ghost use Rattle.mp_model.specs.Evaluations.{AreTracks, AreCells, delivered, is_late, ArePrompt, with_expected, with_answer, memory_at, IsOpenAt, first_cell};
ghost use Rattle.mp_model.specs.Cells.{after_answer};
ghost use Rattle.mp_model.specs.Waves.{state, waves};

use crate::cell::Cell;
use crate::inputs::{has_event, read_levels};
use crate::track::Track;
use mp_modules::{AnyModule, EventModule, MOST_INPUTS, Memory};
use mp_netlist::{Input, ModuleId, ModuleRecord, Netlist, WireId};
use mp_wave::Wave;
use std::alloc::{AllocError, Global};

/// The wave of each wire up to the horizon, by wire number, `None` for a removed wire. Each level is the one that the netlist and its stimuli give,
/// computed unit by unit from time 0.
pub fn plain_waves(alloc: Global, netlist: &Netlist) -> Result<Vec<Option<Wave>>, AllocError>
    ensures { IfOk result (λ found. found.items ≡ waves netlist.now) }
{
    let horizon = netlist.horizon();
    let late = has_late_inputs(netlist);
    let mut tracks = first_tracks(alloc, netlist)?;
    let mut cells = first_cells(alloc, netlist)?;
    answer_all(netlist, &mut tracks, &mut cells, 0, late)?;
    for time in 1..horizon {
        advance_all(&mut tracks, time);
        answer_all(netlist, &mut tracks, &mut cells, time, late)?;
    }
    finished(alloc, tracks)
}

/// Whether an input of a module has a delay.
fn has_late_inputs(netlist: &Netlist) -> bool
    ensures { result ≡ false → ArePrompt netlist.now }
{
    for m in 0..netlist.module_slots() {
        if let Some(found) = netlist.module(ModuleId(m)) {
            if are_late(found.inputs.as_slice()) {
                return true;
            }
        }
    }
    false
}

fn are_late(inputs: &[Input]) -> bool
    ensures { result ≡ list_any is_late inputs.now }
{
    inputs.iter().any(|port| port.delay != 0)
}

fn first_tracks(alloc: Global, netlist: &Netlist) -> Result<Vec<Option<Track>>, AllocError>
    requires { IsCircuit netlist.now }
    ensures { IfOk result (λ tracks. tracks.items ≡ map (option_map first_progress) netlist.now.wires) }
{
    let mut tracks = Vec::new(alloc);
    for w in 0..netlist.wire_slots() {
        tracks.push(first_track(alloc, netlist, WireId(w))?)?;
    }
    Ok(tracks)
}

fn first_track(alloc: Global, netlist: &Netlist, wire: WireId) -> Result<Option<Track>, AllocError>
    requires { IsCircuit netlist.now }
    ensures { IfOk result (λ track. track ≡ option_map first_progress (slot_at netlist.now.wires wire.0)) }
{
    match netlist.wire(wire) {
        Some(record) => Ok(Some(Track::new(alloc, record)?)),
        None => Ok(None),
    }
}

fn first_cells(alloc: Global, netlist: &Netlist) -> Result<Vec<Option<Cell>>, AllocError>
    requires { IsCircuit netlist.now }
    ensures { IfOk result (λ cells. cells.items ≡ map (option_map (first_cell netlist.now)) netlist.now.modules) }
{
    let mut cells = Vec::new(alloc);
    for m in 0..netlist.module_slots() {
        cells.push(first_cell_at(netlist, ModuleId(m)))?;
    }
    Ok(cells)
}

fn first_cell_at(netlist: &Netlist, id: ModuleId) -> Option<Cell>
    requires { IsCircuit netlist.now }
    ensures { result ≡ option_map (first_cell netlist.now) (slot_at netlist.now.modules id.0) }
{
    let record = netlist.module(id)?;
    let part = built(netlist, record);
    Some(Cell {
        part,
        memory: part.start(),
    })
}

/// The event module of a record.
pub fn built(netlist: &Netlist, found: &ModuleRecord) -> AnyModule
    requires width { IsTrue (is_width_of found.now.kind (module_width netlist.now found.now)) }
    requires params { IsTrue (are_params found.now.kind (module_width netlist.now found.now) found.now.params) }
    ensures { result ≡ built netlist.now found.now }
{
    let width = netlist.module_width(found);
    match AnyModule::of(found.kind, found.params.as_slice(), width) {
        Some(part) => part,
        None => unreachable!(),
    }
}

/// Steps each wire to the next unit, which is this time.
fn advance_all(tracks: &mut Vec<Option<Track>>, time: u32)
    ensures { tracks.new.items ≡ map (option_map (advanced time)) tracks.old.items }
{
    for slot in tracks.iter_mut() {
        advance(slot, time);
    }
}

fn advance(slot: &mut Option<Track>, time: u32)
    ensures { slot.new ≡ option_map (advanced time) slot.old }
{
    if let Some(track) = slot {
        track.advance(time);
    }
}

/// Steps each module to a time.
fn answer_all(
    netlist: &Netlist,
    tracks: &mut Vec<Option<Track>>,
    cells: &mut Vec<Option<Cell>>,
    time: u32,
    late: bool,
) -> Result<(), AllocError>
    requires form { IsCircuit netlist.now }
    requires prompt { late ≡ false → ArePrompt netlist.now }
    requires time { time < netlist.now.horizon }
    requires tracks { AreTracks netlist.now (delivered time 0 0) time tracks.old.items }
    requires cells { AreCells netlist.now time 0 cells.old.items }
    ensures tracks { OnOk result (AreTracks netlist.now (delivered time (length netlist.now.modules) 0) time tracks.new.items) }
    ensures cells { OnOk result (AreCells netlist.now time (length netlist.now.modules) cells.new.items) }
{
    for m in 0..netlist.module_slots() {
        answer(netlist, tracks, cells, ModuleId(m), time, late)?;
    }
    Ok(())
}

/// Steps a module to a time: its next state, from the levels at its inputs now, gives the levels of its outputs later. If no input has an event, both
/// stay as they are.
fn answer(
    netlist: &Netlist,
    tracks: &mut Vec<Option<Track>>,
    cells: &mut Vec<Option<Cell>>,
    id: ModuleId,
    time: u32,
    late: bool,
) -> Result<(), AllocError>
    requires form { IsCircuit netlist.now }
    requires prompt { late ≡ false → ArePrompt netlist.now }
    requires time { time < netlist.now.horizon }
    requires tracks { AreTracks netlist.now (delivered time id.0 0) time tracks.old.items }
    requires cells { AreCells netlist.now time id.0 cells.old.items }
    ensures tracks { OnOk result (AreTracks netlist.now (delivered time (id.0 + 1) 0) time tracks.new.items) }
    ensures cells { OnOk result (AreCells netlist.now time (id.0 + 1) cells.new.items) }
{
    let Some(found) = netlist.module(id) else {
        return Ok(());
    };
    let inputs = found.inputs.as_slice();
    if time > 0 && !has_event(tracks.as_slice(), inputs, time, late) {
        return Ok(());
    }
    let mut levels = [0; MOST_INPUTS];
    read_levels(tracks.as_slice(), inputs, time, &mut levels);
    step(cells, id, time, &levels[..inputs.len()]);
    match memory_of(cells.as_slice(), id) {
        Some(memory) => deliver(netlist, tracks, id, found, memory, time),
        None => Ok(()),
    }
}

/// A module's next state, from the levels at its inputs.
fn step(cells: &mut Vec<Option<Cell>>, id: ModuleId, time: u32, levels: &[u64])
    ensures { cells.new.items ≡ with_answer cells.old.items id.0 time levels.now }
{
    if let Some(slot) = cells.get_mut(id.0 as usize) {
        step_in(slot, time, levels);
    }
}

fn step_in(slot: &mut Option<Cell>, time: u32, levels: &[u64])
    ensures { slot.new ≡ option_map (λ cell. after_answer cell time levels.now) slot.old }
{
    if let Some(cell) = slot {
        cell.answer(time, levels);
    }
}

/// A module's state, if there is one.
fn memory_of(cells: &[Option<Cell>], id: ModuleId) -> Option<&Memory>
    ensures { option_copied result ≡ memory_at cells.now id.0 }
{
    match cells.get(id.0 as usize) {
        Some(Some(cell)) => Some(&cell.memory),
        _ => None,
    }
}

/// Schedules the output levels of a module's state at a time on the wires, each after its delay. A level at the horizon or later is in no wave.
fn deliver(
    netlist: &Netlist,
    tracks: &mut Vec<Option<Track>>,
    id: ModuleId,
    found: &ModuleRecord,
    memory: &Memory,
    time: u32,
) -> Result<(), AllocError>
    requires form { IsCircuit netlist.now }
    requires time { time < netlist.now.horizon }
    requires found { module_at netlist.now id.0 ≡ Some found.now }
    requires memory { memory.now ≡ state netlist.now id.0 time }
    requires tracks { AreTracks netlist.now (delivered time id.0 0) time tracks.old.items }
    ensures { OnOk result (AreTracks netlist.now (delivered time (id.0 + 1) 0) time tracks.new.items) }
{
    let horizon = netlist.horizon();
    for (p, output) in found.outputs.as_slice().iter().enumerate() {
        let later = time + output.delay;
        if let Some(wire) = output.wire {
            if later < horizon {
                expect(tracks, wire, later, memory.output(p))?;
            }
        }
    }
    Ok(())
}

/// Schedules this level of a wire from a time on.
fn expect(
    tracks: &mut Vec<Option<Track>>,
    wire: WireId,
    time: u32,
    level: u64,
) -> Result<(), AllocError>
    requires free { IsOpenAt time (slot_at tracks.old.items wire.0) }
    requires time { time < 2 ^ 32 - 1 }
    ensures { OnOk result (tracks.new.items ≡ with_expected tracks.old.items wire.0 time level) }
{
    match tracks.get_mut(wire.0 as usize) {
        Some(slot) => expect_in(slot, time, level),
        None => Ok(()),
    }
}

fn expect_in(slot: &mut Option<Track>, time: u32, level: u64) -> Result<(), AllocError>
    requires free { IsOpenAt time slot.old }
    requires time { time < 2 ^ 32 - 1 }
    ensures { OnOk result (slot.new ≡ option_map (expecting time level) slot.old) }
{
    match slot {
        Some(track) => track.expect(time, level),
        None => Ok(()),
    }
}

fn finished(alloc: Global, tracks: Vec<Option<Track>>) -> Result<Vec<Option<Wave>>, AllocError>
    ensures { IfOk result (λ found. found.items ≡ map (option_map (λ (track : Progress). track.wave)) tracks.items) }
{
    tracks
        .into_iter()
        .map(|slot| slot.map(|track| track.finish()))
        .collect(alloc)
}
