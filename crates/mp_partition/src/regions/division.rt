//! Divisions of a netlist into partitions, which read each other only on inbound wires.
ghost use Rattle.std.specs.Prelude.{◌≡◌, ◌<◌, ◌≤◌, ◌⊎◌, ℕ, true, All, Some, IfOk, IfSome};
ghost use Rattle.mp_records.specs.declared.ports.Input.{Input as Entry};
ghost use Rattle.mp_records.specs.declared.ports.Output.{Output as Port};
ghost use Rattle.mp_partition.specs.regions.Divisions.{IsAtHome, IsCrossing, IsDivision, IsDrivenAt, IsHeardThere, IsReadAt, heard_by};
ghost use Rattle.mp_partition.specs.runs.Marks.{is_marked};

use crate::regions::crossing::crossing_delay;
use crate::regions::groups::homes_of;
use crate::regions::home::{NOWHERE, partition_of};
use crate::regions::inbound_wires::{InboundWires, heard_by, is_heard};
use mp_netlist::{Input, ModuleId, Netlist, Output, WireId};
use std::alloc::{AllocError, Global};

/// The partition of each module and of each wire that a port drives; the inbound wires of each partition, with no lists if there are none; a lower
/// bound of the delays of ports that drive inbound wires; and the number of partitions.
#[derive(Drop)]
pub struct Division {
    pub homes: Vec<u32>,
    pub wires: Vec<u32>,
    pub heard: Vec<InboundWires>,
    pub delay: u32,
    pub parts: u32,
}

/// Divides a netlist among this number of workers. There is no division for one worker, nor if all modules are connected and don't fall apart at long
/// delays. Below `least` modules or units a division isn't worth its cost.
pub fn divide(
    alloc: Global,
    netlist: &Netlist,
    workers: u32,
    least: u32,
) -> Result<Option<Division>, AllocError>
    ensures division { IfOk result (λ found. IfSome found (λ division. IsDivision netlist.now division.homes.items division.wires.items division.heard.items division.parts)) }
    ensures crossing { IfOk result (λ found. IfSome found (λ division. IsCrossing netlist.now division.heard.items division.delay)) }
{
    if workers == 1 || netlist.module_slots().min(netlist.horizon()) < least {
        return Ok(None);
    }
    let homes = homes_of(alloc, netlist, workers)?;
    let parts = count_of(homes.as_slice());
    if parts == 1 {
        return Ok(None);
    }
    let wires = wire_homes(alloc, netlist, homes.as_slice())?;
    let heard = heard_wires(alloc, netlist, homes.as_slice(), wires.as_slice(), parts)?;
    let delay = crossing_delay(netlist, heard.as_slice());
    let division = Division {
        homes,
        wires,
        heard,
        delay,
        parts,
    };
    if is_division(netlist, &division) {
        Ok(Some(division))
    } else {
        Ok(None)
    }
}

/// How many parts there are: one more than the last home, and at least 1.
fn count_of(homes: &[u32]) -> u32
    ensures { 0 < result }
{
    let mut count = 1u32;
    for home in homes {
        count = count.max(home.saturating_add(1));
    }
    count
}

/// The partition of the driver of each wire.
fn wire_homes(alloc: Global, netlist: &Netlist, homes: &[u32]) -> Result<Vec<u32>, AllocError> {
    let mut wires = Vec::new(alloc);
    for _w in 0..netlist.wire_slots() {
        wires.push(NOWHERE)?;
    }
    for m in 0..netlist.module_slots() {
        if let Some(found) = netlist.module(ModuleId(m)) {
            note_outputs(&mut wires, found.outputs.as_slice(), partition_of(homes, m));
        }
    }
    Ok(wires)
}

/// The inbound wires of each partition; no lists if there are none.
fn heard_wires(
    alloc: Global,
    netlist: &Netlist,
    homes: &[u32],
    wires: &[u32],
    parts: u32,
) -> Result<Vec<InboundWires>, AllocError> {
    let mut heards = Vec::new(alloc);
    for _part in 0..parts {
        heards.push(InboundWires::none(alloc, netlist.wire_slots())?)?;
    }
    let mut any = false;
    for m in 0..netlist.module_slots() {
        let home = partition_of(homes, m);
        if let Some(found) = netlist.module(ModuleId(m)) {
            if let Some(heard) = heards.get_mut(home as usize) {
                let some = note_inputs(heard, found.inputs.as_slice(), wires, home);
                any = any || some;
            }
        }
    }
    if !any {
        heards.clear();
    }
    Ok(heards)
}

/// Notes the inputs whose wires are at home elsewhere, and whether there are any.
fn note_inputs(heard: &mut InboundWires, inputs: &[Input], wires: &[u32], home: u32) -> bool {
    let mut any = false;
    for input in inputs {
        let there = partition_of(wires, input.wire.0);
        if there != home && there != NOWHERE {
            heard.add(input.wire);
            any = true;
        }
    }
    any
}

/// Notes a number for the wires of these outputs.
pub fn note_outputs(wires: &mut Vec<u32>, outputs: &[Output], number: u32) {
    for output in outputs {
        if let Some(wire) = output.wire {
            if let Some(place) = wires.get_mut(wire.0 as usize) {
                *place = number;
            }
        }
    }
}

fn is_division(netlist: &Netlist, division: &Division) -> bool
    requires { 0 < division.now.parts }
    ensures { result ≡ true → IsDivision netlist.now division.now.homes.items division.now.wires.items division.now.heard.items division.now.parts }
{
    if !are_below(division.homes.as_slice(), division.parts) {
        return false;
    }
    if !are_heard_there(netlist, division) {
        return false;
    }
    for m in 0..netlist.module_slots() {
        if !is_at_home(netlist, division, ModuleId(m)) {
            return false;
        }
    }
    true
}

fn are_below(homes: &[u32], parts: u32) -> bool
    ensures { result ≡ true → All (λ (home : ℕ). home < parts) homes.now }
{
    for home in homes {
        if *home >= parts {
            return false;
        }
    }
    true
}

/// Whether a module's wires are at home with it, as far as a port drives them.
fn is_at_home(netlist: &Netlist, division: &Division, id: ModuleId) -> bool
    ensures { result ≡ true → IsAtHome netlist.now division.now.homes.items division.now.wires.items division.now.heard.items division.now.parts id.0 }
{
    let Some(found) = netlist.module(id) else {
        return true;
    };
    let home = partition_of(division.homes.as_slice(), id.0);
    let wires = division.wires.as_slice();
    let heard = heard_by(division.heard.as_slice(), home);
    are_driven_at(wires, home, found.outputs.as_slice())
        && are_read_at(wires, heard, division.parts, home, found.inputs.as_slice())
}

/// Whether the inbound wires of partitions exist and have their drivers elsewhere.
fn are_heard_there(netlist: &Netlist, division: &Division) -> bool
    ensures { result ≡ true → (k w : ℕ) → is_marked (heard_by division.now.heard.items k) w ≡ true → IsHeardThere netlist.now division.now.wires.items k w }
{
    let wires = division.wires.as_slice();
    let heards = division.heard.as_slice();
    if heards.len() > division.parts as usize {
        return false;
    }
    for part in 0..division.parts {
        if !is_all_heard_there(netlist, wires, heard_by(heards, part), part) {
            return false;
        }
    }
    true
}

fn is_all_heard_there(netlist: &Netlist, wires: &[u32], heard: &[bool], part: u32) -> bool
    ensures { result ≡ true → (w : ℕ) → is_marked heard.now w ≡ true → IsHeardThere netlist.now wires.now part w }
{
    if heard.len() > netlist.wire_slots() as usize {
        return false;
    }
    for w in 0..netlist.wire_slots() {
        if is_heard(heard, WireId(w)) && !is_heard_there(netlist, wires, part, WireId(w)) {
            return false;
        }
    }
    true
}

fn is_heard_there(netlist: &Netlist, wires: &[u32], part: u32, wire: WireId) -> bool
    ensures { result ≡ true → IsHeardThere netlist.now wires.now part wire.0 }
{
    if partition_of(wires, wire.0) == part {
        return false;
    }
    match netlist.wire(wire) {
        Some(found) => found.stimulus.is_none(),
        None => false,
    }
}

fn are_driven_at(wires: &[u32], home: u32, outputs: &[Output]) -> bool
    ensures { result ≡ true → All (λ (output : Port). IsDrivenAt wires.now home output) outputs.now }
{
    for output in outputs {
        if !is_driven_at(wires, home, *output) {
            return false;
        }
    }
    true
}

fn is_driven_at(wires: &[u32], home: u32, output: Output) -> bool
    ensures { result ≡ true → IsDrivenAt wires.now home output }
{
    match output.wire {
        Some(wire) => partition_of(wires, wire.0) == home,
        None => true,
    }
}

fn are_read_at(wires: &[u32], heard: &[bool], parts: u32, home: u32, inputs: &[Input]) -> bool
    ensures { result ≡ true → All (λ (input : Entry). IsReadAt wires.now heard.now parts home input) inputs.now }
{
    for input in inputs {
        if !is_read_at(wires, heard, parts, home, *input) {
            return false;
        }
    }
    true
}

fn is_read_at(wires: &[u32], heard: &[bool], parts: u32, home: u32, input: Input) -> bool
    ensures { result ≡ true → IsReadAt wires.now heard.now parts home input }
{
    let there = partition_of(wires, input.wire.0);
    if there == home || there >= parts {
        return true;
    }
    is_heard(heard, input.wire)
}
