//! In which parts a change is evaluated again.
ghost use Rattle.std.specs.Prelude.{◌≡◌, ℕ, [], true, All, IfOk, IfSome};
ghost use Rattle.mp_records.specs.declared.ports.Input.{Input as Entry};
ghost use Rattle.mp_netlist.specs.Circuit.{Drives, IsCircuit};
ghost use Rattle.mp_depend.specs.Drivers.{AreDrivers};
ghost use Rattle.mp_partition.specs.regions.Divisions.{IsDivision};
ghost use Rattle.mp_partition.specs.regions.Readers.{Reads};
ghost use Rattle.mp_partition.specs.regions.Regions.{partition_of};
ghost use Rattle.mp_redo.specs.apart.Parts.{AreUnconnected};
ghost use Rattle.mp_redo.specs.parts.Drivers.{IsReadFrom};
ghost use Rattle.mp_redo.specs.parts.Partitions.{IsPartition};

use crate::parts::driven::is_driven_elsewhere;
use crate::parts::least::have_delay;
use crate::parts::reached::{are_spread, first_reached};
use mp_depend::drivers_of;
use mp_netlist::{Driver, Input, ModuleId, Netlist};
use mp_partition::{Division, divide, partition_of};
use mp_phase::Crew;
use std::alloc::{AllocError, Global};

/// The parts of a netlist after a change, which have no inbound wires, and the driver of each wire in the netlist before. No wire of either netlist
/// connects modules of two parts.
#[derive(Drop)]
pub(crate) struct Partition {
    pub division: Division,
    pub old_drivers: Vec<Driver>,
}

/// A netlist of more modules isn't copied for each part.
const MOST_COPIED: u32 = 65_536;

/// The parts in which a change is evaluated again by the threads of a crew: none if one thread does it as well.
pub(crate) fn choose_partition(
    alloc: Global,
    old: &Netlist,
    new: &Netlist,
    crew: &Crew,
) -> Result<Option<Partition>, AllocError>
    ensures { IfOk result (λ found. IfSome found (IsPartition old.now new.now)) }
{
    if crew.count() == 1 {
        return Ok(None);
    }
    let reached = first_reached(alloc, old, new)?;
    let chosen = choose_division(alloc, new, crew, reached.as_slice());
    drop(reached);
    let Some(division) = chosen? else {
        return Ok(None);
    };
    checked(alloc, old, new, division)
}

/// The division of a netlist for a crew, if the modules that are reached at once are many, and spread over its parts.
fn choose_division(
    alloc: Global,
    new: &Netlist,
    crew: &Crew,
    reached: &[ModuleId],
) -> Result<Option<Division>, AllocError>
    ensures { IfOk result (λ found. IfSome found (λ division. IsDivision new.now division.homes.items division.wires.items division.heard.items division.parts)) }
{
    if !are_many(reached.len(), new, crew) {
        return Ok(None);
    }
    let Some(division) = divide(alloc, new, crew.count(), crew.least())? else {
        return Ok(None);
    };
    match are_spread(alloc, reached, &division) {
        Ok(true) => Ok(Some(division)),
        Ok(false) => {
            drop(division);
            Ok(None)
        }
        Err(error) => {
            drop(division);
            Err(error)
        }
    }
}

/// Whether this number of modules, reached at once, is worth a division: at least two for each worker, and enough that their units up to the horizon
/// outweigh the modules that are copied for it.
fn are_many(reached: usize, new: &Netlist, crew: &Crew) -> bool {
    let wanted = crew.least().min(crew.count().saturating_mul(2)) as usize;
    let units = reached.saturating_mul(new.horizon() as usize);
    let copied = (new.module_slots() as usize).saturating_mul(crew.least() as usize);
    new.module_slots() <= MOST_COPIED && reached >= wanted && units >= copied
}

/// The division with the drivers of the old netlist, if each of its parts can be evaluated again for itself.
fn checked(
    alloc: Global,
    old: &Netlist,
    new: &Netlist,
    division: Division,
) -> Result<Option<Partition>, AllocError>
    requires { IsDivision new.now division.homes.items division.wires.items division.heard.items division.parts }
    ensures { IfOk result (λ found. IfSome found (IsPartition old.now new.now)) }
{
    // Their contracts say that the netlists are well formed.
    let _old_horizon = old.horizon();
    let _new_horizon = new.horizon();
    if !hears_nothing(&division) {
        drop(division);
        return Ok(None);
    }
    let homes = division.homes.as_slice();
    if !have_delay(new, homes, division.parts, new.least_delay()) {
        drop(division);
        return Ok(None);
    }
    let Ok(old_drivers) = drivers_of(alloc, old) else {
        drop(division);
        return Err(AllocError);
    };
    if !are_unconnected(old, old_drivers.as_slice(), homes) {
        drop(division);
        drop(old_drivers);
        return Ok(None);
    }
    Ok(Some(Partition {
        division,
        old_drivers,
    }))
}

/// Whether no part has inbound wires.
fn hears_nothing(division: &Division) -> bool
    ensures { result ≡ true → division.now.heard.items ≡ [] }
{
    division.heard.is_empty()
}

/// Whether no wire connects modules of two parts.
fn are_unconnected(netlist: &Netlist, drivers: &[Driver], homes: &[u32]) -> bool
    requires form { IsCircuit netlist.now }
    requires drivers { AreDrivers netlist.now drivers.now }
    ensures { result ≡ true → AreUnconnected netlist.now homes.now }
{
    for m in 0..netlist.module_slots() {
        if !is_unconnected(netlist, drivers, homes, ModuleId(m)) {
            return false;
        }
    }
    true
}

/// Whether all modules that drive what a module reads are at home with it.
fn is_unconnected(netlist: &Netlist, drivers: &[Driver], homes: &[u32], id: ModuleId) -> bool
    requires form { IsCircuit netlist.now }
    requires drivers { AreDrivers netlist.now drivers.now }
    ensures { result ≡ true → (w q p : ℕ) → Reads netlist.now id.0 w → Drives netlist.now q p w → partition_of homes.now id.0 ≡ partition_of homes.now q }
{
    match netlist.module(id) {
        Some(found) => are_driven_at(
            drivers,
            homes,
            partition_of(homes, id.0),
            found.inputs.as_slice(),
        ),
        None => true,
    }
}

fn are_driven_at(drivers: &[Driver], homes: &[u32], home: u32, inputs: &[Input]) -> bool
    ensures { result ≡ true → All (λ (input : Entry). IsReadFrom drivers.now homes.now home input) inputs.now }
{
    for input in inputs {
        if is_driven_elsewhere(drivers, homes, home, input.wire) {
            return false;
        }
    }
    true
}
