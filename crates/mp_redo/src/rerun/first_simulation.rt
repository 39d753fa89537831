//! The simulation with which a re-evaluation begins.
ghost use Rattle.std.specs.Prelude.{◌≡◌, ℕ, Bool, true, IfOk};
ghost use Rattle.mp_modules.specs.automata.Codes.{bit};
ghost use Rattle.mp_netlist.specs.Circuit.{IsCircuit};
ghost use Rattle.mp_netlist.specs.Drivers.{driver};
ghost use Rattle.mp_partition.specs.runs.Marks.{is_marked};
ghost use Rattle.mp_partition.specs.regions.Regions.{partition_of};
ghost use Rattle.mp_active.specs.excerpt.Excerpts.{excerpt, is_followed};
ghost use Rattle.mp_redo.specs.rerun.Starting.{IsFirst};

use mp_depend::drivers_of;
use mp_modules::TransitionTable;
use mp_netlist::{Driver, Netlist};
use mp_partition::Region;
use mp_simulation::{Layout, NetlistSimulation, WiredInputs, all_outputs};
use std::alloc::{AllocError, Global};

/// A simulation at time 0, and the numbers that modules read.
#[derive(Drop)]
pub(crate) struct First {
    pub simulation: NetlistSimulation,
    pub wired: WiredInputs,
}

/// The part of the netlist in which active modules are.
const ACTIVE: u32 = 1;

/// The simulation of a netlist at time 0 in which the marked modules are active, and which has the numbers of all.
pub(crate) fn first_simulation(
    alloc: Global,
    new: &Netlist,
    active: &[bool],
) -> Result<First, AllocError>
    ensures { IfOk result (λ first. IsFirst new.now (is_marked active.now) first) }
{
    // Its contract says that the netlist is well formed.
    let _horizon = new.horizon();
    let homes = homes_of(alloc, active)?;
    let heard = heard_wires(alloc, new, active)?;
    let part = Region::new(new, homes.as_slice(), ACTIVE, heard.as_slice());
    let first = simulation_of(alloc, new, &part);
    drop(homes);
    drop(heard);
    first
}

/// The simulation at time 0 of the part of a netlist in which some modules are active. It has the numbers of all.
fn simulation_of(alloc: Global, new: &Netlist, part: &Region<'_>) -> Result<First, AllocError>
    requires form { IsCircuit new.now }
    requires part { (active : ℕ → Bool) × part.now ≡ excerpt new.now active (λ _. true) }
    ensures { IfOk result (λ first. (active : ℕ → Bool) → part.now ≡ excerpt new.now active (λ _. true) → IsFirst new.now active first) }
{
    let whole = Region::whole(new);
    let outputs = all_outputs(alloc, &whole)?;
    let table = TransitionTable::new(alloc)?;
    let layout = Layout::of(alloc, &whole)?;
    let simulation = layout.begin(alloc, part, outputs, table)?;
    Ok(First {
        simulation,
        wired: layout.wired,
    })
}

/// The part of each module, by number.
fn homes_of(alloc: Global, active: &[bool]) -> Result<Vec<u32>, AllocError>
    ensures { IfOk result (λ homes. (m : ℕ) → partition_of homes.items m ≡ bit (is_marked active.now m)) }
{
    let mut homes = Vec::new(alloc);
    for m in 0..active.len() {
        homes.push(home_for(active[m]))?;
    }
    Ok(homes)
}

fn home_for(is_active: bool) -> u32
    ensures { result ≡ bit is_active }
{
    if is_active { ACTIVE } else { 0 }
}

/// Marks the wires that a port of a module drives which isn't active.
fn heard_wires(alloc: Global, new: &Netlist, active: &[bool]) -> Result<Vec<bool>, AllocError>
    ensures { IfOk result (λ heard. (w : ℕ) → is_marked heard.items w ≡ is_followed (is_marked active.now) (driver new.now w)) }
{
    let drivers = drivers_of(alloc, new)?;
    let mut heard = Vec::new(alloc);
    for w in 0..drivers.len() {
        heard.push(is_followed(drivers[w], active))?;
    }
    Ok(heard)
}

/// Whether a port of a module that isn't active drives a wire.
fn is_followed(driver: Driver, active: &[bool]) -> bool
    ensures { result ≡ is_followed (is_marked active.now) driver }
{
    match driver {
        Driver::Port(id, _) => match active.get(id.0 as usize) {
            Some(is_active) => !*is_active,
            None => true,
        },
        _ => false,
    }
}
