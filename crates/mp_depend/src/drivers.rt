//! What drives each wire of a netlist.
ghost use Rattle.std.specs.Prelude.{◌≡◌, ℕ, ◌+◌, ◌<◌, ◌^◌, Some, IfOk, length};
ghost use Rattle.mp_netlist.specs.declared.driver.Driver.TheVariants.{Port};
ghost use Rattle.mp_netlist.specs.Circuit.{IsCircuit, stimulus_at};
ghost use Rattle.mp_netlist.specs.Drivers.{stimulus_driver};
ghost use Rattle.mp_depend.specs.Drivers.{AreDrivers, AreDriversBelow, IsNoted, driver_in};

use mp_netlist::{Driver, ModuleId, Netlist, Output, WireId};
use std::alloc::{AllocError, Global};

/// The driver of each wire by number, found in one pass over the modules.
pub fn drivers_of(alloc: Global, netlist: &Netlist) -> Result<Vec<Driver>, AllocError>
    ensures { IfOk result (λ drivers. AreDrivers netlist.now drivers.items) }
{
    // Its contract says that the netlist is well formed.
    let _horizon = netlist.horizon();
    let mut drivers = portless_drivers(alloc, netlist)?;
    for m in 0..netlist.module_slots() {
        note_module(netlist, ModuleId(m), &mut drivers);
    }
    Ok(drivers)
}

/// What drives each wire if no port does.
fn portless_drivers(alloc: Global, netlist: &Netlist) -> Result<Vec<Driver>, AllocError>
    ensures { IfOk result (λ drivers. AreDriversBelow netlist.now 0 drivers.items) }
{
    let mut drivers = Vec::new(alloc);
    for w in 0..netlist.wire_slots() {
        drivers.push(portless_driver(netlist, WireId(w)))?;
    }
    Ok(drivers)
}

fn portless_driver(netlist: &Netlist, wire: WireId) -> Driver
    ensures { result ≡ stimulus_driver (stimulus_at netlist.now wire.0) }
{
    match netlist.wire(wire) {
        Some(found) => match &found.stimulus {
            Some(_) => Driver::Stimulus,
            None => Driver::Nothing,
        },
        None => Driver::Nothing,
    }
}

/// Notes the ports of a module as the drivers of their wires.
fn note_module(netlist: &Netlist, id: ModuleId, drivers: &mut Vec<Driver>)
    requires form { IsCircuit netlist.now }
    requires before { AreDriversBelow netlist.now id.0 drivers.old.items }
    ensures { AreDriversBelow netlist.now (id.0 + 1) drivers.new.items }
{
    match netlist.module(id) {
        Some(found) => note_ports(id, found.outputs.as_slice(), drivers),
        None => {}
    }
}

fn note_ports(id: ModuleId, outputs: &[Output], drivers: &mut Vec<Driver>)
    requires { length outputs.now < 2 ^ 32 }
    ensures places { length drivers.new.items ≡ length drivers.old.items }
    ensures noted { (w : ℕ) → w < length drivers.old.items → IsNoted id outputs.now (length outputs.now) w (driver_in drivers.old.items w) (driver_in drivers.new.items w) }
{
    for (port, output) in outputs.iter().enumerate() {
        note_port(id, port as u32, *output, drivers);
    }
}

fn note_port(id: ModuleId, port: u32, output: Output, drivers: &mut Vec<Driver>)
    ensures places { length drivers.new.items ≡ length drivers.old.items }
    ensures here { (w : ℕ) → w < length drivers.old.items → output.wire ≡ Some (record { 0 = w }) → driver_in drivers.new.items w ≡ Port id port }
    ensures others { (w : ℕ) → (output.wire ≡ Some (record { 0 = w }) → ⊥) → driver_in drivers.new.items w ≡ driver_in drivers.old.items w }
{
    if let Some(wire) = output.wire {
        let w = wire.0 as usize;
        if w < drivers.len() {
            drivers[w] = Driver::Port(id, port);
        }
    }
}
