//! The part of a wire's driver.
ghost use Rattle.std.specs.Prelude.{◌≡◌};
ghost use Rattle.mp_depend.specs.Drivers.{driver_in};
ghost use Rattle.mp_redo.specs.parts.Drivers.{TellsElsewhere};

use mp_netlist::{Driver, WireId};
use mp_partition::partition_of;

/// Whether a module of another part drives a wire, by the drivers of all wires.
pub(crate) fn is_driven_elsewhere(
    drivers: &[Driver],
    homes: &[u32],
    part: u32,
    wire: WireId,
) -> bool
    ensures { TellsElsewhere drivers.now homes.now part wire.0 result }
{
    match driver_of(drivers, wire) {
        Driver::Port(id, _) => partition_of(homes, id.0) != part,
        Driver::Nothing | Driver::Stimulus => false,
    }
}

fn driver_of(drivers: &[Driver], wire: WireId) -> Driver
    ensures { result ≡ driver_in drivers.now wire.0 }
{
    match drivers.get(wire.0 as usize) {
        Some(driver) => *driver,
        None => Driver::Nothing,
    }
}
