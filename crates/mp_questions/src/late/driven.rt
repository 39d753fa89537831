//! A netlist with its waves and drivers.
ghost use Rattle.mp_model.specs.Waves.{AreWavesOf};
ghost use Rattle.mp_depend.specs.Drivers.{AreDrivers};

use mp_model::Waves;
use mp_netlist::{Driver, Netlist, WireId};

/// A netlist with its waves, and what drives each wire.
#[derive(Clone, Copy)]
pub struct Driven<'a> {
    pub netlist: &'a Netlist,
    pub waves: &'a Waves,
    /// By the number of the wire.
    pub drivers: &'a [Driver],
    ghost are_waves: { AreWavesOf netlist.now waves.now },
    ghost are_drivers: { AreDrivers netlist.now drivers.now },
}

impl<'a> Driven<'a> {
    ghost use Rattle.std.specs.Prelude.{◌≡◌};
    ghost use Rattle.mp_netlist.specs.Drivers.{driver};

    /// What drives a wire.
    pub fn driver_of(self, wire: WireId) -> Driver
        ensures { result ≡ driver self.entry.netlist.now wire.0 }
    {
        match self.drivers.get(wire.0 as usize) {
            Some(driver) => *driver,
            None => Driver::Nothing,
        }
    }
}
