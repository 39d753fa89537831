//! A netlist with what drives and reads its wires.
ghost use Rattle.mp_depend.specs.Drivers.{AreDrivers};
ghost use Rattle.mp_picture.specs.ReaderRows.{AreReaders};

use crate::readers::Readers;
use mp_netlist::{Driver, ModuleId, Netlist, WireId};

/// A netlist, and what drives and reads each of its wires.
#[derive(Clone, Copy)]
pub(crate) struct WiredNetlist<'a> {
    pub(crate) netlist: &'a Netlist,
    /// By the number of the wire.
    pub(crate) drivers: &'a [Driver],
    pub(crate) readers: &'a Readers,
    ghost are_drivers: { AreDrivers netlist.now drivers.now },
    ghost are_readers: { AreReaders netlist.now readers.now },
}

impl<'a> WiredNetlist<'a> {
    ghost use Rattle.std.specs.Prelude.{◌≡◌, ◌<◌, length};
    ghost use Rattle.mp_netlist.specs.Drivers.{driver};
    ghost use Rattle.mp_netlist.specs.Readers.{readers};

    /// What drives a wire.
    pub(crate) fn driver_of(self, wire: WireId) -> Driver
        ensures { result ≡ driver self.entry.netlist.now wire.0 }
    {
        match self.drivers.get(wire.0 as usize) {
            Some(driver) => *driver,
            None => Driver::Nothing,
        }
    }

    /// The modules and input ports that read a wire, by module, then port.
    pub(crate) fn readers_of(self, wire: WireId) -> &'a [(ModuleId, u32)]
        requires { wire.0 < length self.netlist.now.wires }
        ensures { result.now ≡ readers self.entry.netlist.now wire.0 }
    {
        self.readers.at(wire)
    }
}
