//! The wires of a netlist, and which of them come from outside.
ghost use Rattle.std.specs.Prelude.{◌≡◌};
ghost use Rattle.mp_netlist.specs.Drivers.{is_port};
ghost use Rattle.mp_depend.specs.Drivers.{AreDrivers};

use mp_netlist::{Driver, Netlist, WireId, WireRecord};

/// A netlist with the driver of each wire by number.
#[derive(Clone, Copy)]
pub(crate) struct Wires<'a> {
    pub(crate) netlist: &'a Netlist,
    pub(crate) drivers: &'a [Driver],
    ghost are_drivers: { AreDrivers netlist.now drivers.now },
}

impl<'a> Wires<'a> {
    ghost use Rattle.std.specs.Prelude.{◌≡◌, length};
    ghost use Rattle.std.specs.Option.{option_copied};
    ghost use Rattle.mp_netlist.specs.Circuit.{wire_at};
    ghost use Rattle.mp_exports.specs.verilog.Verilog.{is_input};

    /// How many wires were ever added.
    pub(crate) fn count(&self) -> u32
        ensures { result ≡ length self.now.netlist.now.wires }
    {
        self.netlist.wire_slots()
    }

    /// The wire of this number, if it exists.
    pub(crate) fn at(&self, number: u32) -> Option<&'a WireRecord>
        ensures { option_copied result ≡ wire_at self.now.netlist.now number }
    {
        self.netlist.wire(WireId(number))
    }

    /// Whether no port drives the wire of this number.
    pub(crate) fn is_input(&self, number: u32) -> bool
        ensures { result ≡ is_input self.now.netlist.now number }
    {
        match self.drivers.get(number as usize) {
            Some(driver) => !is_port(*driver),
            None => true,
        }
    }
}

fn is_port(driver: Driver) -> bool
    ensures { result ≡ is_port driver }
{
    match driver {
        Driver::Port(..) => true,
        Driver::Nothing | Driver::Stimulus => false,
    }
}
