//! The end of a run.
ghost use Rattle.std.specs.Prelude.{◌≡◌, ◌-◌};
ghost use Rattle.mp_depend.specs.Drivers.{AreDrivers};

use mp_model::Waves;
use mp_netlist::{Driver, Netlist, WireId};
use mp_questions::timing::WaitMoment;

/// A netlist in the last unit of its run, and what drives each wire.
#[derive(Clone, Copy)]
pub(crate) struct RunEnd<'a> {
    pub(crate) at: WaitMoment<'a>,
    /// By the number of the wire.
    pub(crate) drivers: &'a [Driver],
    ghost last: { at.time ≡ at.netlist.now.horizon - 1 },
    ghost are_drivers: { AreDrivers at.netlist.now drivers.now },
}

impl<'a> RunEnd<'a> {
    ghost use Rattle.mp_model.specs.Waves.{AreWavesOf};
    ghost use Rattle.mp_netlist.specs.Circuit.{IsCircuit};
    ghost use Rattle.mp_netlist.specs.Drivers.{driver};

    /// The last unit of a netlist with these waves.
    pub(crate) fn new(netlist: &'a Netlist, waves: &'a Waves, drivers: &'a [Driver]) -> Self
        requires waves { AreWavesOf netlist.now waves.now }
        requires drivers { AreDrivers netlist.now drivers.now }
        ensures netlist { result.at.netlist.now ≡ netlist.now }
        ensures form { IsCircuit netlist.now }
    {
        let at = WaitMoment {
            netlist,
            waves,
            time: netlist.horizon() - 1,
        };
        RunEnd { at, drivers }
    }

    /// What drives a wire.
    pub(crate) fn driver_of(&self, wire: WireId) -> Driver
        ensures { result ≡ driver self.now.at.netlist.now wire.0 }
    {
        match self.drivers.get(wire.0 as usize) {
            Some(driver) => *driver,
            None => Driver::Nothing,
        }
    }
}
