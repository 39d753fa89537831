//! Going back from change to change.
ghost use Rattle.std.specs.Prelude.{◌≡◌};
ghost use Rattle.mp_netlist.specs.Drivers.{driver};
ghost use Rattle.mp_questions.specs.causes.KnownDrivers.{AreKnown};

use crate::causes::cause::{Cause, events_at};
use crate::causes::driving_port::driving_port;
use crate::causes::levels::Levels;
use crate::causes::wire_change::WireChange;
use mp_model::Waves;
use mp_netlist::{Driver, Netlist, WireId};
use std::alloc::{AllocError, Global};

/// Goes back from change to change: it has the levels of a netlist and the drivers of its wires, each of which is searched for once.
#[derive(Drop)]
pub struct Tracer<'a> {
    pub(crate) levels: Levels<'a>,
    known: Vec<Option<Driver>>,
    ghost are_known: { AreKnown levels.netlist.now known.items },
}

impl<'a> Tracer<'a> {
    ghost use Rattle.std.specs.Prelude.{◌≡◌, ◌<◌, IfOk};
    ghost use Rattle.mp_netlist.specs.Circuit.{IsCircuit};
    ghost use Rattle.mp_model.specs.Waves.{AreWavesOf};
    ghost use Rattle.mp_questions.specs.causes.Causes.{cause_of, cause_seen, followed};

    /// Goes back among the changes of a netlist with these waves. The error comes if memory runs out.
    pub fn of(alloc: Global, netlist: &'a Netlist, waves: &'a Waves) -> Result<Self, AllocError>
        requires { AreWavesOf netlist.now waves.now }
        ensures { IfOk result (λ tracer. tracer.levels.netlist.now ≡ netlist.now) }
    {
        Tracer::new(alloc, Levels::new(netlist, waves))
    }

    /// The change that a change follows: the first event of its cause. There is none for what is set from outside and for the start of a module.
    pub fn followed(&mut self, change: WireChange) -> Option<WireChange>
        requires form { IsCircuit self.old.levels.netlist.now }
        requires within { change.time < self.old.levels.netlist.now.horizon }
        ensures value { result ≡ followed (cause_of self.old.levels.netlist.now change) }
        ensures levels { self.new.levels ≡ self.old.levels }
    {
        self.cause_of(change).followed()
    }

    /// No driver is known yet.
    pub(crate) fn new(alloc: Global, levels: Levels<'a>) -> Result<Self, AllocError>
        ensures { IfOk result (λ tracer. tracer.levels ≡ levels.entry) }
    {
        let known = vec![in alloc; None; levels.netlist.wire_slots() as usize]?;
        Ok(Tracer { levels, known })
    }

    /// The cause of a change.
    pub(crate) fn cause_of(&mut self, change: WireChange) -> Cause<'a>
        requires form { IsCircuit self.old.levels.netlist.now }
        requires within { change.time < self.old.levels.netlist.now.horizon }
        ensures cause { cause_seen result ≡ cause_of self.old.levels.netlist.now change }
        ensures levels { self.new.levels ≡ self.old.levels }
    {
        let levels = self.levels;
        let driver = driver_of(levels.netlist, self.known.as_mut_slice(), change.wire);
        let Some(port) = driving_port(levels.netlist, driver) else {
            return Cause::Outside;
        };
        if change.time == port.delay {
            return Cause::Start(port);
        }
        let heard = change.time.saturating_sub(port.delay);
        let events = events_at(levels, port.part.inputs.as_slice(), heard);
        Cause::Events(port, events)
    }
}

/// What drives a wire, searched for if it isn't known yet, and noted.
fn driver_of(netlist: &Netlist, known: &mut [Option<Driver>], wire: WireId) -> Driver
    requires { AreKnown netlist.now known.old }
    ensures driver { result ≡ driver netlist.now wire.0 }
    ensures known { AreKnown netlist.now known.new }
{
    let place = wire.0 as usize;
    match known.get(place) {
        Some(Some(driver)) => *driver,
        _ => {
            let driver = netlist.driver_of(wire);
            if place < known.len() {
                known[place] = Some(driver);
            }
            driver
        }
    }
}
