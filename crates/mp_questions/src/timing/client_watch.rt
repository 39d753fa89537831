//! What becomes of a module up to a time.
ghost use Rattle.std.specs.Prelude.{◌≡◌, Some};
ghost use Rattle.mp_netlist.specs.Circuit.{IsModule, module_at};
ghost use Rattle.mp_questions.specs.timing.Hearing.{IsWatch};

use crate::timing::input_ports::InputPorts;
use crate::timing::marks::Marks;
use crate::timing::wait_moment::WaitMoment;
use mp_model::built;
use mp_modules::{EventModule, Memory};
use mp_netlist::{ModuleId, ModuleRecord};

/// The state of a module at a time, and since when its levels are what they are, in units from 0.
#[derive(Clone, Copy)]
pub struct ClientWatch {
    pub memory: Memory,
    pub marks: Marks,
}

/// A module at a time. It steps from one event of an input to the next, and passes over all units between.
pub fn follow(at: &WaitMoment<'_>, id: ModuleId, found: &ModuleRecord) -> ClientWatch
    requires stands { module_at at.now.netlist.now id.0 ≡ Some found.now }
    requires form { IsModule at.now.netlist.now found.now }
    ensures { IsWatch at.now.netlist.now id.0 found.now at.now.time result }
{
    let _horizon = at.netlist.horizon();
    let part = built(at.netlist, found);
    let ears = InputPorts::of(at, found);
    let end = at.time + 1;
    let mut memory = part.settle(&ears.levels(0));
    let mut marks = Marks::none();
    let mut now = ears.next(0, end);
    while now < end {
        let before = memory;
        part.step(&mut memory, &ears.levels(now));
        marks = marks.moved(now, &before, &memory);
        now = ears.next(now, end);
    }
    ClientWatch { memory, marks }
}
