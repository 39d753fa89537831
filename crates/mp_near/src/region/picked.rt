//! What is picked from a netlist.
ghost use Rattle.std.specs.Prelude.{◌≡◌, IfOk, length};
ghost use Rattle.mp_near.specs.Changes.{IsChange};
ghost use Rattle.mp_near.specs.region.Picks.{AreWiresOf};
ghost use Rattle.mp_near.specs.reach.Reach.{IsReach};

use crate::reach::{Numbering, Reached, mark_inputs};
use crate::region::given::given_wires;
use crate::revision::Revision;
use mp_netlist::ModuleId;
use std::alloc::{AllocError, Global};

/// Modules and the wires at their ports, and of each of these wires, by its new number, whether a module drives it that isn't picked.
#[derive(Drop)]
pub(crate) struct Picked {
    pub wires: Numbering,
    pub modules: Numbering,
    pub given: Vec<bool>,
}

impl Picked {
    ghost use Rattle.std.specs.Prelude.{IfOk};
    ghost use Rattle.mp_near.specs.Changes.{IsChange};
    ghost use Rattle.mp_near.specs.region.Picks.{ArePicks};
    ghost use Rattle.mp_near.specs.reach.Reach.{HasReach};

    /// What is reached, with the wires that its modules read, before the edit or after it.
    pub(crate) fn of(
        alloc: Global,
        change: &Revision<'_>,
        reached: &Reached,
    ) -> Result<Picked, AllocError>
        requires change { IsChange change.now }
        requires reach { HasReach change.now.old.now change.now.new.now reached.now.modules.items reached.now.wires.items }
        ensures { IfOk result (ArePicks change.now.old.now change.now.new.now) }
    {
        // Their contracts say that there are fewer than 2^32.
        let _wires = change.new.wire_slots();
        let _modules = change.new.module_slots();
        let marks = wires_of(alloc, change, reached)?;
        let wires = Numbering::of(alloc, marks.as_slice());
        drop(marks);
        let wires = wires?;
        let Ok(modules) = Numbering::of(alloc, reached.modules.as_slice()) else {
            drop(wires);
            return Err(AllocError);
        };
        let Ok(given) = given_wires(
            alloc,
            change.new,
            reached.modules.as_slice(),
            wires.numbers.as_slice(),
        ) else {
            drop(wires);
            drop(modules);
            return Err(AllocError);
        };
        Ok(Picked {
            wires,
            modules,
            given,
        })
    }
}

/// Marks on the wires that are reached, and on those that modules read that are.
fn wires_of(
    alloc: Global,
    change: &Revision<'_>,
    reached: &Reached,
) -> Result<Vec<bool>, AllocError>
    requires change { IsChange change.now }
    requires reach { IsReach change.now.old.now change.now.new.now reached.now.modules.items reached.now.wires.items }
    ensures { IfOk result (λ marks. AreWiresOf change.now.old.now change.now.new.now reached.now.modules.items reached.now.wires.items marks.items) }
{
    let mut marks = Vec::from_slice(alloc, reached.wires.as_slice())?;
    for m in 0..change.new.module_slots() {
        if reached.modules[m as usize] {
            mark_inputs(change.old, ModuleId(m), &mut marks);
            mark_inputs(change.new, ModuleId(m), &mut marks);
        }
    }
    Ok(marks)
}
