//! A part of a netlist as a netlist of its own.
ghost use Rattle.std.specs.Prelude.{◌≡◌, IfOk, OnOk};
ghost use Rattle.mp_redo.specs.apart.Parts.{part_of};
ghost use Rattle.mp_redo.specs.parts.Removals.{IsWithout};

use mp_netlist::{Edit, ModuleId, Netlist, SingleEdit};
use mp_partition::partition_of;
use std::alloc::AllocError;

/// The netlist without the modules that are at home in other parts.
pub(crate) fn part_netlist(
    netlist: &Netlist,
    homes: &[u32],
    part: u32,
) -> Result<Netlist, AllocError>
    ensures { IfOk result (λ found. found ≡ part_of netlist.now homes.now part) }
{
    let mut found = netlist.copy()?;
    for m in 0..netlist.module_slots() {
        if partition_of(homes, m) != part {
            let Ok(()) = remove(&mut found, ModuleId(m)) else {
                drop(found);
                return Err(AllocError);
            };
        }
    }
    Ok(found)
}

/// Removes the module of this number, if it exists.
fn remove(netlist: &mut Netlist, id: ModuleId) -> Result<(), AllocError>
    ensures { OnOk result (IsWithout netlist.old id.0 netlist.new) }
{
    // Its contract says that the netlist is well formed.
    let _horizon = netlist.horizon();
    let Some(found) = netlist.module(id) else {
        return Ok(());
    };
    let module = found.name.clone()?;
    let removal = Edit::Single(SingleEdit::RemoveModule { module });
    let removed = netlist.apply(&removal);
    drop(removal);
    match removed {
        Ok(()) => Ok(()),
        // A module that exists can be removed, if there is memory for it.
        Err(_) => Err(AllocError),
    }
}
