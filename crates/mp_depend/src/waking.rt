//! Which modules wake.
ghost use Rattle.std.specs.Prelude.{◌<◌, ◌++◌, ◌∷◌, [], List, All, OnOk, length};
ghost use Rattle.mp_kernel.specs.declared.events.fanout_entry.FanoutEntry.{FanoutEntry};
ghost use Rattle.mp_partition.specs.runs.Marks.{is_marked};
ghost use Rattle.mp_depend.specs.Hearing.{AreHearing};

use mp_kernel::FanoutEntry;
use mp_netlist::ModuleId;
use std::alloc::AllocError;

/// Lists the modules of these entries that aren't active.
pub fn list_all_asleep(
    entries: &[FanoutEntry],
    active: &[bool],
    joining: &mut Vec<ModuleId>,
) -> Result<(), AllocError>
    requires within { All (λ (e : FanoutEntry). e.module < length active.now) entries.now }
    requires eventful { All (λ (e : FanoutEntry). 0 < e.event) entries.now }
    ensures { OnOk result ((before : List FanoutEntry) → AreHearing (is_marked active.now) before joining.old.items →
        AreHearing (is_marked active.now) (before ++ entries.now) joining.new.items) }
{
    for entry in entries {
        list_asleep(*entry, active, joining)?;
    }
    Ok(())
}

/// Lists the module of an entry, if it isn't active.
fn list_asleep(
    entry: FanoutEntry,
    active: &[bool],
    joining: &mut Vec<ModuleId>,
) -> Result<(), AllocError>
    requires within { entry.module < length active.now }
    requires some { 0 < entry.event }
    ensures { OnOk result ((before : List FanoutEntry) → AreHearing (is_marked active.now) before joining.old.items →
        AreHearing (is_marked active.now) (before ++ entry ∷ []) joining.new.items) }
{
    if active[entry.module as usize] {
        return Ok(());
    }
    joining.push(ModuleId(entry.module))?;
    Ok(())
}
