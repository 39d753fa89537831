//! Netlists with a change.
ghost use Rattle.std.specs.Prelude.{IfOk};
ghost use Rattle.mp_depend.specs.work.Revisions.{IsRevision};

use crate::making::texts::edit;
use mp_depend::work::laws::edits_revise;
use mp_netlist::{Edit, Netlist};
use std::alloc::Global;
use std::test::Fail;

/// The netlist after an edit.
fn after_edit(old: &Netlist, edit: &Edit) -> Result<Netlist, Fail>
    ensures { IfOk result (λ new. IsRevision old.now new) }
{
    edits_revise();
    let mut new = old.copy()?;
    new.apply(edit)?;
    Ok(new)
}

/// The netlist with the change that a line states.
pub(super) fn changed(alloc: Global, old: &Netlist, line: &str) -> Result<Netlist, Fail>
    ensures { IfOk result (λ new. IsRevision old.now new) }
{
    let edit = edit(alloc, line).ok_or("no edit")?;
    let new = after_edit(old, &edit);
    drop(edit);
    new
}
