//! A region before an edit and after it, as two small netlists.
ghost use Rattle.std.specs.Prelude.{◌≡◌, true, Ok, IfOk, IfSome};
ghost use Rattle.mp_netlist.specs.Edits.{after};
ghost use Rattle.mp_near.specs.Changes.{IsChange};
ghost use Rattle.mp_near.specs.region.Picks.{ArePicks};
ghost use Rattle.mp_near.specs.region.Regions.{IsNoSmaller, IsSmall};

use crate::reach::find_reached;
use crate::region::building::{is_made, small_before};
use crate::region::likeness::is_picked;
use crate::region::picked::Picked;
use crate::revision::Revision;
use mp_netlist::{Edit, Netlist};
use std::alloc::{AllocError, Global};

/// What is picked, as a netlist before the edit and as one after it.
#[derive(Drop)]
pub(crate) struct Small {
    pub picked: Picked,
    pub was: Netlist,
    pub now: Netlist,
}

/// The region that an edit reaches, if it is small.
pub(crate) fn find_small(
    alloc: Global,
    change: &Revision<'_>,
    edit: &Edit,
) -> Result<Option<Small>, AllocError>
    requires change { IsChange change.now }
    requires after { after change.now.old.now edit.now ≡ Ok change.now.new.now }
    ensures { IfOk result (λ found. IfSome found (IsSmall change.now.old.now change.now.new.now)) }
{
    let most = change.new.module_slots() / 16;
    let Some(mut found) = find_reached(alloc, change, edit, most)? else {
        return Ok(None);
    };
    found.add_witness(change.old, change.new, change.least);
    let picked = Picked::of(alloc, change, &found);
    drop(found);
    small_of(alloc, change, picked?, edit)
}

/// The region of what is picked, if both of its netlists can be made.
fn small_of(
    alloc: Global,
    change: &Revision<'_>,
    picked: Picked,
    edit: &Edit,
) -> Result<Option<Small>, AllocError>
    requires change { IsChange change.now }
    requires picks { ArePicks change.now.old.now change.now.new.now picked }
    ensures { IfOk result (λ found. IfSome found (IsSmall change.now.old.now change.now.new.now)) }
{
    match both_netlists(alloc, change, &picked, edit) {
        Ok(Some((was, now))) => Ok(checked(change, Small { picked, was, now })),
        Ok(None) => {
            drop(picked);
            Ok(None)
        }
        Err(error) => {
            drop(picked);
            Err(error)
        }
    }
}

/// The region, if its netlists are what is picked.
fn checked(change: &Revision<'_>, small: Small) -> Option<Small>
    requires change { IsChange change.now }
    requires picks { ArePicks change.now.old.now change.now.new.now small.picked }
    ensures { IfSome result (IsSmall change.now.old.now change.now.new.now) }
{
    if is_small(change, &small) {
        Some(small)
    } else {
        drop(small);
        None
    }
}

/// Whether the netlists of a region are what is picked for it.
fn is_small(change: &Revision<'_>, small: &Small) -> bool
    requires change { IsChange change.now }
    requires picks { ArePicks change.now.old.now change.now.new.now small.now.picked }
    ensures { result ≡ true → IsSmall change.now.old.now change.now.new.now small.entry.now }
{
    // Their contracts say that the netlists are well formed.
    let _was_horizon = small.was.horizon();
    let _now_horizon = small.now.horizon();
    if !is_no_smaller(&small.was, &small.now) {
        return false;
    }
    if !is_picked(change, change.old, &small.picked, &small.was) {
        return false;
    }
    is_picked(change, change.new, &small.picked, &small.now)
}

/// Whether the later netlist has no fewer slots.
fn is_no_smaller(was: &Netlist, now: &Netlist) -> bool
    ensures { result ≡ true → IsNoSmaller was.now now.now }
{
    was.wire_slots() <= now.wire_slots() && was.module_slots() <= now.module_slots()
}

/// What is picked, as a netlist and as a copy of it with the edit, if they can be made.
fn both_netlists(
    alloc: Global,
    change: &Revision<'_>,
    picked: &Picked,
    edit: &Edit,
) -> Result<Option<(Netlist, Netlist)>, AllocError> {
    let Some(was) = small_before(alloc, change, picked)? else {
        return Ok(None);
    };
    match small_after(&was, edit) {
        Ok(now) => Ok(Some((was, now))),
        Err(error) => {
            drop(was);
            Err(error)
        }
    }
}

/// A copy of the netlist with the edit, if that can be made in it.
fn small_after(was: &Netlist, edit: &Edit) -> Result<Netlist, AllocError> {
    let mut now = was.copy()?;
    match is_made(now.apply(edit)) {
        Ok(_) => Ok(now),
        Err(error) => {
            drop(now);
            Err(error)
        }
    }
}
