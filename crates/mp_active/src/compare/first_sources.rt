//! The sources of wires' levels at time 0.
ghost use Rattle.std.specs.Prelude.{◌≡◌, ◌↔◌, ℕ, ◌<◌, false, true, IsTrue, IfOk, length, slice_index_or};
ghost use Rattle.mp_netlist.specs.Drivers.{driver};
ghost use Rattle.mp_depend.specs.Drivers.{driver_in};
ghost use Rattle.mp_partition.specs.runs.Marks.{is_marked};
ghost use Rattle.mp_active.specs.compare.Comparing.{off, renewed};
ghost use Rattle.mp_active.specs.compare.First.{IsFirst, IsRenewed};

use crate::compare::wire_source::WireSource;
use mp_depend::{drivers_of, is_set_alike};
use mp_netlist::{Driver, ModuleId, Netlist, WireId};
use std::alloc::{AllocError, Global};

/// The wires whose levels don't come from the old run, when some modules are active: those of wires that these drive, or that no port drives and that
/// aren't driven as before, come from the new run. These wires are on.
pub(crate) fn first_sources(
    alloc: Global,
    old: &Netlist,
    new: &Netlist,
    active: &[bool],
) -> Result<Vec<WireSource>, AllocError>
    ensures places { IfOk result (λ sources. length sources.items ≡ length new.now.wires) }
    ensures each { IfOk result (λ sources. (w : ℕ) → w < length new.now.wires → IsFirst old.now new.now active.now w false (slice_index_or sources.items w off)) }
{
    let before = drivers_of(alloc, old)?;
    let after = drivers_of(alloc, new)?;
    let mut sources = Vec::new(alloc);
    for w in 0..new.wire_slots() {
        let was = driver_at(before.as_slice(), WireId(w));
        let is = driver_at(after.as_slice(), WireId(w));
        let is_new = is_renewed(old, new, active, WireId(w), was, is);
        sources.push(first_source(is_new))?;
    }
    Ok(sources)
}

fn first_source(is_new: bool) -> WireSource
    ensures new { is_new ≡ true → result ≡ renewed }
    ensures other { is_new ≡ false → result ≡ off }
{
    if is_new {
        WireSource::renewed()
    } else {
        WireSource::off()
    }
}

/// Whether the levels of a wire come only from the new run, given its drivers in both netlists.
fn is_renewed(
    old: &Netlist,
    new: &Netlist,
    active: &[bool],
    wire: WireId,
    was: Driver,
    is: Driver,
) -> bool
    requires was { was ≡ driver old.now wire.0 }
    requires is { is ≡ driver new.now wire.0 }
    ensures { IsTrue result ↔ IsRenewed old.now new.now active.now wire.0 }
{
    // Their contracts say that the netlists are well formed.
    let _old_horizon = old.horizon();
    let _horizon = new.horizon();
    match is {
        Driver::Port(id, _) => is_active(active, id),
        _ => !is_set_alike(old, new, wire, was),
    }
}

pub(crate) fn is_active(active: &[bool], id: ModuleId) -> bool
    ensures { result ≡ is_marked active.now id.0 }
{
    match active.get(id.0 as usize) {
        Some(is_active) => *is_active,
        None => false,
    }
}

fn driver_at(drivers: &[Driver], wire: WireId) -> Driver
    ensures { result ≡ driver_in drivers.now wire.0 }
{
    match drivers.get(wire.0 as usize) {
        Some(driver) => *driver,
        None => Driver::Nothing,
    }
}
