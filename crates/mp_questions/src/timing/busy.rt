//! Which bundles wait at a time.
ghost use Rattle.std.specs.Prelude.{length};
ghost use Rattle.std.specs.List.{flat_map, range_with_len};
ghost use Rattle.mp_streams.specs.Outgoing.{Writes};
ghost use Rattle.mp_netlist.specs.Circuit.{IsBundle};
ghost use Rattle.mp_questions.specs.timing.Waits.{bundle_wait, busy_wait};

use crate::timing::lines::put_since;
use crate::timing::wait_moment::WaitMoment;
use mp_netlist::{BundleId, BundleRecord};
use mp_streams::{Failed, Out, Sink};
use mp_text::wire_name;

/// Writes the lines of the bundles.
pub(crate) fn put_bundles<S: Sink>(out: &mut Out<S>, at: &WaitMoment<'_>) -> Result<(), Failed>
    ensures { Writes result out.old out.new (flat_map (bundle_wait at.now.netlist.now at.now.time) (range_with_len 0 (length at.now.netlist.now.bundles))) }
{
    for number in 0..at.netlist.bundle_slots() {
        put_bundle(out, at, BundleId(number))?;
    }
    Ok(())
}

/// Writes the line of a bundle; nothing if there is none.
fn put_bundle<S: Sink>(out: &mut Out<S>, at: &WaitMoment<'_>, id: BundleId) -> Result<(), Failed>
    ensures { Writes result out.old out.new (bundle_wait at.now.netlist.now at.now.time id.0) }
{
    match at.netlist.bundle(id) {
        Some(bundle) => put_busy(out, at, bundle),
        None => Ok(()),
    }
}

/// Writes that a bundle waits for its acknowledge, if it is busy.
fn put_busy<S: Sink>(
    out: &mut Out<S>,
    at: &WaitMoment<'_>,
    bundle: &BundleRecord,
) -> Result<(), Failed>
    requires { IsBundle at.now.netlist.now bundle.now }
    ensures { Writes result out.old out.new (busy_wait at.now.netlist.now bundle.now at.now.time) }
{
    let request = at.prompt(bundle.request);
    let acknowledge = at.prompt(bundle.acknowledge);
    if request.level_at(at.time) == acknowledge.level_at(at.time) {
        return Ok(());
    }
    let name = bundle.name.as_str();
    let what = wire_name(at.netlist, bundle.acknowledge);
    put_since(
        out,
        name,
        " bundle waits for ",
        &what,
        request.since(at.time),
    )
}
