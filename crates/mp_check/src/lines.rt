//! The lines of a check.
ghost use Rattle.std.specs.Prelude.{◌≡◌};
ghost use Rattle.std.specs.List.{flat_map};
ghost use Rattle.mp_streams.specs.Outgoing.{Writes};
ghost use Rattle.mp_model.specs.Waves.{level};
ghost use Rattle.mp_questions.specs.timing.Events.{since};
ghost use Rattle.mp_check.specs.CheckLines.{deadlock_line, late_line, next_text, stands_since, wait_text, waits_text};
ghost use Rattle.mp_check.specs.Dead.{last_unit};

use crate::names::module_name;
use crate::run_end::RunEnd;
use crate::wait::Wait;
use mp_netlist::{Netlist, WireId};
use mp_questions::Late;
use mp_streams::{Failed, Out, Sink, Text};
use mp_text::wire_name;

/// Writes the line of late data.
pub(crate) fn put_late<S: Sink>(
    out: &mut Out<S>,
    netlist: &Netlist,
    late: Late,
) -> Result<(), Failed>
    ensures { Writes result out.old out.new (late_line netlist.now late) }
{
    match netlist.bundle(late.bundle) {
        Some(bundle) => {
            let name = bundle.name.as_str();
            (late.time, " bundle ", name, (" late ", late.units, "\n")).put_to(out)
        }
        None => Ok(()),
    }
}

/// Writes the line of a deadlock.
pub(crate) fn put_deadlock<S: Sink>(
    out: &mut Out<S>,
    end: &RunEnd<'_>,
    waits: &[Wait],
) -> Result<(), Failed>
    ensures { Writes result out.old out.new (deadlock_line end.now.at.netlist.now waits.now) }
{
    (stands_since(end, waits), " deadlock ").put_to(out)?;
    put_waits(out, end.at.netlist, waits)?;
    out.put_text("\n")
}

/// The last time at which one of the wires changed, 0 if none did.
fn stands_since(end: &RunEnd<'_>, waits: &[Wait]) -> u32
    ensures { result ≡ stands_since end.now.at.netlist.now waits.now }
{
    let mut latest: u32 = 0;
    for wait in waits {
        latest = latest.max(since(end, wait.wire));
    }
    latest
}

/// The time of the last change of a wire, 0 if there is none.
pub(crate) fn since(end: &RunEnd<'_>, wire: WireId) -> u32
    ensures { result ≡ since (level end.now.at.netlist.now wire.0) (last_unit end.now.at.netlist.now) }
{
    // Its contract says that the netlist is well formed.
    let _horizon = end.at.netlist.horizon();
    match end.at.netlist.wire(wire) {
        Some(_) => end.at.prompt(wire).since(end.at.time),
        None => 0,
    }
}

/// Writes what ports wait for, with commas between them.
fn put_waits<S: Sink>(out: &mut Out<S>, netlist: &Netlist, waits: &[Wait]) -> Result<(), Failed>
    ensures { Writes result out.old out.new (waits_text netlist.now waits.now) }
{
    let Some((first, others)) = waits.split_first() else {
        return Ok(());
    };
    put_wait(out, netlist, *first)?;
    put_others(out, netlist, others)
}

/// Writes what the further ports wait for, each after a comma.
fn put_others<S: Sink>(out: &mut Out<S>, netlist: &Netlist, others: &[Wait]) -> Result<(), Failed>
    ensures { Writes result out.old out.new (flat_map (next_text netlist.now) others.now) }
{
    for &wait in others {
        put_next(out, netlist, wait)?;
    }
    Ok(())
}

fn put_next<S: Sink>(out: &mut Out<S>, netlist: &Netlist, wait: Wait) -> Result<(), Failed>
    ensures { Writes result out.old out.new (next_text netlist.now wait) }
{
    out.put_text(", ")?;
    put_wait(out, netlist, wait)
}

fn put_wait<S: Sink>(out: &mut Out<S>, netlist: &Netlist, wait: Wait) -> Result<(), Failed>
    ensures { Writes result out.old out.new (wait_text netlist.now wait) }
{
    let name = module_name(netlist, wait.waiter);
    (name, " waits for ", wire_name(netlist, wait.wire)).put_to(out)
}
