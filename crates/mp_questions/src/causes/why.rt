//! Why a wire has its level.
ghost use Rattle.std.specs.Prelude.{◌≡◌, ◌<◌, ◌∷◌, [], Some, take, IfSome};
ghost use Rattle.std.specs.List.{flat_map};
ghost use Rattle.mp_streams.specs.Outgoing.{Writes as WritesTo};
ghost use Rattle.mp_streams.specs.WriteErrors.{Writes};
ghost use Rattle.mp_netlist.specs.Circuit.{IsCircuit, wire_at};
ghost use Rattle.mp_model.specs.Waves.{AreWavesOf};
ghost use Rattle.mp_questions.specs.causes.Causes.{cause_of, cause_seen, port_seen};
ghost use Rattle.mp_questions.specs.causes.Chains.{chain_from};
ghost use Rattle.mp_questions.specs.causes.Why.{cause_text, change_text, declared_line, event_text, port_text, step_line, why_text};

use crate::causes::cause::Cause;
use crate::causes::driving_port::DrivingPort;
use crate::causes::input_event::InputEvent;
use crate::causes::levels::Levels;
use crate::causes::moment::Moment;
use crate::causes::tracer::Tracer;
use crate::causes::wire_change::WireChange;
use mp_model::Waves;
use mp_netlist::{Netlist, WireId};
use mp_streams::{Failed, Out, Sink, Text, WriteError};
use mp_text::wire_name;
use std::alloc::Global;

/// Writes why a wire has its level at a time: its last change with the cause, then the change that it follows with the cause of that, and so on, back
/// to a stimulus or to the start of a module, in at most this number of lines. A wire that didn't change has its declared level. Nothing is written
/// if there is no wire.
///
/// `WriteFailed` comes if the sink fails; then the sink has a beginning of what was held and of the text, and nothing is held. `OutOfMemory` comes if
/// memory runs out; then a beginning of the text is written. It takes memory for the drivers of wires, and none for the lines. A line takes searches
/// in the waves of one module's inputs.
pub fn put_why<S: Sink>(
    alloc: Global,
    out: &mut Out<S>,
    netlist: &Netlist,
    waves: &Waves,
    moment: Moment,
    steps: u32,
) -> Result<(), WriteError>
    requires { AreWavesOf netlist.now waves.now }
    ensures { Writes result out.old out.new (why_text netlist.now moment steps) }
{
    let levels = Levels::new(netlist, waves);
    let Some(last) = levels.last_change(moment) else {
        put_declared(out, netlist, moment.wire)?;
        return Ok(());
    };
    let mut tracer = Tracer::new(alloc, levels)?;
    put_chain(out, &mut tracer, last, steps)?;
    Ok(())
}

/// Writes the first lines of the chain of a change.
fn put_chain<S: Sink>(
    out: &mut Out<S>,
    tracer: &mut Tracer<'_>,
    last: WireChange,
    steps: u32,
) -> Result<(), Failed>
    requires form { IsCircuit tracer.old.levels.netlist.now }
    requires from { 0 < last.time }
    requires within { last.time < tracer.old.levels.netlist.now.horizon }
    ensures { WritesTo result out.old out.new (flat_map (step_line tracer.old.levels.netlist.now) (take steps (chain_from tracer.old.levels.netlist.now last.time (Some last)))) }
{
    let mut next = Some(last);
    for _ in 0..steps {
        let Some(change) = next else {
            break;
        };
        let cause = tracer.cause_of(change);
        put_step(out, tracer.levels.netlist, change, &cause)?;
        next = cause.followed();
    }
    Ok(())
}

/// Writes the line of a wire that didn't change; nothing if there is none.
fn put_declared<S: Sink>(out: &mut Out<S>, netlist: &Netlist, wire: WireId) -> Result<(), Failed>
    ensures { WritesTo result out.old out.new (declared_line (wire_at netlist.now wire.0)) }
{
    match netlist.wire(wire) {
        Some(found) => (found.name.as_str(), " 0=", found.initial, " declared\n").put_to(out),
        None => Ok(()),
    }
}

/// Writes the line of a change with its cause.
fn put_step<S: Sink>(
    out: &mut Out<S>,
    netlist: &Netlist,
    change: WireChange,
    cause: &Cause<'_>,
) -> Result<(), Failed>
    requires { cause_seen cause.now ≡ cause_of netlist.now change }
    ensures { WritesTo result out.old out.new (step_line netlist.now change) }
{
    put_change(out, netlist, change)?;
    put_cause(out, netlist, cause)?;
    out.put_text("\n")
}

/// Writes a change.
fn put_change<S: Sink>(
    out: &mut Out<S>,
    netlist: &Netlist,
    change: WireChange,
) -> Result<(), Failed>
    ensures { WritesTo result out.old out.new (change_text netlist.now change) }
{
    let name = wire_name(netlist, change.wire);
    (name, " ", (change.time, "=", change.level)).put_to(out)
}

/// Writes a cause.
fn put_cause<S: Sink>(out: &mut Out<S>, netlist: &Netlist, cause: &Cause<'_>) -> Result<(), Failed>
    ensures { WritesTo result out.old out.new (cause_text netlist.now (cause_seen cause.now)) }
{
    match cause {
        Cause::Outside => out.put_text(" < stim"),
        Cause::Start(port) => {
            put_port(out, *port)?;
            out.put_text(" start")
        }
        Cause::Events(port, events) => {
            put_port(out, *port)?;
            put_events(out, netlist, events.as_slice())
        }
    }
}

/// Writes the module of a port, and the port's delay.
fn put_port<S: Sink>(out: &mut Out<S>, port: DrivingPort<'_>) -> Result<(), Failed>
    ensures { WritesTo result out.old out.new (port_text (port_seen port.entry)) }
{
    let (name, kind) = (port.part.name.as_str(), port.part.kind.word());
    (" < ", name, " ", (kind, "/", port.delay, " <")).put_to(out)
}

/// Writes events, each after a space.
fn put_events<S: Sink>(
    out: &mut Out<S>,
    netlist: &Netlist,
    events: &[InputEvent],
) -> Result<(), Failed>
    ensures { WritesTo result out.old out.new (flat_map (event_text netlist.now) events.now) }
{
    for &event in events {
        put_event(out, netlist, event)?;
    }
    Ok(())
}

fn put_event<S: Sink>(out: &mut Out<S>, netlist: &Netlist, event: InputEvent) -> Result<(), Failed>
    ensures { WritesTo result out.old out.new (event_text netlist.now event) }
{
    out.put_text(" ")?;
    put_change(out, netlist, event.change)?;
    if event.delay == 0 {
        return Ok(());
    }
    ("/", event.delay).put_to(out)
}
