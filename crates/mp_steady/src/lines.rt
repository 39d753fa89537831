//! What is said of a netlist that repeats, and of one that doesn't.
ghost use Rattle.std.specs.Prelude.{◌≡◌, ◌<◌, ◌≤◌, ◌^◌, ◌++◌, ◌||◌, [], ℕ, List, All, IfOk, IfSome, IsSome, codes, is_some, length, not};
ghost use Rattle.std.specs.Fmt.{decimal};
ghost use Rattle.std.specs.List.{flat_map};
ghost use Rattle.mp_streams.specs.Outgoing.{Writes as WritesTo};
ghost use Rattle.mp_streams.specs.WriteErrors.{Writes};
ghost use Rattle.mp_records.specs.declared.ids.WireId.{WireId as Id};
ghost use Rattle.mp_netlist.specs.Circuit.{IsCircuit, wire_at};
ghost use Rattle.mp_questions.specs.causes.Shares.{units_of};
ghost use Rattle.mp_questions.specs.declared.causes.wire_change.WireChange.{WireChange as Change};
ghost use Rattle.mp_steady.specs.Cycles.{cycle, cycle_length};
ghost use Rattle.mp_steady.specs.Periods.{is_over, last_unit, longest_period, period, start};
ghost use Rattle.mp_steady.specs.RunTimes.{AreTimes};
ghost use Rattle.mp_steady.specs.SteadyLines.{control_text, cycle_line, cycle_text, events_line, module_line, none_text, repeats_line, repeats_text, steady_text, stimuli_text, text_of};
ghost use Rattle.mp_steady.specs.WireSets.{all_wires, control, numbers};

use crate::control::control;
use crate::cycle::Repeating;
use crate::period::period;
use crate::repeats::start;
use crate::run_times::RunTimes;
use crate::wire_set::{WireSet, all_wires};
use mp_netlist::{Netlist, WireId};
use mp_questions::causes::{ModuleShare, Tracer, put_share, shares_of};
use mp_questions::{Driven, WireChange};
use mp_streams::{Failed, Out, Sink, Text, WriteError};
use mp_text::wire_name;
use std::alloc::Global;

/// Writes whether a netlist repeats for ever, given its waves and the drivers of its wires: `nothing changes after TIME`; or `repeats from TIME every UNITS`
/// with a line `wire NAME EVENTS` for each wire that changes in a period, a line `cycle UNITS from WIRE TIME` with the length of the critical cycle and
/// one of its changes, and a line `module NAME UNITS STEPS` for each of its modules; or the same of the control, as `control stands still after TIME` and
/// `control repeats from TIME every UNITS`; or else `doesn't repeat before HORIZON: ..` with the longest period that was looked for.
///
/// `WriteFailed` comes if the sink fails; then the sink has a beginning of what was held and of the text, and nothing is held. `OutOfMemory` comes if
/// memory runs out; then a beginning of the text is written.
pub fn put_steady<S: Sink>(
    alloc: Global,
    out: &mut Out<S>,
    of: Driven<'_>,
) -> Result<(), WriteError>
    ensures { Writes result out.old out.new (steady_text of.entry.netlist.now) }
{
    let all = all_wires(alloc, of.netlist)?;
    let words = Words {
        over: "nothing changes after ",
        before: "",
    };
    match put_set(alloc, out, words, of, all.as_slice())? {
        Some(times) => put_control(alloc, out, of, times),
        None => Ok(()),
    }
}

/// Writes what is said of the control, or that no period was found. The times are those of all wires.
fn put_control<S: Sink>(
    alloc: Global,
    out: &mut Out<S>,
    of: Driven<'_>,
    times: RunTimes,
) -> Result<(), WriteError>
    requires { AreTimes of.netlist.now (all_wires of.netlist.now) times }
    ensures { Writes result out.old out.new (control_text of.entry.netlist.now (control of.entry.netlist.now)) }
{
    let control = control(alloc, of)?;
    if control.is_empty() {
        put_none(out, of.netlist, times)?;
        return Ok(());
    }
    let words = Words {
        over: "control stands still after ",
        before: "control ",
    };
    match put_set(alloc, out, words, of, control.as_slice())? {
        Some(times) => {
            put_none(out, of.netlist, times)?;
            Ok(())
        }
        None => Ok(()),
    }
}

/// How the first line begins: of wires that are over, and before `repeats`.
#[derive(Clone, Copy)]
struct Words {
    over: &'static str,
    before: &'static str,
}

/// Writes what is said of wires that are over or repeat. For others nothing is written, and their times are returned.
fn put_set<S: Sink>(
    alloc: Global,
    out: &mut Out<S>,
    words: Words,
    of: Driven<'_>,
    wires: &[WireId],
) -> Result<Option<RunTimes>, WriteError>
    requires { All (λ (w : Id). IsSome (wire_at of.netlist.now w.0)) wires.now }
    ensures text { Writes result out.old out.new (text_of of.entry.netlist.now words.over.now words.before.now (numbers wires.now) []) }
    ensures found { IfOk result (λ times. is_some times ≡ not (is_over of.entry.netlist.now (numbers wires.now) || is_some (period of.entry.netlist.now (numbers wires.now)))) }
    ensures times { IfOk result (λ found. IfSome found (AreTimes of.entry.netlist.now (numbers wires.now))) }
{
    let set = WireSet { of, wires };
    let times = RunTimes::of(set);
    if times.is_over() {
        put_over(out, words, times.last_change)?;
        return Ok(None);
    }
    let Some(units) = period(alloc, set, times)? else {
        return Ok(Some(times));
    };
    put_repeating(alloc, out, words, Repeating { set, times, units })?;
    Ok(None)
}

/// Writes since when nothing changes.
fn put_over<S: Sink>(out: &mut Out<S>, words: Words, time: u32) -> Result<(), Failed>
    ensures { WritesTo result out.old out.new (words.over.now ++ (decimal time ++ codes "\n")) }
{
    (words.over, time, "\n").put_to(out)
}

/// Writes what is said of wires that repeat.
fn put_repeating<S: Sink>(
    alloc: Global,
    out: &mut Out<S>,
    words: Words,
    of: Repeating<'_>,
) -> Result<(), WriteError>
    ensures { Writes result out.old out.new (repeats_text of.entry.set.of.netlist.now words.before.now (numbers of.entry.set.wires.now) of.entry.units) }
{
    put_first(out, words, of)?;
    put_events(out, of)?;
    put_critical(alloc, out, of)
}

/// Writes since when wires repeat, and how often.
fn put_first<S: Sink>(out: &mut Out<S>, words: Words, of: Repeating<'_>) -> Result<(), Failed>
    ensures { WritesTo result out.old out.new (repeats_line words.before.now (start of.entry.set.of.netlist.now (numbers of.entry.set.wires.now) of.entry.units) of.entry.units) }
{
    let from = start(of.set, of.times, of.units);
    let line = (words.before, "repeats from ", from);
    (line, " every ", of.units, "\n").put_to(out)
}

/// Writes the lines of the critical cycle and of its modules; nothing if there is none.
fn put_critical<S: Sink>(
    alloc: Global,
    out: &mut Out<S>,
    of: Repeating<'_>,
) -> Result<(), WriteError>
    ensures { Writes result out.old out.new (cycle_text of.entry.set.of.netlist.now (cycle of.entry.set.of.netlist.now (numbers of.entry.set.wires.now) of.entry.units)) }
{
    // Its contract says that the netlist is well formed.
    let _horizon = of.set.of.netlist.horizon();
    let netlist = of.set.of.netlist;
    let mut tracer = Tracer::of(alloc, netlist, of.set.of.waves)?;
    let cycle = of.cycle(alloc, &mut tracer)?;
    let changes = cycle.as_slice();
    let shares = shares_of(alloc, &mut tracer, changes)?;
    let length = cycle_length(&mut tracer, changes);
    let Some(&first) = changes.first() else {
        return Ok(());
    };
    put_cycle(out, netlist, first, length)?;
    put_modules(out, netlist, shares.as_slice())?;
    Ok(())
}

/// The units of all steps of a cycle.
fn cycle_length(tracer: &mut Tracer<'_>, cycle: &[WireChange]) -> u64
    requires form { IsCircuit tracer.old.levels.netlist.now }
    requires few { length cycle.now < 2 ^ 32 }
    requires within { All (λ (c : Change). (0 < c.time) × (c.time < tracer.old.levels.netlist.now.horizon)) cycle.now }
    ensures value { result ≡ cycle_length tracer.old.levels.netlist.now cycle.now }
    ensures tracer { tracer.new.levels ≡ tracer.old.levels }
{
    let mut length = 0;
    for &change in cycle {
        length += u64::from(units_of(tracer, change));
    }
    length
}

/// How many units a change came after the one that it follows.
fn units_of(tracer: &mut Tracer<'_>, change: WireChange) -> u32
    requires form { IsCircuit tracer.old.levels.netlist.now }
    requires from { 0 < change.time }
    requires within { change.time < tracer.old.levels.netlist.now.horizon }
    ensures value { result ≡ units_of tracer.old.levels.netlist.now change }
    ensures tracer { tracer.new.levels ≡ tracer.old.levels }
{
    match tracer.followed(change) {
        Some(found) => change.time - found.time,
        None => change.time,
    }
}

/// Writes the line of a cycle.
fn put_cycle<S: Sink>(
    out: &mut Out<S>,
    netlist: &Netlist,
    first: WireChange,
    length: u64,
) -> Result<(), Failed>
    ensures { WritesTo result out.old out.new (cycle_line netlist.now first length) }
{
    let name = wire_name(netlist, first.wire);
    ("cycle ", length, " from ", (name, " ", first.time, "\n")).put_to(out)
}

/// Writes a line for each share of a module.
fn put_modules<S: Sink>(
    out: &mut Out<S>,
    netlist: &Netlist,
    shares: &[ModuleShare],
) -> Result<(), Failed>
    ensures { WritesTo result out.old out.new (flat_map (module_line netlist.now) shares.now) }
{
    for &share in shares {
        put_module(out, netlist, share)?;
    }
    Ok(())
}

fn put_module<S: Sink>(
    out: &mut Out<S>,
    netlist: &Netlist,
    share: ModuleShare,
) -> Result<(), Failed>
    ensures { WritesTo result out.old out.new (module_line netlist.now share) }
{
    out.put_text("module ")?;
    put_share(out, netlist, share)
}

/// Writes the lines of the wires with events.
fn put_events<S: Sink>(out: &mut Out<S>, of: Repeating<'_>) -> Result<(), Failed>
    ensures { WritesTo result out.old out.new (flat_map (events_line of.entry.set.of.netlist.now of.entry.units) (numbers of.entry.set.wires.now)) }
{
    for &wire in of.set.wires {
        put_wire(out, of, wire)?;
    }
    Ok(())
}

/// Writes the line of a wire; nothing if it has no events.
fn put_wire<S: Sink>(out: &mut Out<S>, of: Repeating<'_>, wire: WireId) -> Result<(), Failed>
    requires { IsSome (wire_at of.set.of.netlist.now wire.0) }
    ensures { WritesTo result out.old out.new (events_line of.entry.set.of.netlist.now of.entry.units wire.0) }
{
    let count = of.changes_of(wire).len();
    if count == 0 {
        return Ok(());
    }
    let name = wire_name(of.set.of.netlist, wire);
    ("wire ", name, " ", (count as u64, "\n")).put_to(out)
}

/// Writes that no period was found.
fn put_none<S: Sink>(out: &mut Out<S>, netlist: &Netlist, times: RunTimes) -> Result<(), Failed>
    ensures { (wires : List ℕ) → AreTimes netlist.now wires times → WritesTo result out.old out.new (none_text netlist.now wires) }
{
    ("doesn't repeat before ", netlist.horizon(), ": ").put_to(out)?;
    put_stimuli(out, times.last_set)?;
    ("no period of up to ", times.longest_period(), "\n").put_to(out)
}

/// Writes up to when stimuli change; nothing if they don't.
fn put_stimuli<S: Sink>(out: &mut Out<S>, time: u32) -> Result<(), Failed>
    ensures { WritesTo result out.old out.new (stimuli_text time) }
{
    if time == 0 {
        return Ok(());
    }
    ("stimuli until ", time, ", ").put_to(out)
}
