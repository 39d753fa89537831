//! Runs partitions with inbound wires, each on a thread of its own.
ghost use Rattle.std.specs.Prelude.{◌≡◌, ◌+◌, None, IfOk, IfSome, IsErr, length, map};
ghost use Rattle.mp_partition.specs.regions.Divisions.{IsCrossing, IsDivision};
ghost use Rattle.mp_engine.specs.declared.messages.given_up.GivenUp.TheVariants.{NoMemory};
ghost use Rattle.mp_phase.specs.Allowed.{IsOpen};
ghost use Rattle.mp_engine.specs.PartsOf.{AreOthers, ArePartRuns, AreRunsOf, GiveRuns, IsFirst, IsMailOf, IsRunOf};

use crate::messages::{GivenUp, Lines, Subject};
use crate::part_of::{Divided, PartOf};
use mp_partition::PartRun;
use mp_phase::{Gate, lookers};
use std::alloc::{AllocError, Global};
use std::marker::Brand;
use std::sync::Wait;
use std::thread;
use std::thread::{PromisedHandle, Scope, Threads};

/// What the parts give, each run on a thread of its own. Nothing, if a thread can't be started, or a part gave up though memory was refused to none.
pub(crate) fn run_together<R: Threads + Wait + Sync, G: Gate + Sync>(
    rt: &R,
    alloc: Global,
    gate: &G,
    divided: Divided<'_>,
) -> Result<Option<Vec<PartRun>>, AllocError>
    requires open { IsOpen (G.may gate.now) }
    requires division { IsDivision divided.netlist.now divided.division.now.homes.items divided.division.now.wires.items divided.division.now.heard.items divided.division.now.parts }
    requires crossing { IsCrossing divided.netlist.now divided.division.now.heard.items divided.division.now.delay }
    ensures { IfOk result (λ found. IfSome found (λ runs. AreRunsOf divided.entry runs.items)) }
{
    run_apart::<Brand, R, G>(rt, alloc, gate, divided)
}

/// Runs each part on a thread of its own, with messages whose type names the netlist as it is divided. `None` if a thread can't be started, or if a
/// part gave up though memory was refused to none.
fn run_apart<J: Subject + Send + Sync, R: Threads + Wait + Sync, G: Gate + Sync>(
    rt: &R,
    alloc: Global,
    gate: &G,
    divided: Divided<'_>,
) -> Result<Option<Vec<PartRun>>, AllocError>
    requires open { IsOpen (G.may gate.now) }
    requires division { IsDivision divided.netlist.now divided.division.now.homes.items divided.division.now.wires.items divided.division.now.heard.items divided.division.now.parts }
    requires crossing { IsCrossing divided.netlist.now divided.division.now.heard.items divided.division.now.delay }
    requires netlist { divided.netlist.now ≡ J.netlist }
    requires wires { divided.division.now.wires.items ≡ J.wires }
    requires heards { divided.division.now.heard.items ≡ J.heards }
    ensures { IfOk result (λ found. IfSome found (λ runs. AreRunsOf divided.entry runs.items)) }
{
    let Divided {
        netlist,
        division,
        keeps,
        progress,
    } = divided;
    let mut lines = Lines::<J>::between(alloc, netlist, division, lookers(rt))?;
    let first = PartOf {
        netlist,
        division,
        part: 0,
        keeps,
        progress,
    };
    thread::scope(
        thread::scope_env(),
        rt,
        move |scope| -> Result<Option<Vec<PartRun>>, AllocError>
            requires open { IsOpen (G.may gate.now) }
            requires lines { lines ≡ first.division.now.parts }
            requires first { IsFirst J.netlist J.wires J.heards first }
            ensures { IfOk result (λ found. IfSome found (λ runs. ArePartRuns first.entry runs.items)) }
        {
            let Some(others) = start_others(rt, alloc, scope, gate, first, &mut lines)? else {
                return Ok(None);
            };
            let Some(channels) = lines.take_last(alloc) else {
                return Ok(None);
            };
            match first.run(rt, alloc, gate, channels) {
                Ok(run) => join_others(rt, alloc, run, others),
                Err(cause) => give_up(rt, cause, others),
            }
        },
    )
}

/// The thread of a part.
type Other<'a> = PromisedHandle<Result<PartRun, GivenUp>, PartOf<'a>>;

/// Starts the threads of all parts but the first, from the last down. Nothing, if one can't be started.
fn start_others<
    's,
    E: 's,
    J: Subject + Send + Sync + 's,
    R: Threads + Wait + Sync + 's,
    G: Gate + Sync + 's,
>(
    rt: &'s R,
    alloc: Global,
    scope: &'s Scope<'s, E>,
    gate: &'s G,
    first: PartOf<'s>,
    lines: &mut Lines<J>,
) -> Result<Option<Vec<Other<'s>>>, AllocError>
    requires open { IsOpen (G.may gate.now) }
    requires lines { lines.old ≡ first.division.now.parts }
    requires first { IsFirst J.netlist J.wires J.heards first }
    ensures lines { IfOk result (λ found. IfSome found (λ others. lines.new ≡ 1)) }
    ensures others { IfOk result (λ found. IfSome found (λ others. AreOthers first.entry.netlist.now first.entry.division.now first.entry.keeps (map (λ other. other.promise) others.items))) }
    ensures count { IfOk result (λ found. IfSome found (λ others. length others.items + 1 ≡ first.entry.division.now.parts)) }
{
    let mut others = Vec::new(alloc);
    let mut part = first.division.parts;
    while part > 1 {
        part -= 1;
        let Some(channels) = lines.take_last(alloc) else {
            return Ok(None);
        };
        let it = PartOf { part, ..first };
        let run = move || -> Result<PartRun, GivenUp>
            requires open { IsOpen (G.may gate.now) }
            requires channels { IsMailOf J.netlist J.wires J.heards it channels }
            ensures { IfOk result (IsRunOf it.entry) }
        { it.run(rt, alloc, gate, channels) };
        match scope.spawn_with(it, run) {
            Ok(handle) => others.push(handle)?,
            Err(_) => return Ok(None),
        }
    }
    Ok(Some(others))
}

/// The runs of all partitions; the threads of the others are listed from the last one down. `None` comes if one of them gave up though none ran out
/// of memory.
fn join_others<R: Threads>(
    rt: &R,
    alloc: Global,
    first: PartRun,
    others: Vec<Other<'_>>,
) -> Result<Option<Vec<PartRun>>, AllocError>
    ensures { IfOk result (λ found. IfSome found (λ runs. GiveRuns first (map (λ other. other.promise) others.entry.items) runs.items)) }
{
    let mut others = others;
    let mut runs = Vec::new(alloc);
    runs.push(first)?;
    while let Some(other) = others.pop() {
        match other.join(rt) {
            Ok(run) => runs.push(run)?,
            Err(cause) => return give_up(rt, cause, others),
        }
    }
    Ok(Some(runs))
}

/// The result when a partition has given up, once the others have ended: lack of memory if one of them ran out of it, and otherwise `None`.
fn give_up<R: Threads>(
    rt: &R,
    cause: GivenUp,
    others: Vec<Other<'_>>,
) -> Result<Option<Vec<PartRun>>, AllocError>
    ensures none { IfOk result (λ found. found ≡ None) }
    ensures refused { cause ≡ NoMemory → IsErr result }
{
    let is_refused = has_refused(rt, others);
    if is_refused || cause == GivenUp::NoMemory {
        Err(AllocError)
    } else {
        Ok(None)
    }
}

/// Whether memory was refused to one of these, once all have ended.
fn has_refused<R: Threads>(rt: &R, others: Vec<Other<'_>>) -> bool {
    let mut is_refused = false;
    for other in others {
        if let Err(GivenUp::NoMemory) = other.join(rt) {
            is_refused = true;
        }
    }
    is_refused
}
