//! Going back from a change to all that leads to it.
ghost use Rattle.std.specs.Prelude.{◌≡◌, ◌<◌, ◌/◌, ◌%◌, ◌↔◌, IsTrue, Some, option_map};
ghost use Rattle.mp_netlist.specs.Circuit.{IsCircuit};
ghost use Rattle.mp_records.specs.Outputs.{delay_of};
ghost use Rattle.mp_questions.specs.late.Sources.{has_memory};
ghost use Rattle.mp_questions.specs.late.Searching.{from_on, key, source_at, wire_numbers};

use crate::late::change_counts::ChangeCounts;
use crate::late::driven::Driven;
use mp_modules::Kind;
use mp_netlist::{Driver, Input, ModuleRecord, WireId};
use std::alloc::{AllocError, Global};
use std::collections::BTreeSet;

/// How many numbers there are for the wires of one time.
const WIRES: u64 = 4_294_967_296;

/// A wire that changes at a time.
#[derive(Clone, Copy)]
pub(crate) struct WireTime {
    pub(crate) wire: WireId,
    pub(crate) time: u32,
}

/// What has still to be looked at: changes, the latest first.
#[derive(Drop)]
pub(crate) struct Search<'a> {
    pub(crate) of: Driven<'a>,
    pub(crate) counts: ChangeCounts,
    /// Each change by its time and, behind that, its wire.
    pending: BTreeSet<u64>,
}

impl<'a> Search<'a> {
    ghost use Rattle.std.specs.Prelude.{◌≡◌, ◌<◌, ◌≤◌, ◌+◌, ◌*◌, ◌||◌, ℕ, All, IfOk, OnOk, Some};
    ghost use Rattle.std.specs.List.{list_any};
    ghost use Rattle.mp_netlist.specs.Circuit.{IsCircuit};
    ghost use Rattle.mp_questions.specs.causes.Changes.{change_at};
    ghost use Rattle.mp_questions.specs.causes.Causes.{cause_by};
    ghost use Rattle.mp_records.specs.declared.ids.ModuleId.{ModuleId as Id};
    ghost use Rattle.mp_questions.specs.late.Sources.{sources_by};
    ghost use Rattle.mp_questions.specs.late.Lateness.{is_excused};
    ghost use Rattle.mp_questions.specs.late.Searching.{any_excused, with_key};

    /// Nothing is to be looked at yet.
    pub(crate) fn new(alloc: Global, of: Driven<'a>) -> Self
        ensures { result.of ≡ of.entry }
    {
        Search {
            of,
            counts: ChangeCounts::new(),
            pending: BTreeSet::new(alloc),
        }
    }

    /// Whether an excuse leads to a change: the request, or what is set from outside after it. Each change from the request on that leads to it
    /// is looked at at most once.
    pub(crate) fn is_excused(
        &mut self,
        request: WireTime,
        change: WireTime,
    ) -> Result<bool, AllocError>
        requires form { IsCircuit self.old.of.netlist.now }
        requires within { change.time < self.old.of.netlist.now.horizon }
        ensures value { IfOk result (λ is. is ≡ is_excused self.old.of.netlist.now request.wire.0 request.time (change_at self.old.of.netlist.now change.wire change.time)) }
        ensures of { self.new.of ≡ self.old.of }
    {
        self.pending.clear();
        self.pending.insert(key_of(change))?;
        while let Some(key) = self.pending.pop_last() {
            if self.is_excuse(request, change_of(key))? {
                return Ok(true);
            }
        }
        Ok(false)
    }

    /// Whether a change is an excuse. If not, its sources are added to the pending changes.
    fn is_excuse(&mut self, request: WireTime, change: WireTime) -> Result<bool, AllocError>
        requires form { IsCircuit self.old.of.netlist.now }
        requires within { change.time < self.old.of.netlist.now.horizon }
        ensures value { IfOk result (λ is. (is || any_excused self.old.of.netlist.now request.wire.0 request.time self.new.pending.keys)
            ≡ (is_excused self.old.of.netlist.now request.wire.0 request.time (change_at self.old.of.netlist.now change.wire change.time)
            || any_excused self.old.of.netlist.now request.wire.0 request.time self.old.pending.keys)) }
        ensures below { OnOk result ((end : ℕ) → key change.time 0 ≤ end → All (λ k. k < end) self.old.pending.keys → All (λ k. k < end) self.new.pending.keys) }
        ensures of { self.new.of ≡ self.old.of }
    {
        if change.wire.0 == request.wire.0 && change.time == request.time {
            return Ok(true);
        }
        let is_later = change.time > request.time;
        let Driver::Port(id, port) = self.of.driver_of(change.wire) else {
            return Ok(is_later);
        };
        match self.of.netlist.module(id) {
            Some(part) => {
                let delay = delay_of(part, port);
                self.push_sources(part, delay, change.time, request)
            }
            None => Ok(is_later),
        }
    }

    /// Puts what a change at a port comes from to what is to be looked at, but nothing from before a request. Where it comes from the request itself,
    /// nothing more is to be looked at.
    fn push_sources(
        &mut self,
        part: &ModuleRecord,
        delay: u32,
        time: u32,
        request: WireTime,
    ) -> Result<bool, AllocError>
        requires form { IsCircuit self.old.of.netlist.now }
        requires delay { 0 < delay }
        requires within { time < self.old.of.netlist.now.horizon }
        ensures value { (id : Id) → IfOk result (λ is. (is || any_excused self.old.of.netlist.now request.wire.0 request.time self.new.pending.keys)
            ≡ (any_excused self.old.of.netlist.now request.wire.0 request.time self.old.pending.keys
            || list_any (is_excused self.old.of.netlist.now request.wire.0 request.time)
            (sources_by self.old.of.netlist.now time (cause_by self.old.of.netlist.now time (Some (record { id = id; part = part.now; delay = delay })))))) }
        ensures below { OnOk result ((end : ℕ) → key time 0 ≤ end → All (λ k. k < end) self.old.pending.keys → All (λ k. k < end) self.new.pending.keys) }
        ensures of { self.new.of ≡ self.old.of }
    {
        if time == delay {
            return Ok(false);
        }
        let heard = time.saturating_sub(delay);
        for &input in part.inputs.as_slice() {
            let found = source_from(
                &mut self.counts,
                self.of,
                part.kind,
                input,
                heard,
                request.time,
            );
            if is_request(request, input.wire, found) {
                return Ok(true);
            }
            self.push(input.wire, found)?;
        }
        Ok(false)
    }

    /// Puts the change of a wire at a time, if there is one, to what is to be looked at.
    fn push(&mut self, wire: WireId, found: Option<u32>) -> Result<(), AllocError>
        ensures value { OnOk result (self.new.pending.keys ≡ with_key self.old.pending.keys wire.0 found) }
        ensures low { wire.0 < wire_numbers }
        ensures of { self.new.of ≡ self.old.of }
    {
        if let Some(time) = found {
            self.pending.insert(key_of(WireTime { wire, time }))?;
        }
        Ok(())
    }
}

/// When the change was that an input heard at a time, or with memory the last one up to it; nothing where that was before a time from 1 on.
fn source_from(
    counts: &mut ChangeCounts,
    of: Driven<'_>,
    kind: Kind,
    input: Input,
    heard: u32,
    from: u32,
) -> Option<u32>
    requires form { IsCircuit of.netlist.now }
    requires within { heard < of.netlist.now.horizon }
    ensures { result ≡ from_on from (option_map (λ c. c.time) (source_at of.entry.netlist.now kind heard input)) }
{
    let upto = heard.saturating_sub(input.delay);
    let least = if has_memory(kind) {
        from
    } else {
        from.max(upto)
    };
    counts.last_between(of, input.wire, least, upto)
}

/// Whether a wire's change at a time, if there is one, is the request.
fn is_request(request: WireTime, wire: WireId, found: Option<u32>) -> bool
    ensures { IsTrue result ↔ (wire.0 ≡ request.wire.0) × (found ≡ Some request.time) }
{
    match found {
        Some(time) => wire.0 == request.wire.0 && time == request.time,
        None => false,
    }
}

/// The delay of an output port: 1, as the least, if there is no such port.
fn delay_of(part: &ModuleRecord, port: u32) -> u32
    ensures { result ≡ delay_of part.now port }
{
    match part.outputs.as_slice().get(port as usize) {
        Some(output) => output.delay,
        None => 1,
    }
}

/// A change by one number: of two the later one has the greater number.
fn key_of(change: WireTime) -> u64
    ensures { result ≡ key change.time change.wire.0 }
{
    u64::from(change.time) * WIRES + u64::from(change.wire.0)
}

/// The change of a number.
fn change_of(number: u64) -> WireTime
    ensures wire { result.wire.0 ≡ number % wire_numbers }
    ensures time { result.time ≡ number / wire_numbers }
{
    WireTime {
        wire: WireId((number % WIRES) as u32),
        time: (number / WIRES) as u32,
    }
}

/// Whether what a module of this kind does depends on what its inputs did before.
fn has_memory(kind: Kind) -> bool
    ensures { result ≡ has_memory kind }
{
    !kind.is_function()
}
