//! What is compared with the old run from time 0 on.
ghost use Rattle.std.specs.Prelude.{◌≡◌, ◌<◌, ◌≤◌, ℕ, [], IfOk, length, replicate};
ghost use Rattle.mp_kernel.specs.timers.TimerWheels.{time_of, never, IsTimerWheel};
ghost use Rattle.mp_active.specs.compare.First.{IsUnread};
ghost use Rattle.mp_active.specs.compare.Reading.{ports_of};

use crate::compare::change::Change;
use crate::compare::comparison::Comparison;
use crate::compare::first_sources::{first_sources, is_active};
use crate::compare::numbers::Numbers;
use crate::compare::wire_source::WireSource;
use mp_kernel::{EventSlot, NEVER, TimerWheel};
use mp_modules::MOST_INPUTS;
use mp_netlist::{ModuleId, Netlist};
use mp_partition::Run;
use std::alloc::{AllocError, Global};

/// How many units the timer wheel has at most.
const SPAN: u32 = 1024;

impl Comparison {
    ghost use Rattle.std.specs.Prelude.{◌≡◌, ◌==◌, ℕ, ◌+◌, ◌<◌, ◌≤◌, ◌^◌, [], true, not, Some, None, is_some, IfOk, OnOk, length, slice_index_or, ◌&&◌, ◌||◌, if◌then◌else◌};
    ghost use Rattle.mp_netlist.specs.Circuit.{module_at};
    ghost use Rattle.mp_modules.specs.automata.Codes.{bit};
    ghost use Rattle.mp_partition.specs.runs.Marks.{is_marked};
    ghost use Rattle.mp_partition.specs.runs.Runs.{IsRun};
    ghost use Rattle.mp_active.specs.compare.Comparing.{asleep_at, source_at, wire_of, is_following, is_tracked, HasCursors, AreUnseen, IsListed, IsComplete};
    ghost use Rattle.mp_active.specs.compare.Listing.{AreLinked};
    ghost use Rattle.mp_active.specs.compare.Numbering.{AreNumbersOf, AreInputs, input_in};
    ghost use Rattle.mp_active.specs.compare.Reading.{ports_of, is_at, is_on_wire, reads, reads_wire, asleep_below, active_below, HasRead};
    ghost use Rattle.mp_active.specs.compare.First.{AreFirst, IsNeverOrZero};

    /// The comparison at time 0, when all wires have their initial levels, and these modules are active. The wires that they drive and read are
    /// on, and those that no port drives and that aren't driven as before.
    pub fn first(
        alloc: Global,
        change: &Change<'_>,
        numbers: Numbers,
        inputs: &[[Option<u32>; MOST_INPUTS]],
        active: &[bool],
    ) -> Result<Comparison, AllocError>
        requires run { IsRun change.now.old.now change.now.run.now }
        requires numbers { AreNumbersOf change.now.new.now numbers }
        requires inputs { AreInputs change.now.new.now (length numbers.wires.items) inputs.now }
        ensures numbers { IfOk result (λ comparison. comparison.numbers ≡ numbers) }
        ensures first { IfOk result (AreFirst change.now.old.now change.now.new.now active.now inputs.now) }
        ensures cursors { IfOk result (HasCursors change.now.run.now 0 []) }
        ensures unseen { IfOk result (AreUnseen 1) }
        ensures complete { IfOk result (IsComplete change.now.run.now 0) }
    {
        // Its contract says that the netlist is well formed.
        let Change { old, run, new, .. } = *change;
        let _old_horizon = old.horizon();
        let span = new.horizon().min(SPAN);
        let sources = first_sources(alloc, old, new, active)?;
        let mut comparison = unread(alloc, numbers, sources, span as usize)?;
        comparison.note_readers(new, inputs, active);
        comparison.list_all(run, new.wire_slots())?;
        Ok(comparison)
    }

    /// Wires that active modules read are on, and modules that sleep are counted among the readers of their numbers.
    fn note_readers(
        &mut self,
        new: &Netlist,
        inputs: &[[Option<u32>; MOST_INPUTS]],
        active: &[bool],
    )
        requires inputs { AreInputs new.now (length self.old.numbers.wires.items) inputs.now }
        requires places { length self.old.asleep.items ≡ length self.old.numbers.wires.items }
        requires wires { (x : ℕ) → x < length self.old.numbers.wires.items → wire_of self.old.numbers x < length self.old.sources.items }
        requires none { (x : ℕ) → asleep_at self.old x ≡ 0 }
        ensures { HasRead (asleep_below new.now (is_marked active.now) inputs.now (length new.now.modules)) (active_below new.now (is_marked active.now) inputs.now self.old.numbers (length new.now.modules)) self.old self.new }
    {
        for m in 0..new.module_slots() {
            let is_active = is_active(active, ModuleId(m));
            self.note_module(new, ModuleId(m), inputs, is_active);
        }
    }

    /// Adds the inputs of a module, if it exists.
    fn note_module(
        &mut self,
        new: &Netlist,
        id: ModuleId,
        inputs: &[[Option<u32>; MOST_INPUTS]],
        is_active: bool,
    )
        requires within { id.0 < length inputs.now }
        requires below { (p x : ℕ) → input_in inputs.now id.0 p ≡ Some x → x < length self.old.numbers.wires.items }
        requires places { length self.old.asleep.items ≡ length self.old.numbers.wires.items }
        requires wires { (x : ℕ) → x < length self.old.numbers.wires.items → wire_of self.old.numbers x < length self.old.sources.items }
        requires room { (x : ℕ) → asleep_at self.old x + 4 < 2 ^ 32 }
        ensures read { HasRead (λ x. if is_some (module_at new.now id.0) && not is_active then reads (ports_of inputs.now id.0) x else 0)
            (λ w. (is_some (module_at new.now id.0) && is_active) && reads_wire self.old.numbers (ports_of inputs.now id.0) w) self.old self.new }
        ensures few { (x : ℕ) → asleep_at self.new x ≤ asleep_at self.old x + 4 }
    {
        match new.module(id) {
            Some(_) => {
                let ports = inputs_of(inputs, id);
                are_few(&ports);
                self.note_inputs(&ports, is_active);
            }
            None => {}
        }
    }

    /// The numbers that the inputs of a module read.
    fn note_inputs(&mut self, inputs: &[Option<u32>], is_active: bool)
        requires below { (p x : ℕ) → slice_index_or inputs.now p None ≡ Some x → x < length self.old.numbers.wires.items }
        requires places { length self.old.asleep.items ≡ length self.old.numbers.wires.items }
        requires wires { (x : ℕ) → x < length self.old.numbers.wires.items → wire_of self.old.numbers x < length self.old.sources.items }
        requires room { (x : ℕ) → asleep_at self.old x + length inputs.now < 2 ^ 32 }
        ensures { HasRead (λ x. if is_active then 0 else reads inputs.now x) (λ w. is_active && reads_wire self.old.numbers inputs.now w) self.old self.new }
    {
        for input in inputs {
            self.note_input(*input, is_active);
        }
    }

    fn note_input(&mut self, input: Option<u32>, is_active: bool)
        requires below { (x : ℕ) → input ≡ Some x → x < length self.old.numbers.wires.items }
        requires places { length self.old.asleep.items ≡ length self.old.numbers.wires.items }
        requires wires { (x : ℕ) → x < length self.old.numbers.wires.items → wire_of self.old.numbers x < length self.old.sources.items }
        requires room { (x : ℕ) → asleep_at self.old x + 1 < 2 ^ 32 }
        ensures { HasRead (λ x. if is_active then 0 else bit (is_at x input)) (λ w. is_active && is_on_wire self.old.numbers w input) self.old self.new }
    {
        if let Some(number) = input {
            self.note_reader(number, is_active);
        }
    }

    /// A module reads a number, which is active or sleeps.
    fn note_reader(&mut self, number: u32, is_active: bool)
        requires within { number < length self.old.numbers.wires.items }
        requires places { length self.old.asleep.items ≡ length self.old.numbers.wires.items }
        requires wire { wire_of self.old.numbers number < length self.old.sources.items }
        requires room { asleep_at self.old number + 1 < 2 ^ 32 }
        ensures { HasRead (λ x. if is_active then 0 else bit (number == x)) (λ w. is_active && wire_of self.old.numbers number == w) self.old self.new }
    {
        if is_active {
            let wire = self.numbers.wire_of(number);
            self.sources[wire as usize].is_on = true;
            return;
        }
        self.asleep[number as usize] += 1;
    }

    /// Tracks the wires whose levels come only from the new run, and lists every other wire that is on.
    fn list_all(&mut self, run: &Run, wires: u32) -> Result<(), AllocError>
        requires wires { wires ≡ length self.old.sources.items }
        requires cursors { HasCursors run.now 0 [] self.old }
        requires linked { AreLinked self.old.numbers }
        ensures kept { OnOk result (self.new ≡ record self.old { timers = self.new.timers; places = self.new.places }) }
        ensures cursors { OnOk result (HasCursors run.now 0 [] self.new) }
        ensures complete { OnOk result (((w : ℕ) → w < length self.old.sources.items → IsNeverOrZero (source_at self.old w)) → IsComplete run.now 0 self.new) }
    {
        for wire in 0..wires {
            self.list_wire(run, wire)?;
        }
        Ok(())
    }

    fn list_wire(&mut self, run: &Run, wire: u32) -> Result<(), AllocError>
        requires within { wire < length self.old.sources.items }
        requires cursors { HasCursors run.now 0 [] self.old }
        requires linked { AreLinked self.old.numbers }
        ensures kept { OnOk result (self.new ≡ record self.old { timers = self.new.timers; places = self.new.places }) }
        ensures cursors { OnOk result (HasCursors run.now 0 [] self.new) }
        ensures listed { OnOk result (IsNeverOrZero (source_at self.old wire) → (x : ℕ) → x < length self.old.numbers.wires.items → wire_of self.old.numbers x ≡ wire →
            (is_following self.old x || is_tracked self.old x 1) ≡ true → IsListed run.now 0 self.new x) }
        ensures others { OnOk result ((x : ℕ) → IsListed run.now 0 self.old x → IsListed run.now 0 self.new x) }
    {
        let source = self.source_of(wire);
        if source.until == NEVER {
            self.track(run, wire, 0)?;
            return Ok(());
        }
        if source.is_on {
            self.list(run, wire, 0)?;
        }
        Ok(())
    }
}

/// What a comparison keeps of each number.
#[derive(Drop)]
struct Notes {
    asleep: Vec<u32>,
    places: Vec<u32>,
    seen: Vec<u32>,
    timers: TimerWheel,
}

/// The comparison in which nobody is known to read a number, and nothing is listed.
fn unread(
    alloc: Global,
    numbers: Numbers,
    sources: Vec<WireSource>,
    span: usize,
) -> Result<Comparison, AllocError>
    requires { 0 < span }
    ensures numbers { IfOk result (λ comparison. comparison.numbers ≡ numbers) }
    ensures sources { IfOk result (λ comparison. comparison.sources.items ≡ sources.items) }
    ensures unread { IfOk result IsUnread }
{
    let notes = unread_notes(alloc, numbers.wires.len(), span)?;
    Ok(Comparison {
        numbers,
        sources,
        asleep: notes.asleep,
        timers: notes.timers,
        present: EventSlot::new(alloc),
        places: notes.places,
        seen: notes.seen,
        departing: Vec::new(alloc),
    })
}

/// What a comparison of so many numbers keeps while nobody is known to read one, and nothing is listed.
fn unread_notes(alloc: Global, count: usize, span: usize) -> Result<Notes, AllocError>
    requires { 0 < span }
    ensures asleep { IfOk result (λ notes. notes.asleep.items ≡ replicate count 0) }
    ensures places { IfOk result (λ notes. length notes.places.items ≡ count) }
    ensures seen { IfOk result (λ notes. notes.seen.items ≡ replicate count 0) }
    ensures times { IfOk result (λ notes. length notes.timers.times.items ≡ count) }
    ensures free { IfOk result (λ notes. (x : ℕ) → time_of notes.timers x ≡ never) }
    ensures timers { IfOk result (λ notes. (t : ℕ) → IsTimerWheel t [] notes.timers) }
{
    Ok(Notes {
        asleep: vec![in alloc; 0u32; count]?,
        places: vec![in alloc; 0u32; count]?,
        seen: vec![in alloc; 0u32; count]?,
        timers: TimerWheel::new(alloc, count, span)?,
    })
}

/// The numbers that the inputs of a module read, by port.
fn inputs_of(inputs: &[[Option<u32>; MOST_INPUTS]], id: ModuleId) -> [Option<u32>; MOST_INPUTS]
    requires { id.0 < length inputs.now }
    ensures { result ≡ ports_of inputs.now id.0 }
{
    inputs[id.0 as usize]
}

/// A module has no more inputs than these.
fn are_few(inputs: &[Option<u32>; MOST_INPUTS])
    ensures { length inputs.now ≤ 4 }
{}
