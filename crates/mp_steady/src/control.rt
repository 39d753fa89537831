//! The control of a netlist.
ghost use Rattle.std.specs.Prelude.{◌≡◌, All, IfOk, IsSome, filter, length};
ghost use Rattle.std.specs.List.{range_with_len};
ghost use Rattle.mp_netlist.specs.Circuit.{wire_at};
ghost use Rattle.mp_records.specs.declared.ids.WireId.{WireId as Id};
ghost use Rattle.mp_steady.specs.Reaching.{mark_at};
ghost use Rattle.mp_steady.specs.WireSets.{control, has_events, numbers};

use crate::wire_inputs::wire_inputs;
use mp_netlist::{Netlist, WireId};
use mp_questions::Driven;
use std::alloc::{AllocError, Global};

/// The control, by number: the wires of width 1, and what they depend on. Each wire is looked at once.
pub(crate) fn control(alloc: Global, of: Driven<'_>) -> Result<Vec<WireId>, AllocError>
    ensures value { IfOk result (λ found. numbers found.items ≡ control of.entry.netlist.now) }
    ensures stand { IfOk result (λ found. All (λ (w : Id). IsSome (wire_at of.entry.netlist.now w.0)) found.items) }
{
    // Its contract says that the netlist is well formed.
    let _horizon = of.netlist.horizon();
    let mut reached = Reached::events(alloc, of.netlist)?;
    let mut place = 0;
    while place < reached.order.len() {
        reached.add_inputs(of, place)?;
        place += 1;
    }
    marked(alloc, of.netlist, reached.marks.as_slice())
}

/// Wires that were reached.
#[derive(Drop)]
struct Reached {
    /// Whether each wire was reached, by number.
    marks: Vec<bool>,
    /// As they were reached.
    order: Vec<WireId>,
}

impl Reached {
    ghost use Rattle.std.specs.Prelude.{◌≡◌, ◌+◌, ◌<◌, ◌++◌, ℕ, List, true, IfOk, OnOk, length};
    ghost use Rattle.mp_netlist.specs.Circuit.{Circuit, IsCircuit};
    ghost use Rattle.mp_records.specs.declared.ids.WireId.{WireId as Id};
    ghost use Rattle.mp_steady.specs.Reaching.{AreFollowed, AreReached, HaveEvents, IsNeeded, mark_at};
    ghost use Rattle.mp_steady.specs.WireSets.{has_wire, numbers};

    /// The wires of width 1 are reached.
    fn events(alloc: Global, netlist: &Netlist) -> Result<Self, AllocError>
        ensures reached { IfOk result (λ found. AreReached netlist.now found.marks.items found.order.items) }
        ensures events { IfOk result (λ found. HaveEvents netlist.now (length netlist.now.wires) found.order.items) }
    {
        let marks = vec![in alloc; false; netlist.wire_slots() as usize]?;
        let order = Vec::new(alloc);
        let mut reached = Reached { marks, order };
        for number in 0..netlist.wire_slots() {
            reached.add_event_wire(netlist, WireId(number))?;
        }
        Ok(reached)
    }

    /// A wire of width 1 is reached.
    fn add_event_wire(&mut self, netlist: &Netlist, wire: WireId) -> Result<(), AllocError>
        requires reached { AreReached netlist.now self.old.marks.items self.old.order.items }
        requires events { HaveEvents netlist.now wire.0 self.old.order.items }
        requires within { wire.0 < length netlist.now.wires }
        ensures reached { OnOk result (AreReached netlist.now self.new.marks.items self.new.order.items) }
        ensures events { OnOk result (HaveEvents netlist.now (wire.0 + 1) self.new.order.items) }
    {
        if !has_events(netlist, wire) {
            return Ok(());
        }
        self.add(wire)?;
        Ok(())
    }

    /// What the wire at a place depends on is reached.
    fn add_inputs(&mut self, of: Driven<'_>, place: usize) -> Result<(), AllocError>
        requires within { place < length self.old.order.items }
        requires form { IsCircuit of.netlist.now }
        requires reached { AreReached of.netlist.now self.old.marks.items self.old.order.items }
        requires followed { AreFollowed of.netlist.now place self.old.order.items }
        ensures reached { OnOk result (AreReached of.entry.netlist.now self.new.marks.items self.new.order.items) }
        ensures followed { OnOk result (AreFollowed of.entry.netlist.now (place + 1) self.new.order.items) }
        ensures kept { OnOk result ((w : ℕ) → has_wire (numbers self.old.order.items) w ≡ true → has_wire (numbers self.new.order.items) w ≡ true) }
    {
        for &input in wire_inputs(of, self.order[place]) {
            self.add(input.wire)?;
        }
        Ok(())
    }

    /// A wire that exists is reached.
    fn add(&mut self, wire: WireId) -> Result<(), AllocError>
        requires { wire.0 < length self.old.marks.items }
        ensures reached { OnOk result ((n : Circuit) → AreReached n self.old.marks.items self.old.order.items → IsNeeded n wire.0 → AreReached n self.new.marks.items self.new.order.items) }
        ensures marked { OnOk result (mark_at self.new.marks.items wire.0 ≡ true) }
        ensures more { OnOk result ((more : List Id) × (self.new.order.items ≡ self.old.order.items ++ more)) }
    {
        let place = wire.0 as usize;
        if self.marks[place] {
            return Ok(());
        }
        self.order.push(wire)?;
        self.marks[place] = true;
        Ok(())
    }
}

/// Whether a wire has width 1.
pub(crate) fn has_events(netlist: &Netlist, wire: WireId) -> bool
    ensures { result ≡ has_events netlist.now wire.0 }
{
    match netlist.wire(wire) {
        Some(found) => found.width == 1,
        None => false,
    }
}

/// The wires that are marked, by number.
fn marked(alloc: Global, netlist: &Netlist, marks: &[bool]) -> Result<Vec<WireId>, AllocError>
    ensures { IfOk result (λ found. numbers found.items ≡ filter (mark_at marks.now) (range_with_len 0 (length netlist.now.wires))) }
{
    let mut found = Vec::new(alloc);
    for number in 0..netlist.wire_slots() {
        if is_marked(marks, WireId(number)) {
            found.push(WireId(number))?;
        }
    }
    Ok(found)
}

/// Whether a wire is marked.
fn is_marked(marks: &[bool], wire: WireId) -> bool
    ensures { result ≡ mark_at marks.now wire.0 }
{
    match marks.get(wire.0 as usize) {
        Some(mark) => *mark,
        None => false,
    }
}
