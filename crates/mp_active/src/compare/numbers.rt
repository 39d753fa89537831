//! The numbers that modules read: of wires, and after them of their delayed copies.
ghost use Rattle.std.specs.Prelude.{◌≡◌, ◌≢◌, ℕ, ◌<◌, false, IfOk, length, slice_index_or};
ghost use Rattle.mp_netlist.specs.Circuit.{wire_at};
ghost use Rattle.mp_active.specs.compare.Numbering.{AreSources, HasWires, has_data};

use mp_kernel::OutputPort;
use mp_netlist::{Netlist, WireId};
use std::alloc::{AllocError, Global};

/// Of each number its wire, how much later than that it is, and the copy that is next later; and of each wire whether it has data.
#[derive(Drop)]
pub struct Numbers {
    pub wires: Vec<u32>,
    pub delays: Vec<u32>,
    pub next: Vec<OutputPort>,
    pub have_data: Vec<bool>,
}

impl Numbers {
    ghost use Rattle.std.specs.Prelude.{◌≡◌, ℕ, ◌<◌, IfOk, length};
    ghost use Rattle.mp_active.specs.compare.Comparing.{wire_of, delay_of};
    ghost use Rattle.mp_active.specs.compare.Listing.{after};
    ghost use Rattle.mp_active.specs.compare.Numbering.{AreNumbered, AreNumbersOf};

    /// The numbers of a netlist, given everything but their delays.
    pub fn of(
        alloc: Global,
        netlist: &Netlist,
        wires: Vec<u32>,
        next: Vec<OutputPort>,
    ) -> Result<Numbers, AllocError>
        requires { (source : ℕ → ℕ × ℕ) × AreNumbered (length netlist.now.wires) source wires.items next.items }
        ensures wires { IfOk result (λ numbers. numbers.wires ≡ wires) }
        ensures next { IfOk result (λ numbers. numbers.next ≡ next) }
        ensures sources { IfOk result (λ numbers. (source : ℕ → ℕ × ℕ) → AreNumbered (length netlist.now.wires) source wires.items next.items →
            (x : ℕ) → x < length next.items → source x ≡ (wire_of numbers x, delay_of numbers x)) }
        ensures are { IfOk result (AreNumbersOf netlist.now) }
    {
        let delays = delays_of(alloc, netlist.wire_slots(), next.as_slice())?;
        let have_data = wires_with_data(alloc, netlist)?;
        Ok(Numbers {
            wires,
            delays,
            next,
            have_data,
        })
    }

    /// The wire of a number.
    #[inline(always)]
    pub fn wire_of(&self, number: u32) -> u32
        requires { number < length self.now.wires.items }
        ensures { result ≡ wire_of self.now number }
    {
        self.wires[number as usize]
    }

    /// How much later than its wire a number is.
    #[inline(always)]
    pub fn delay_of(&self, number: u32) -> u32
        requires { number < length self.now.delays.items }
        ensures { result ≡ delay_of self.now number }
    {
        self.delays[number as usize]
    }

    /// The number after a number, if any.
    #[inline(always)]
    pub fn after(&self, number: u32) -> Option<u32>
        requires { number < length self.now.next.items }
        ensures { result ≡ after self.now number }
    {
        self.next[number as usize].wire
    }
}

/// How much later than its wire each number is.
fn delays_of(alloc: Global, wires: u32, next: &[OutputPort]) -> Result<Vec<u32>, AllocError>
    requires { (source : ℕ → ℕ × ℕ) × HasWires wires source next.now }
    ensures places { IfOk result (λ delays. length delays.items ≡ length next.now) }
    ensures right { IfOk result (λ delays. (source : ℕ → ℕ × ℕ) → HasWires wires source next.now → (x : ℕ) → x < length next.now → slice_index_or delays.items x 0 ≡ (source x).1) }
{
    let mut delays = vec![in alloc; 0u32; next.len()]?;
    for wire in 0..wires {
        note_delays(&mut delays, next, wire);
    }
    Ok(delays)
}

/// Notes how much later each copy of a wire is.
fn note_delays(delays: &mut Vec<u32>, next: &[OutputPort], wire: u32)
    requires places { length delays.old.items ≡ length next.now }
    requires within { wire < length next.now }
    requires first { slice_index_or delays.old.items wire 0 ≡ 0 }
    requires sources { (source : ℕ → ℕ × ℕ) × AreSources source next.now × (source wire ≡ (wire, 0)) }
    ensures places { length delays.new.items ≡ length delays.old.items }
    ensures right { (source : ℕ → ℕ × ℕ) → AreSources source next.now → source wire ≡ (wire, 0) → (x : ℕ) → x < length next.now → (source x).0 ≡ wire → slice_index_or delays.new.items x 0 ≡ (source x).1 }
    ensures others { (source : ℕ → ℕ × ℕ) → AreSources source next.now → source wire ≡ (wire, 0) → (x : ℕ) → (source x).0 ≢ wire → slice_index_or delays.new.items x 0 ≡ slice_index_or delays.old.items x 0 }
{
    let mut number = wire as usize;
    while let Some(copy) = next[number].wire {
        delays[copy as usize] = delays[number] + u32::from(next[number].delay);
        number = copy as usize;
    }
}

/// Of each wire whether it has data.
fn wires_with_data(alloc: Global, netlist: &Netlist) -> Result<Vec<bool>, AllocError>
    ensures places { IfOk result (λ have_data. length have_data.items ≡ length netlist.now.wires) }
    ensures each { IfOk result (λ have_data. (w : ℕ) → w < length netlist.now.wires → slice_index_or have_data.items w false ≡ has_data (wire_at netlist.now w)) }
{
    let mut have_data = Vec::with_capacity(alloc, netlist.wire_slots() as usize)?;
    for w in 0..netlist.wire_slots() {
        have_data.push(has_data(netlist, WireId(w)))?;
    }
    Ok(have_data)
}

fn has_data(netlist: &Netlist, wire: WireId) -> bool
    ensures { result ≡ has_data (wire_at netlist.now wire.0) }
{
    match netlist.wire(wire) {
        Some(found) => found.width != 1,
        None => false,
    }
}
