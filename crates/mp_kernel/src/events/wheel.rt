//! The event wheel, and the wheel of levels to come.

ghost use Rattle.std.specs.Prelude.{◌≡◌, ◌+◌, ◌-◌, ◌<◌, ◌≤◌, nat_lt, if◌then◌else◌};
ghost use Rattle.std.specs.List.{list_all};
ghost use Rattle.mp_kernel.specs.events.EventWheels.{is_empty};

use crate::events::slot::Slot;
use std::alloc::{AllocError, Global};
use std::marker::Model;
use std::mem::swap;

/// A wheel: a slot for each of the next units, the next first, with what happens in it, as far as is known. The slots form a circle, and `next` is the
/// place of the slot of the next unit.
#[derive(Drop)]
pub struct Wheel<E: Copy> {
    slots: Vec<Slot<E>>,
    next: usize,
}

impl<E: Copy> Model for Wheel<E> {
    ghost use Rattle.std.specs.Prelude.{List, ◌-◌, ◌≤◌, length};
    ghost use Rattle.mp_kernel.specs.events.EventWheels.{turned_by};

    ghost Value = { List (List E) };

    ghost view = { λ wheel. turned_by wheel.next wheel.slots.items };

    ghost invariant = { λ wheel. wheel.next ≤ length wheel.slots.items - 1 };
}

impl<E: Copy> Wheel<E> {
    ghost use Rattle.std.specs.Prelude.{◌≡◌, ◌↔◌, ℕ, ◌-◌, ◌<◌, ◌≤◌, ◌++◌, ◌∷◌, [], drop, length, IsTrue, IfOk, OnOk, slice_index_or, slice_set};
    ghost use Rattle.mp_kernel.specs.events.EventWheels.{with_entry, AreEmpty};

    /// A wheel of this number of units, in which nothing happens.
    pub fn new(alloc: Global, units: usize) -> Result<Wheel<E>, AllocError>
        ensures places { IfOk result (λ wheel. length wheel ≡ units) }
        ensures empty { IfOk result (λ wheel. (k : ℕ) → slice_index_or wheel k [] ≡ []) }
    {
        let mut slots = Vec::with_capacity(alloc, units)?;
        for _unit in 0..units {
            slots.push(Slot::new(alloc))?;
        }
        Ok(Wheel { slots, next: 0 })
    }

    /// Whether nothing happens in the next unit, as far as is known.
    #[inline(always)]
    pub fn is_quiet(&self) -> bool
        requires { 0 < length self.now }
        ensures { IsTrue result ↔ slice_index_or self.now 0 [] ≡ [] }
    {
        self.slots[self.next].is_empty()
    }

    /// Whether nothing happens in any unit to come, as far as is known.
    pub fn is_idle(&self) -> bool
        ensures { IsTrue result ↔ AreEmpty self.now }
    {
        are_empty(self.slots.as_slice())
    }

    /// What happens `units` after the next unit, as far as is known.
    pub fn slot(&self, units: usize) -> &[E]
        ensures { result.now ≡ slice_index_or self.now units [] }
    {
        if units >= self.slots.len() {
            return &[];
        }
        let place = place_after(self.next, units, self.slots.len());
        self.slots[place].as_slice()
    }

    /// Swaps the slot `units` after the next one with another slot.
    pub fn swap_slot(&mut self, units: usize, other: &mut Slot<E>)
        requires { units < length self.old }
        ensures wheel { self.new ≡ slice_set self.old units other.old }
        ensures other { other.new ≡ slice_index_or self.old units [] }
    {
        let place = place_after(self.next, units, self.slots.len());
        swap(&mut self.slots[place], other);
    }

    /// Begins the next unit: its slot becomes the present one, and the former present slot is emptied and becomes that of the last unit.
    #[inline(always)]
    pub fn turn(&mut self, present: &mut Slot<E>)
        requires { 0 < length self.old }
        ensures present { present.new ≡ slice_index_or self.old 0 [] }
        ensures turned { self.new ≡ drop 1 self.old ++ [] ∷ [] }
    {
        present.clear();
        if self.is_quiet() {
            self.skip();
            return;
        }
        swap(&mut self.slots[self.next], present);
        self.next = place_after(self.next, 1, self.slots.len());
    }

    /// Begins the next unit, in which nothing happens.
    #[inline(always)]
    pub fn skip(&mut self)
        requires some { 0 < length self.old }
        requires quiet { slice_index_or self.old 0 [] ≡ [] }
        ensures { self.new ≡ drop 1 self.old ++ [] ∷ [] }
    {
        self.next = place_after(self.next, 1, self.slots.len());
    }

    /// Schedules an entry `delay` units after the present one.
    #[inline(always)]
    pub fn schedule(&mut self, delay: usize, entry: E) -> Result<(), AllocError>
        requires some { 0 < delay }
        requires within { delay ≤ length self.old }
        ensures { OnOk result (self.new ≡ with_entry self.old (delay - 1) entry) }
    {
        let place = place_after(self.next, delay - 1, self.slots.len());
        self.slots[place].push(entry)?;
        Ok(())
    }
}

/// Whether nothing is in any of the slots.
fn are_empty<E: Copy>(slots: &[Slot<E>]) -> bool
    ensures { result ≡ list_all is_empty slots.now }
{
    slots.iter().all(|slot| slot.as_slice().is_empty())
}

/// The place `steps` after another, in a circle of `places`.
#[inline(always)]
fn place_after(place: usize, steps: usize, places: usize) -> usize
    requires place { place < places }
    requires steps { steps ≤ places }
    ensures within { result < places }
    ensures value { result ≡ (if nat_lt steps (places - place) then place + steps else steps - (places - place)) }
{
    let left = places - place;
    if steps < left {
        place + steps
    } else {
        steps - left
    }
}
