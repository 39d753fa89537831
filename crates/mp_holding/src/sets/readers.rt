//! Which places name a number.
ghost use Rattle.std.specs.Prelude.{◌≡◌, ◌≤◌, ◌<◌, ◌^◌, ℕ, IfOk, length, suc, get_or, if◌then◌else◌};
ghost use Rattle.mp_holding.specs.declared.sets.needs.Need.TheVariants.{Member};
ghost use Rattle.mp_holding.specs.sets.Readers.{AreReaders, Covers};

use crate::sets::needs::{NEEDS, Need, Needs, need_at};
use std::alloc::{AllocError, Global};

/// The places whose needs name a number, as a chain: from the number to the last place, and from each place to the one before. A place is given as
/// the one behind it, and none as 0.
#[derive(Drop)]
pub(crate) struct Readers {
    /// By number.
    pub(crate) last: Vec<u32>,
    /// By place.
    pub(crate) before: Vec<u32>,
}

impl Readers {
    ghost use Rattle.std.specs.Prelude.{◌≡◌, ◌≤◌, ◌<◌, ◌^◌, IfOk, length, get_or};
    ghost use Rattle.mp_holding.specs.sets.Readers.{AreReaders};

    /// The places of needs.
    pub(crate) fn of(alloc: Global, needs: &[Needs]) -> Result<Self, AllocError>
        requires { length needs.now < 2 ^ 29 }
        ensures { IfOk result (AreReaders needs.now) }
    {
        let places = NEEDS * needs.len() as u32;
        let mut last = vec![in alloc; 0; needs.len()]?;
        let mut before = Vec::with_capacity(alloc, places as usize)?;
        for place in 0..places {
            before.push(note(&mut last, need_at(needs, place), place))?;
        }
        Ok(Readers { last, before })
    }

    /// What is behind the last place that names a number.
    pub(crate) fn last_of(&self, number: u32) -> u32
        ensures { result ≡ get_or self.now.last.items number 0 }
    {
        match self.last.get(number as usize) {
            Some(behind) => *behind,
            None => 0,
        }
    }

    /// What is behind the place before a place that names the same number.
    pub(crate) fn before(&self, place: u32) -> u32
        ensures { result ≡ get_or self.now.before.items place 0 }
    {
        match self.before.get(place as usize) {
            Some(behind) => *behind,
            None => 0,
        }
    }
}

/// Notes that a need at a place names a number, if it does, and returns what was noted of that number before.
fn note(last: &mut Vec<u32>, need: Need, place: u32) -> u32
    requires { place < 2 ^ 31 }
    ensures places { length last.new.items ≡ length last.old.items }
    ensures before { (k : ℕ) → need ≡ Member k → result ≡ get_or last.old.items k 0 }
    ensures last { (k : ℕ) → k < length last.old.items → need ≡ Member k → get_or last.new.items k 0 ≡ suc place }
    ensures others { (k : ℕ) → (need ≡ Member k → ⊥) → get_or last.new.items k 0 ≡ get_or last.old.items k 0 }
    ensures other { ((k : ℕ) → need ≡ Member k → ⊥) → result ≡ 0 }
{
    let Need::Member(number) = need else {
        return 0;
    };
    let place_of_number = number as usize;
    if place_of_number < last.len() {
        let before = last[place_of_number];
        last[place_of_number] = place + 1;
        return before;
    }
    0
}
