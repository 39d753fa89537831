//! Wires or modules that are picked from a netlist, numbered anew.

use std::alloc::{AllocError, Global};

/// The numbers of what is picked, in order, and the place of each number among them. The place of a number that isn't picked means nothing.
#[derive(Drop)]
pub(crate) struct Numbering {
    pub numbers: Vec<u32>,
    pub places: Vec<u32>,
}

impl Numbering {
    ghost use Rattle.std.specs.Prelude.{◌≡◌, ◌<◌, ◌^◌, IfOk, length};
    ghost use Rattle.mp_near.specs.reach.Numbers.{AreNumbered, place_at};

    /// The numbers that are marked.
    pub(crate) fn of(alloc: Global, marks: &[bool]) -> Result<Numbering, AllocError>
        requires { length marks.now < 2 ^ 32 }
        ensures { IfOk result (λ found. AreNumbered marks.now (length marks.now) found.numbers.items found.places.items) }
    {
        let mut numbers = Vec::new(alloc);
        let mut places = Vec::with_capacity(alloc, marks.len())?;
        for number in 0..marks.len() {
            places.push(numbers.len() as u32)?;
            if marks[number] {
                numbers.push(number as u32)?;
            }
        }
        Ok(Numbering { numbers, places })
    }

    /// The place of a number that is picked, and a place without meaning for another.
    pub(crate) fn place_of(&self, number: u32) -> u32
        ensures { result ≡ place_at self.now.places.items number }
    {
        match self.places.get(number as usize) {
            Some(place) => *place,
            None => number,
        }
    }
}
