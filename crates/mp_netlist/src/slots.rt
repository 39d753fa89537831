//! Slots of things.
ghost use Rattle.std.specs.Prelude.{◌≡◌, ◌<◌, ◌^◌, ◌++◌, ◌∷◌, [], Option, None, Some, IfOk, OnOk, OnErr, length, slice_set};
ghost use Rattle.std.specs.Option.{option_copied};
ghost use Rattle.mp_netlist.specs.Slots.{slot_at, thing_in};

use crate::table::Named;
use mp_records::{Kept, Pieces};
use std::alloc::{AllocError, Global};
use std::marker::Model;

/// A place for each number of a thing, empty where there is none now. They stand in one block until they are copied. A copy is in pieces, which its
/// own copies share until one of them writes there. Contracts see the list of what stands in them.
#[derive(Drop)]
pub struct Slots<R: Named> {
    is_shared: bool,
    whole: Vec<Option<R>>,
    pieces: Pieces<Slot<R>>,
}

impl<R: Named> Model for Slots<R> {
    ghost use Rattle.std.specs.Prelude.{List, Option, cond};

    ghost Value = { List (Option R) };

    ghost view = { λ slots. cond slots.is_shared slots.pieces slots.whole.items };
}

/// A thing, or nothing. Contracts see just that.
#[derive(Drop)]
struct Slot<R: Named> {
    thing: Option<R>,
}

impl<R: Named> Model for Slot<R> {
    ghost use Rattle.std.specs.Prelude.{Option};

    ghost Value = { Option R };

    ghost view = { λ slot. slot.thing };
}

impl<R: Named> Clone for Slot<R> {
    ghost is_clone = { λ old new. new ≡ old };

    fn clone(&self) -> Result<Self, AllocError> {
        Ok(Slot {
            thing: cloned(&self.thing)?,
        })
    }
}

impl<R: Named> Kept for Slot<R> {
    ghost clones_equal = { λ old new same. same };
}

impl<R: Named> Slot<R> {
    /// What stands there.
    fn get(&self) -> Option<&R>
        ensures { option_copied result ≡ self.now }
    {
        match &self.thing {
            Some(thing) => Some(thing),
            None => None,
        }
    }
}

impl<R: Named> Slots<R> {
    ghost use Rattle.std.specs.Prelude.{◌≡◌, ◌<◌, ◌^◌, ◌++◌, ◌∷◌, [], None, Some, IfOk, OnOk, OnErr, length, slice_set};
    ghost use Rattle.std.specs.Option.{option_copied};
    ghost use Rattle.mp_netlist.specs.Slots.{slot_at};

    /// No slots.
    pub fn new(alloc: Global) -> Slots<R>
        ensures { result ≡ [] }
    {
        Slots {
            is_shared: false,
            whole: Vec::new(alloc),
            pieces: Pieces::new(alloc),
        }
    }

    /// No slots. There is room for this number.
    pub fn with_room(alloc: Global, room: usize) -> Result<Slots<R>, AllocError>
        ensures { IfOk result (λ slots. slots ≡ []) }
    {
        Ok(Slots {
            is_shared: false,
            whole: Vec::with_capacity(alloc, room)?,
            pieces: Pieces::new(alloc),
        })
    }

    /// How many there are.
    pub fn len(&self) -> usize
        ensures { result ≡ length self.now }
    {
        if self.is_shared {
            self.pieces.len()
        } else {
            self.whole.len()
        }
    }

    /// What stands in the slot of this number.
    pub fn get(&self, number: u32) -> Option<&R>
        ensures { option_copied result ≡ slot_at self.now number }
    {
        if self.is_shared {
            thing_of(self.pieces.get(number as usize))
        } else {
            thing_at(self.whole.as_slice(), number)
        }
    }

    /// One more slot, with this thing.
    pub fn push(&mut self, added: R) -> Result<(), AllocError>
        requires { length self.old < 2 ^ 32 }
        ensures ok { OnOk result (self.new ≡ self.old ++ Some added ∷ []) }
        ensures err { OnErr result (self.new ≡ self.old) }
    {
        if self.is_shared {
            self.pieces.push(Slot { thing: Some(added) })
        } else {
            push_whole(&mut self.whole, Some(added))
        }
    }

    /// Puts something into the slot of this number, if there is such a slot.
    pub fn put(&mut self, number: u32, thing: Option<R>) -> Result<(), AllocError>
        ensures ok { OnOk result (self.new ≡ slice_set self.old number thing) }
        ensures err { OnErr result (self.new ≡ self.old) }
    {
        if (number as usize) < self.len() {
            self.put_at(number as usize, thing)
        } else {
            Ok(())
        }
    }

    /// Puts something into a slot.
    fn put_at(&mut self, place: usize, thing: Option<R>) -> Result<(), AllocError>
        requires { place < length self.old }
        ensures ok { OnOk result (self.new ≡ slice_set self.old place thing) }
        ensures err { OnErr result (self.new ≡ self.old) }
    {
        if self.is_shared {
            self.pieces.set(place, Slot { thing })
        } else {
            self.whole[place] = thing;
            Ok(())
        }
    }

    /// The same slots once more, in pieces.
    pub fn copy(&self) -> Result<Slots<R>, AllocError>
        ensures { IfOk result (λ copy. copy ≡ self.now) }
    {
        let alloc = self.allocator();
        let pieces = if self.is_shared {
            self.pieces.copy()?
        } else {
            in_pieces(alloc, self.whole.as_slice())?
        };
        Ok(Slots {
            is_shared: true,
            whole: Vec::new(alloc),
            pieces,
        })
    }

    /// The allocator of their memory.
    pub fn allocator(&self) -> Global {
        *self.whole.allocator()
    }
}

/// What stands in a slot of a list.
fn thing_at<R: Named>(list: &[Option<R>], number: u32) -> Option<&R>
    ensures { option_copied result ≡ slot_at list.now number }
{
    match list.get(number as usize) {
        Some(Some(found)) => Some(found),
        _ => None,
    }
}

/// What stands in a slot, if there is one.
fn thing_of<R: Named>(slot: Option<&Slot<R>>) -> Option<&R>
    ensures { option_copied result ≡ thing_in (option_copied slot.entry) }
{
    match slot {
        Some(slot) => slot.get(),
        None => None,
    }
}

/// One more entry of a list.
fn push_whole<R: Named>(list: &mut Vec<Option<R>>, thing: Option<R>) -> Result<(), AllocError>
    ensures ok { OnOk result (list.new.items ≡ list.old.items ++ thing ∷ []) }
    ensures err { OnErr result (list.new.items ≡ list.old.items) }
{
    list.push(thing)?;
    Ok(())
}

fn cloned<R: Named>(thing: &Option<R>) -> Result<Option<R>, AllocError>
    ensures { IfOk result (λ copy. copy ≡ thing.now) }
{
    match thing {
        Some(found) => Ok(Some(found.clone()?)),
        None => Ok(None),
    }
}

/// Clones of these slots, in pieces.
fn in_pieces<R: Named>(alloc: Global, list: &[Option<R>]) -> Result<Pieces<Slot<R>>, AllocError>
    ensures { IfOk result (λ pieces. pieces ≡ list.now) }
{
    let mut pieces = Pieces::new(alloc);
    for place in 0..list.len() {
        let thing = cloned(&list[place])?;
        pieces.push(Slot { thing })?;
    }
    Ok(pieces)
}
