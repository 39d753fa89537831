//! Things by number and by name.
ghost use Rattle.std.specs.Prelude.{◌≡◌, List, ℕ, true, IfOk, IfSome};
ghost use Rattle.mp_netlist.specs.Slots.{slot_at, has_name};

use crate::index::Index;
use crate::slots::Slots;
use mp_records::Name;
use std::alloc::{AllocError, Global};
use std::hash::RandomState;
use std::marker::Model;

/// Where a name is looked for around a number, the likeliest place first: 1 above, here, 1 below, 2 above, and so on.
const STEPS: [u32; 10] = [
    1,
    0,
    u32::MAX,
    2,
    u32::MAX - 1,
    3,
    u32::MAX - 2,
    4,
    u32::MAX - 3,
    5,
];

/// A thing with a name. Its clones are equal to it.
pub trait Named: Clone + Drop {
    ghost name_of: { Self → List ℕ };

    /// Its name.
    fn name(&self) -> &Name
        ensures { result.now ≡ name_of self.now };

    ghost clones_equal: { (old new : Self) → Self.is_clone old new → new ≡ old };
}

/// A change of a thing that keeps its name.
pub trait Change<R: Named>: Drop {
    ghost changed: { Self → R → R };

    /// Makes the change.
    fn make(self, thing: &mut R)
        ensures { thing.new ≡ changed self thing.old };

    ghost keeps_name: { (change : Self) (thing : R) → R.name_of (changed change thing) ≡ R.name_of thing };
}

/// Things by number, from 0 in the order of adding, and by name. The index may hold a name that no thing has: that of a removed thing stays there, and
/// so does that of a thing for which memory was lacking once its name was noted.
#[derive(Drop)]
pub struct Table<R: Named> {
    slots: Slots<R>,
    index: Index,
}

impl<R: Named> Model for Table<R> {
    ghost use Rattle.std.specs.Prelude.{List, Option};
    ghost use Rattle.mp_netlist.specs.Indexes.{number_in};
    ghost use Rattle.mp_netlist.specs.Tables.{IsTable};

    ghost Value = { List (Option R) };

    ghost view = { λ table. table.slots };

    ghost invariant = { λ table. IsTable R.name_of table.slots (number_in table.index) };
}

impl<R: Named> Table<R> {
    ghost use Rattle.std.specs.Prelude.{◌≡◌, ◌<◌, ◌≤◌, ◌^◌, ◌++◌, ◌∷◌, [], None, Some, OnOk, OnErr, IfOk, length, slice_set, option_map};
    ghost use Rattle.std.specs.Option.{option_copied};
    ghost use Rattle.mp_netlist.specs.Slots.{slot_at, number_named};
    ghost use Rattle.mp_netlist.specs.Tables.{KeepsNames};

    /// An empty table.
    pub fn new(alloc: Global, keys: RandomState) -> Table<R>
        ensures { result ≡ [] }
    {
        Table {
            slots: Slots::new(alloc),
            index: Index::new(keys),
        }
    }

    /// An empty table. It has room for this number of things, if there is memory for it.
    pub fn with_room(alloc: Global, keys: RandomState, room: usize) -> Table<R>
        ensures { result ≡ [] }
    {
        match Slots::with_room(alloc, room) {
            Ok(slots) => Table {
                slots,
                index: Index::with_room(alloc, keys, room),
            },
            Err(_) => Table::new(alloc, keys),
        }
    }

    /// The thing of this number, if it exists.
    pub fn get(&self, number: u32) -> Option<&R>
        ensures { option_copied result ≡ slot_at self.now number }
    {
        self.slots.get(number)
    }

    /// The number of the thing that has this name.
    pub fn number_named(&self, name: &Name) -> Option<u32>
        ensures { result ≡ number_named R.name_of self.now name.now }
    {
        match self.index.get(name) {
            Some(number) if has_name(&self.slots, number, name.as_str()) => Some(number),
            _ => None,
        }
    }

    /// The number of the thing that has this name. The numbers around `near` are tried first, which costs less if it is one of them.
    pub fn number_near(&self, name: &Name, near: u32) -> Option<u32>
        ensures { result ≡ number_named R.name_of self.now name.now }
    {
        match number_around(&self.slots, near, name.as_str()) {
            Some(number) => Some(number),
            None => self.number_named(name),
        }
    }

    /// The number of the thing whose name is this text. If there is no memory for a long text, each thing is looked at.
    pub fn number_spelled(&self, text: &str) -> Option<u32>
        ensures { result ≡ number_named R.name_of self.now text.now }
    {
        match Name::new(self.allocator(), text) {
            Ok(name) => self.number_named(&name),
            Err(_) => self.number_sought(text),
        }
    }

    /// The number of the thing whose name is this text, by a look at each thing.
    fn number_sought(&self, text: &str) -> Option<u32>
        ensures { result ≡ number_named R.name_of self.now text.now }
    {
        for number in 0..self.slots.len() {
            if has_name(&self.slots, number as u32, text) {
                return Some(number as u32);
            }
        }
        None
    }

    /// Adds a thing of a new name, with the next number.
    pub fn push(&mut self, added: R) -> Result<(), AllocError>
        requires room { length self.old < 2 ^ 32 }
        requires free { number_named R.name_of self.old (R.name_of added) ≡ None }
        ensures ok { OnOk result (self.new ≡ self.old ++ Some added ∷ []) }
        ensures err { OnErr result (self.new ≡ self.old) }
    {
        let number = self.slots.len() as u32;
        self.index
            .insert(self.slots.allocator(), added.name(), number)?;
        self.slots.push(added)
    }

    /// Removes the thing of this number. The number stays empty.
    pub fn remove(&mut self, number: u32) -> Result<(), AllocError>
        ensures ok { OnOk result (self.new ≡ slice_set self.old number None) }
        ensures err { OnErr result (self.new ≡ self.old) }
    {
        self.put(number, None)
    }

    /// Changes what stands in the slot of this number.
    pub fn change<C: Change<R>>(&mut self, number: u32, change: C) -> Result<(), AllocError>
        ensures ok { OnOk result (self.new ≡ slice_set self.old number (option_map (C.changed change) (slot_at self.old number))) }
        ensures err { OnErr result (self.new ≡ self.old) }
    {
        let changed = self.changed(number, change)?;
        self.put(number, changed)
    }

    /// What stands in the slot of this number, changed.
    pub fn changed<C: Change<R>>(&self, number: u32, change: C) -> Result<Option<R>, AllocError>
        ensures value { IfOk result (λ changed. changed ≡ option_map (C.changed change) (slot_at self.now number)) }
        ensures names { IfOk result (λ changed. KeepsNames R.name_of (slot_at self.now number) changed) }
    {
        match self.slots.get(number) {
            Some(thing) => Ok(Some(changed_copy(thing, change)?)),
            None => Ok(None),
        }
    }

    /// Puts something into the slot of this number, if there is such a slot: what stood there with other properties, or nothing.
    pub fn put(&mut self, number: u32, thing: Option<R>) -> Result<(), AllocError>
        requires { KeepsNames R.name_of (slot_at self.old number) thing }
        ensures ok { OnOk result (self.new ≡ slice_set self.old number thing) }
        ensures err { OnErr result (self.new ≡ self.old) }
    {
        self.slots.put(number, thing)
    }

    /// A copy of the table. The index of names is shared.
    pub fn copy(&self) -> Result<Table<R>, AllocError>
        ensures { IfOk result (λ copy. copy ≡ self.now) }
    {
        Ok(Table {
            slots: self.slots.copy()?,
            index: self.index.copy()?,
        })
    }

    /// The number of things that were ever added.
    pub fn len(&self) -> usize
        ensures value { result ≡ length self.now }
        ensures few { result ≤ 2 ^ 32 }
    {
        self.slots.len()
    }

    /// The keys by which names are hashed.
    pub fn keys(&self) -> RandomState {
        self.index.keys()
    }

    /// The allocator of its memory.
    pub fn allocator(&self) -> Global {
        self.slots.allocator()
    }
}

/// A copy of a thing, changed.
fn changed_copy<R: Named, C: Change<R>>(thing: &R, change: C) -> Result<R, AllocError>
    ensures { IfOk result (λ copy. copy ≡ C.changed change thing.now) }
{
    let mut copy = thing.clone()?;
    change.make(&mut copy);
    Ok(copy)
}

/// The number of the thing of this name, if it is at most 4 below or 5 above this number.
fn number_around<R: Named>(slots: &Slots<R>, near: u32, name: &str) -> Option<u32>
    ensures { IfSome result (λ number. has_name R.name_of name.now (slot_at slots.now number) ≡ true) }
{
    for step in STEPS {
        let number = near.wrapping_add(step);
        if has_name(slots, number, name) {
            return Some(number);
        }
    }
    None
}

/// Whether the thing of this number exists and has this name.
fn has_name<R: Named>(slots: &Slots<R>, number: u32, name: &str) -> bool
    ensures { result ≡ has_name R.name_of name.now (slot_at slots.now number) }
{
    match slots.get(number) {
        Some(thing) => name == thing.name().as_str(),
        None => false,
    }
}
