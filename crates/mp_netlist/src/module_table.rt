//! Modules by number and by name, and the wires that they are at.
mod at_wires;

ghost use Rattle.std.specs.Prelude.{◌≡◌, IfSome};
ghost use Rattle.mp_netlist.specs.Slots.{slot_at};
ghost use Rattle.mp_netlist.specs.Least.{IsAtMost, IsChanged, least_among, least_at};

use crate::around::Around;
use crate::least_delay::{LeastDelay, goes_up, least_in, lesser_of};
use crate::table::{Change, Table};
use crate::wire_knowledge::WireKnowledge;
use mp_records::{ModuleRecord, Name, WireId};
use std::alloc::{AllocError, Global};
use std::hash::RandomState;
use std::marker::Model;

/// Modules by number, from 0 in the order of adding, and by name, with what is known of the wires that they are at, and their least delay. A copy knows
/// for each wire which modules are at it. Contracts see only the modules.
#[derive(Drop)]
pub struct ModuleTable {
    table: Table<ModuleRecord>,
    known: WireKnowledge,
    least: LeastDelay,
}

impl Model for ModuleTable {
    ghost use Rattle.std.specs.Prelude.{◌≡◌, List, Option};
    ghost use Rattle.mp_records.specs.declared.module_record.ModuleRecord.{ModuleRecord};
    ghost use Rattle.mp_netlist.specs.Knowledge.{AreKnown};
    ghost use Rattle.mp_netlist.specs.Least.{least_among};

    ghost Value = { List (Option ModuleRecord) };

    ghost view = { λ modules. modules.table };

    ghost invariant = { λ modules. AreKnown modules.known modules.table × (modules.least.delay ≡ least_among modules.table) };
}

impl ModuleTable {
    ghost use Rattle.std.specs.Prelude.{◌≡◌, ℕ, ◌<◌, ◌^◌, ◌++◌, ◌∷◌, [], false, None, Some, OnOk, OnErr, IfOk, length, slice_set, option_map};
    ghost use Rattle.std.specs.Option.{option_copied};
    ghost use Rattle.mp_records.specs.declared.module_record.ModuleRecord.{ModuleRecord as Record};
    ghost use Rattle.mp_records.specs.NamedWires.{module_names};
    ghost use Rattle.mp_netlist.specs.Least.{least_among};
    ghost use Rattle.mp_netlist.specs.Knowledge.{AreKnown};
    ghost use Rattle.mp_netlist.specs.declared.wire_knowledge.WireKnowledge.TheVariants.{At};
    ghost use Rattle.mp_netlist.specs.Slots.{slot_at, number_named, stands_and};
    ghost use Rattle.mp_netlist.specs.Tables.{KeepsNames};

    /// An empty table. It has room for this number of modules, and as many wires, if there is memory for it.
    pub fn with_room(alloc: Global, keys: RandomState, room: usize) -> ModuleTable
        ensures { result ≡ [] }
    {
        let driven = match Vec::with_capacity(alloc, room) {
            Ok(driven) => driven,
            Err(_) => Vec::new(alloc),
        };
        ModuleTable {
            table: Table::with_room(alloc, keys, room),
            known: WireKnowledge::Driven(driven),
            least: LeastDelay::none(),
        }
    }

    /// The module of this number, if it exists.
    pub fn get(&self, number: u32) -> Option<&ModuleRecord>
        ensures { option_copied result ≡ slot_at self.now number }
    {
        self.table.get(number)
    }

    /// The number of the module that has this name.
    pub fn number_named(&self, name: &Name) -> Option<u32>
        ensures { result ≡ number_named (λ (r : Record). r.name) self.now name.now }
    {
        self.table.number_named(name)
    }

    /// The number of the module whose name is this text.
    pub fn number_spelled(&self, text: &str) -> Option<u32>
        ensures { result ≡ number_named (λ (r : Record). r.name) self.now text.now }
    {
        self.table.number_spelled(text)
    }

    /// The least delay of the outputs that have a wire, if one has.
    pub fn least(&self) -> Option<u32>
        ensures { result ≡ least_among self.now }
    {
        self.least.delay
    }

    /// The number of a module that has the least delay, if one has.
    pub fn fastest(&self) -> u32 {
        self.least.module
    }

    /// Adds a place for a wire, if the wire is the next one. No module is at it.
    pub fn add_wire(&mut self, wire: WireId) -> Result<(), AllocError>
        requires { (m : ℕ) → stands_and (module_names wire.0) (slot_at self.old m) ≡ false }
        ensures { self.new ≡ self.old }
    {
        self.known.add_wire(wire)
    }

    /// Adds a module of a new name, with the next number.
    pub fn push(&mut self, added: ModuleRecord) -> Result<(), AllocError>
        requires room { length self.old < 2 ^ 32 }
        requires free { number_named (λ (r : Record). r.name) self.old added.name ≡ None }
        ensures ok { OnOk result (self.new ≡ self.old ++ Some added ∷ []) }
        ensures err { OnErr result (self.new ≡ self.old) }
    {
        let number = self.table.len() as u32;
        self.known.note(number, &added)?;
        let least = least_in(self.least.delay, added.outputs.as_slice());
        self.table.push(added)?;
        self.least = self.least.or_that(least, number);
        Ok(())
    }

    /// Removes the module of this number. The number stays empty.
    pub fn remove(&mut self, number: u32) -> Result<(), AllocError>
        ensures ok { OnOk result (self.new ≡ slice_set self.old number None) }
        ensures err { OnErr result (self.new ≡ self.old) }
    {
        self.put(number, None)
    }

    /// Changes the module of this number, if it exists.
    pub fn change<C: Change<ModuleRecord>>(
        &mut self,
        number: u32,
        change: C,
    ) -> Result<(), AllocError>
        ensures ok { OnOk result (self.new ≡ slice_set self.old number (option_map (C.changed change) (slot_at self.old number))) }
        ensures err { OnErr result (self.new ≡ self.old) }
    {
        let changed = self.table.changed(number, change)?;
        self.put(number, changed)
    }

    /// Puts something into the slot of this number, if there is such a slot: what stood there with other properties, or nothing.
    fn put(&mut self, number: u32, placed: Option<ModuleRecord>) -> Result<(), AllocError>
        requires { KeepsNames (λ (r : Record). r.name) (slot_at self.old number) placed }
        ensures ok { OnOk result (self.new ≡ slice_set self.old number placed) }
        ensures err { OnErr result (self.new ≡ self.old) }
    {
        if let Some(found) = &placed {
            self.known.note(number, found)?;
        }
        let before = least_at(&self.table, number);
        let after = least_of(&placed);
        self.table.put(number, placed)?;
        self.least = least_after(&self.table, self.least, number, before, after);
        Ok(())
    }

    /// A copy of the table, which knows which modules are at each wire.
    pub fn copy(&self) -> Result<ModuleTable, AllocError>
        ensures { IfOk result (λ copy. copy ≡ self.now) }
    {
        let around = match &self.known {
            WireKnowledge::Driven(driven) => self.found_around(driven.len())?,
            WireKnowledge::At(around) => around.copy()?,
        };
        Ok(ModuleTable {
            table: self.table.copy()?,
            known: WireKnowledge::At(around),
            least: self.least,
        })
    }

    /// The modules at each of so many wires, by a look at each module.
    fn found_around(&self, wires: usize) -> Result<Around, AllocError>
        ensures { IfOk result (λ around. AreKnown (At around) self.now) }
    {
        let mut around = Around::of_wires(self.allocator(), wires)?;
        for m in 0..self.table.len() {
            if let Some(found) = self.table.get(m as u32) {
                around.note(m as u32, found)?;
            }
        }
        Ok(around)
    }

    /// The number of modules that were ever added.
    pub fn len(&self) -> usize
        ensures { result ≡ length self.now }
    {
        self.table.len()
    }

    /// The allocator of its memory.
    pub fn allocator(&self) -> Global {
        self.table.allocator()
    }
}

/// The least delay after a change of a module whose least delay was one and is another.
fn least_after(
    table: &Table<ModuleRecord>,
    least: LeastDelay,
    number: u32,
    before: Option<u32>,
    after: Option<u32>,
) -> LeastDelay
    requires { IsChanged least.delay before after (least_among table.now) }
    ensures { result.delay ≡ least_among table.now }
{
    if goes_up(least.delay, before, after) {
        least_near(table, least.delay, number)
    } else {
        least.or_that(lesser_of(least.delay, after), number)
    }
}

/// The least delay, by a look at modules up to one that has the least that there can be: from this number on, and then from the first.
fn least_near(table: &Table<ModuleRecord>, bound: Option<u32>, number: u32) -> LeastDelay
    requires { IsAtMost bound (least_among table.now) }
    ensures { result.delay ≡ least_among table.now }
{
    match next_with(table, bound, number) {
        Some(module) => LeastDelay {
            delay: bound,
            module,
        },
        None => least_from(table, bound),
    }
}

/// The first module from this number on whose least delay is this.
fn next_with(table: &Table<ModuleRecord>, delay: Option<u32>, number: u32) -> Option<u32>
    ensures { IfSome result (λ m. least_at (slot_at table.now m) ≡ delay) }
{
    for m in number as usize..table.len() {
        if least_at(table, m as u32) == delay {
            return Some(m as u32);
        }
    }
    None
}

/// The least delay, by a look at modules up to one that has the least that there can be.
fn least_from(table: &Table<ModuleRecord>, bound: Option<u32>) -> LeastDelay
    requires { IsAtMost bound (least_among table.now) }
    ensures { result.delay ≡ least_among table.now }
{
    let mut least = LeastDelay::none();
    for m in 0..table.len() {
        let found = lesser_of(least.delay, least_at(table, m as u32));
        least = least.or_that(found, m as u32);
        if least.delay == bound {
            return least;
        }
    }
    least
}

/// The least delay of the outputs of a module that have a wire, if it exists and there is one.
fn least_at(table: &Table<ModuleRecord>, number: u32) -> Option<u32>
    ensures { result ≡ least_at (slot_at table.now number) }
{
    match table.get(number) {
        Some(found) => least_in(None, found.outputs.as_slice()),
        None => None,
    }
}

/// The least delay of the outputs of a module that have a wire, if there is one.
fn least_of(placed: &Option<ModuleRecord>) -> Option<u32>
    ensures { result ≡ least_at placed.now }
{
    match placed {
        Some(found) => least_in(None, found.outputs.as_slice()),
        None => None,
    }
}
