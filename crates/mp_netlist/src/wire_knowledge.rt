//! What is known of the wires that modules are at.
ghost use Rattle.std.specs.Prelude.{◌≡◌, ◌⊎◌, ◌++◌, ◌∷◌, [], ℕ, false, None, length};
ghost use Rattle.mp_records.specs.NamedWires.{is_wire};
ghost use Rattle.mp_netlist.specs.Drivers.{port_from};
ghost use Rattle.mp_netlist.specs.DrivenWires.{may_be_driven};

use crate::around::Around;
use mp_records::{ModuleRecord, Output, WireId};
use std::alloc::AllocError;

/// What is known of the wires that modules are at.
#[derive(Drop)]
pub enum WireKnowledge {
    /// A mark for each wire that a module drives, and for others. An unmarked wire has no driver.
    Driven(Vec<bool>),
    /// The modules at each wire, and others.
    At(Around),
}

impl WireKnowledge {
    ghost use Rattle.std.specs.Prelude.{◌≡◌, ◌<◌, ◌⊎◌, ℕ, true, false, None, IfSome, OnOk, length};
    ghost use Rattle.mp_records.specs.declared.module_record.ModuleRecord.{ModuleRecord as Record};
    ghost use Rattle.mp_records.specs.NamedWires.{module_names};
    ghost use Rattle.mp_netlist.specs.Drivers.{port_from};
    ghost use Rattle.mp_netlist.specs.Around.{is_in};
    ghost use Rattle.mp_netlist.specs.Knowledge.{Knows};

    /// How many wires there are.
    pub fn wires(&self) -> usize {
        match self {
            WireKnowledge::Driven(driven) => driven.len(),
            WireKnowledge::At(around) => around.wires(),
        }
    }

    /// The modules that are at a wire, and others; `None` if that isn't known.
    pub fn around(&self, wire: WireId) -> Option<&[u32]>
        ensures { IfSome result (λ row. (m : ℕ) (r : Record) → Knows self.now m r → module_names wire.0 r ≡ true → is_in m row.now ≡ true) }
    {
        match self {
            WireKnowledge::Driven(_) => None,
            WireKnowledge::At(around) => around.at(wire),
        }
    }

    /// The modules that may drive a wire; `None` if each of them may.
    pub fn drivers_among(&self, wire: WireId) -> Option<&[u32]>
        ensures { IfSome result (λ row. (m : ℕ) (r : Record) → Knows self.now m r → is_in m row.now ≡ false → port_from 0 r.outputs wire.0 ≡ None) }
    {
        match self {
            WireKnowledge::Driven(driven) => {
                if may_be_driven(driven.as_slice(), wire) {
                    None
                } else {
                    Some(nobody())
                }
            }
            WireKnowledge::At(around) => around.at(wire),
        }
    }

    /// Adds a place for a wire, if the wire is the next one. No module may be at it.
    pub fn add_wire(&mut self, wire: WireId) -> Result<(), AllocError>
        ensures { (m : ℕ) (r : Record) → module_names wire.0 r ≡ false → Knows self.old m r → Knows self.new m r }
    {
        match self {
            WireKnowledge::Driven(driven) => add_mark(driven, wire),
            WireKnowledge::At(around) => add_row(around, wire),
        }
    }

    /// Notes the wires of a module.
    pub fn note(&mut self, number: u32, added: &ModuleRecord) -> Result<(), AllocError>
        ensures kept { (m : ℕ) (r : Record) → Knows self.old m r → Knows self.new m r }
        ensures noted { OnOk result (Knows self.new number added.now) }
    {
        match self {
            WireKnowledge::Driven(driven) => {
                note_outputs(driven, added.outputs.as_slice());
                Ok(())
            }
            WireKnowledge::At(around) => around.note(number, added),
        }
    }
}

/// No modules.
fn nobody<'a>() -> &'a [u32]
    ensures { result.now ≡ [] }
{
    &[]
}

/// Adds a mark for a wire, if the wire is the next one. It isn't marked.
fn add_mark(driven: &mut Vec<bool>, wire: WireId) -> Result<(), AllocError>
    ensures { (w : ℕ) → may_be_driven driven.new.items w ≡ false → (w ≡ wire.0) ⊎ (may_be_driven driven.old.items w ≡ false) }
{
    if driven.len() == wire.0 as usize {
        driven.push(false)?;
    }
    Ok(())
}

/// Adds a row for a wire, if the wire is the next one.
fn add_row(around: &mut Around, wire: WireId) -> Result<(), AllocError>
    ensures { (around.new ≡ around.old) ⊎ ((wire.0 ≡ length around.old) × (around.new ≡ around.old ++ [] ∷ [])) }
{
    if around.wires() == wire.0 as usize {
        around.add_wire()?;
    }
    Ok(())
}

/// Whether a wire is marked, or has no place for a mark.
fn may_be_driven(driven: &[bool], wire: WireId) -> bool
    ensures { result ≡ may_be_driven driven.now wire.0 }
{
    match driven.get(wire.0 as usize) {
        Some(mark) => *mark,
        None => true,
    }
}

/// Marks the wires of these outputs.
fn note_outputs(driven: &mut Vec<bool>, outputs: &[Output])
    ensures kept { (w : ℕ) → may_be_driven driven.new.items w ≡ false → may_be_driven driven.old.items w ≡ false }
    ensures noted { (w : ℕ) → may_be_driven driven.new.items w ≡ false → port_from 0 outputs.now w ≡ None }
{
    for p in 0..outputs.len() {
        note(driven, outputs[p].wire);
    }
}

/// Marks a wire.
fn note(driven: &mut Vec<bool>, wire: Option<WireId>)
    ensures kept { (w : ℕ) → may_be_driven driven.new.items w ≡ false → may_be_driven driven.old.items w ≡ false }
    ensures noted { (w : ℕ) → may_be_driven driven.new.items w ≡ false → is_wire wire w ≡ false }
{
    if let Some(named) = wire {
        if let Some(mark) = driven.get_mut(named.0 as usize) {
            *mark = true;
        }
    }
}
