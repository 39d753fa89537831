//! Which modules are at a wire.
ghost use Rattle.std.specs.Prelude.{◌≡◌, true};
ghost use Rattle.mp_netlist.specs.Around.{is_in};

use mp_records::{Input, ModuleRecord, Output, Pieces, Row, WireId, push_to_row};
use std::alloc::{AllocError, Global};
use std::marker::Model;

/// For each wire the modules that are at it, and others that were. Contracts see a list of their numbers for each wire.
#[derive(Drop)]
pub struct Around {
    rows: Pieces<Row>,
}

impl Model for Around {
    ghost use Rattle.std.specs.Prelude.{List, ℕ};

    ghost Value = { List (List ℕ) };

    ghost view = { λ around. around.rows };
}

impl Around {
    ghost use Rattle.std.specs.Prelude.{◌≡◌, ◌==◌, ◌<◌, ◌+◌, ◌++◌, ◌∷◌, [], ℕ, true, false, None, OnOk, OnErr, IfOk, length};
    ghost use Rattle.std.specs.List.{slice_get, list_any};
    ghost use Rattle.std.specs.Option.{option_copied};
    ghost use Rattle.mp_records.specs.declared.ports.Input.{Input as InputPort};
    ghost use Rattle.mp_records.specs.declared.ports.Output.{Output as OutputPort};
    ghost use Rattle.mp_records.specs.NamedWires.{is_wire, module_names};
    ghost use Rattle.mp_netlist.specs.Around.{HasGrown, is_in, row_at};

    /// With so many wires, and no modules.
    pub fn of_wires(alloc: Global, wires: usize) -> Result<Around, AllocError> {
        let mut around = Around {
            rows: Pieces::new(alloc),
        };
        for _place in 0..wires {
            around.add_wire()?;
        }
        Ok(around)
    }

    /// How many wires there are.
    pub fn wires(&self) -> usize
        ensures { result ≡ length self.now }
    {
        self.rows.len()
    }

    /// One more wire, with no modules.
    pub fn add_wire(&mut self) -> Result<(), AllocError>
        ensures ok { OnOk result (self.new ≡ self.old ++ [] ∷ []) }
        ensures err { OnErr result (self.new ≡ self.old) }
    {
        self.rows.push(Row::new(self.rows.allocator()))
    }

    /// The modules that are at a wire and others, if there is such a wire.
    pub fn at(&self, wire: WireId) -> Option<&[u32]>
        ensures { option_copied result ≡ slice_get self.now wire.0 }
    {
        match self.rows.get(wire.0 as usize) {
            Some(row) => Some(row.as_slice()),
            None => None,
        }
    }

    /// Notes that a module is at the wires of its ports.
    pub fn note(&mut self, number: u32, added: &ModuleRecord) -> Result<(), AllocError>
        ensures grown { HasGrown self.old self.new }
        ensures noted { OnOk result ((w : ℕ) → w < length self.old → module_names w added.now ≡ true → is_in number (row_at self.new w) ≡ true) }
    {
        self.note_inputs(number, added.inputs.as_slice())?;
        self.note_outputs(number, added.outputs.as_slice())
    }

    /// Notes that a module is at the wires of these inputs.
    fn note_inputs(&mut self, number: u32, inputs: &[Input]) -> Result<(), AllocError>
        ensures grown { HasGrown self.old self.new }
        ensures noted { OnOk result ((w : ℕ) → w < length self.old → list_any (λ (i : InputPort). i.wire.0 == w) inputs.now ≡ true → is_in number (row_at self.new w) ≡ true) }
    {
        for p in 0..inputs.len() {
            self.note_at(number, inputs[p].wire)?;
        }
        Ok(())
    }

    /// Notes that a module is at the wires of these outputs.
    fn note_outputs(&mut self, number: u32, outputs: &[Output]) -> Result<(), AllocError>
        ensures grown { HasGrown self.old self.new }
        ensures noted { OnOk result ((w : ℕ) → w < length self.old → list_any (λ (o : OutputPort). is_wire o.wire w) outputs.now ≡ true → is_in number (row_at self.new w) ≡ true) }
    {
        for p in 0..outputs.len() {
            self.note_named(number, outputs[p].wire)?;
        }
        Ok(())
    }

    /// Notes that a module is at a wire, if there is one.
    fn note_named(&mut self, number: u32, wire: Option<WireId>) -> Result<(), AllocError>
        ensures grown { HasGrown self.old self.new }
        ensures noted { OnOk result ((w : ℕ) → w < length self.old → is_wire wire w ≡ true → is_in number (row_at self.new w) ≡ true) }
    {
        match wire {
            Some(wire) => self.note_at(number, wire),
            None => Ok(()),
        }
    }

    /// Notes that a module is at a wire.
    fn note_at(&mut self, number: u32, wire: WireId) -> Result<(), AllocError>
        ensures grown { HasGrown self.old self.new }
        ensures noted { OnOk result (wire.0 < length self.old → is_in number (row_at self.new wire.0) ≡ true) }
    {
        if self.lacks(number, wire) {
            push_to_row(&mut self.rows, wire.0 as usize, number)
        } else {
            Ok(())
        }
    }

    /// Whether there is such a wire, and the module isn't found at it.
    fn lacks(&self, number: u32, wire: WireId) -> bool
        ensures yes { result ≡ true → wire.0 < length self.now }
        ensures no { result ≡ false → wire.0 < length self.now → is_in number (row_at self.now wire.0) ≡ true }
    {
        match self.rows.get(wire.0 as usize) {
            Some(row) => !has_module(row.as_slice(), number),
            None => false,
        }
    }

    /// The same once more.
    pub fn copy(&self) -> Result<Around, AllocError>
        ensures { IfOk result (λ copy. copy ≡ self.now) }
    {
        Ok(Around {
            rows: self.rows.copy()?,
        })
    }
}

/// Whether a module is found in a row. Rows mostly rise, so a module with a greater number than the last isn't looked for.
fn has_module(row: &[u32], number: u32) -> bool
    ensures { result ≡ true → is_in number row.now ≡ true }
{
    match row.last() {
        Some(last) if *last < number => false,
        _ => row.contains(&number),
    }
}
