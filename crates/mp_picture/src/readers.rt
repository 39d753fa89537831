//! The readers of wires.
ghost use Rattle.std.specs.Prelude.{◌≡◌, ◌<◌, ◌^◌, [], OnOk, IfOk, length, replicate};
ghost use Rattle.std.specs.List.{enumerate_from};
ghost use Rattle.mp_netlist.specs.Circuit.{module_at};
ghost use Rattle.mp_netlist.specs.Readers.{ports_at, readers_in};
ghost use Rattle.mp_picture.specs.ReaderRows.{HasMore, port_at};

use mp_netlist::{Input, ModuleId, Netlist, WireId};
use std::alloc::{AllocError, Global};
use std::marker::Model;

/// The modules and input ports that read each wire of a netlist. Contracts see a list of them for each wire, by module, then port.
#[derive(Drop)]
pub(crate) struct Readers {
    rows: Vec<PortRow>,
}

impl Model for Readers {
    ghost use Rattle.std.specs.Prelude.{ℕ, List};
    ghost use Rattle.mp_records.specs.declared.ids.ModuleId.{ModuleId as Id};

    ghost Value = { List (List (Id × ℕ)) };

    ghost view = { λ readers. readers.rows.items };
}

/// Input ports in a row. Contracts see their list.
#[derive(Drop)]
struct PortRow {
    ports: Vec<(ModuleId, u32)>,
}

impl Model for PortRow {
    ghost use Rattle.std.specs.Prelude.{ℕ, List};
    ghost use Rattle.mp_records.specs.declared.ids.ModuleId.{ModuleId as Id};

    ghost Value = { List (Id × ℕ) };

    ghost view = { λ row. row.ports.items };
}

impl PortRow {
    ghost use Rattle.std.specs.Prelude.{◌≡◌, ◌++◌, ◌∷◌, [], OnOk};

    /// No ports.
    fn new(alloc: Global) -> PortRow
        ensures { result ≡ [] }
    {
        PortRow {
            ports: Vec::new(alloc),
        }
    }

    /// Adds a port at the end.
    fn push(&mut self, id: ModuleId, port: u32) -> Result<(), AllocError>
        ensures { OnOk result (self.new ≡ self.old ++ (id, port) ∷ []) }
    {
        self.ports.push((id, port))?;
        Ok(())
    }
}

impl Readers {
    ghost use Rattle.std.specs.Prelude.{◌≡◌, IfOk};
    ghost use Rattle.mp_picture.specs.ReaderRows.{AreReaders, row_at};

    /// The readers of the wires of a netlist, found in one pass over the modules.
    pub(crate) fn of(alloc: Global, netlist: &Netlist) -> Result<Readers, AllocError>
        ensures { IfOk result (λ readers. AreReaders netlist.now readers) }
    {
        let mut rows = empty_rows(alloc, netlist.wire_slots())?;
        for m in 0..netlist.module_slots() {
            push_module(&mut rows, netlist, ModuleId(m))?;
        }
        Ok(Readers { rows })
    }

    /// The readers of the wire of this number; none if there is no such wire.
    pub(crate) fn at(&self, wire: WireId) -> &[(ModuleId, u32)]
        ensures { result.now ≡ row_at self.now wire.0 }
    {
        match self.rows.get(wire.0 as usize) {
            Some(row) => row.ports.as_slice(),
            None => &[],
        }
    }
}

/// So many rows without ports.
fn empty_rows(alloc: Global, count: u32) -> Result<Vec<PortRow>, AllocError>
    ensures { IfOk result (λ rows. rows.items ≡ replicate count []) }
{
    let mut rows = Vec::with_capacity(alloc, count as usize)?;
    for _row in 0..count {
        rows.push(PortRow::new(alloc))?;
    }
    Ok(rows)
}

/// Adds the input ports of a module, if it exists, to the rows of the wires that they read.
fn push_module(rows: &mut Vec<PortRow>, netlist: &Netlist, id: ModuleId) -> Result<(), AllocError>
    ensures { OnOk result (HasMore rows.old.items rows.new.items (λ w. readers_in w (id.0, module_at netlist.now id.0))) }
{
    match netlist.module(id) {
        Some(found) => push_inputs(rows, id, found.inputs.as_slice()),
        None => Ok(()),
    }
}

/// Adds the input ports of a module to the rows of the wires that they read.
fn push_inputs(rows: &mut Vec<PortRow>, id: ModuleId, inputs: &[Input]) -> Result<(), AllocError>
    requires { length inputs.now < 2 ^ 32 }
    ensures { OnOk result (HasMore rows.old.items rows.new.items (λ w. ports_at w id.0 (enumerate_from 0 inputs.now))) }
{
    for (port, &input) in inputs.iter().enumerate() {
        push_port(rows, id, port as u32, input)?;
    }
    Ok(())
}

/// Adds an input port of a module to the row of the wire that it reads, if there is one.
fn push_port(
    rows: &mut Vec<PortRow>,
    id: ModuleId,
    port: u32,
    input: Input,
) -> Result<(), AllocError>
    ensures { OnOk result (HasMore rows.old.items rows.new.items (λ w. port_at w id.0 (port, input))) }
{
    let place = input.wire.0 as usize;
    if place >= rows.len() {
        return Ok(());
    }
    rows[place].push(id, port)?;
    Ok(())
}
