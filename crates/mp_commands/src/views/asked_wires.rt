//! The wires that are asked for by name.
ghost use Rattle.std.specs.Prelude.{◌≡◌, [], ◌∷◌, IfOk, OnOk, is_none, option_map};
ghost use Rattle.std.specs.List.{list_any};
ghost use Rattle.mp_netlist.specs.Circuit.{wire_named};
ghost use Rattle.mp_commands.specs.views.AskedWires.{is_wire, with_wire, missing_at, all_wires, named_wires, wires_of};

use mp_netlist::{Name, Netlist, WireId};
use std::alloc::{AllocError, Global};

/// The place, counted from 0, of the first of the names that no wire has; `None` if a wire has each of them.
pub fn missing_at(netlist: &Netlist, names: &[Name]) -> Option<usize>
    ensures { result ≡ missing_at netlist.now names.now }
{
    names
        .iter()
        .position(|name| is_missing(netlist, name.as_str()))
}

/// The place 0 if no wire has the name, and otherwise `None`.
pub fn missing_wire(netlist: &Netlist, name: &Name) -> Option<usize>
    ensures { result ≡ missing_at netlist.now (name.now ∷ []) }
{
    if is_missing(netlist, name.as_str()) {
        return Some(0);
    }
    None
}

fn is_missing(netlist: &Netlist, name: &str) -> bool
    ensures { result ≡ is_none (wire_named netlist.now name.now) }
{
    netlist.wire_named(name).is_none()
}

/// The wires of these names, each once, in order, without names that no wire has. Without names: all numbers of wires, also those whose wire is gone.
/// The error comes if memory runs out.
pub fn wires_of(alloc: Global, netlist: &Netlist, names: &[Name]) -> Result<Vec<WireId>, AllocError>
    ensures { IfOk result (λ wires. wires.items ≡ wires_of netlist.now names.now) }
{
    if names.is_empty() {
        return all_wires(alloc, netlist.wire_slots());
    }
    named_wires(alloc, netlist, names)
}

fn all_wires(alloc: Global, slots: u32) -> Result<Vec<WireId>, AllocError>
    ensures { IfOk result (λ wires. wires.items ≡ all_wires slots) }
{
    let mut wires = Vec::with_capacity(alloc, slots as usize)?;
    for number in 0..slots {
        wires.push(WireId(number))?;
    }
    Ok(wires)
}

fn named_wires(alloc: Global, netlist: &Netlist, names: &[Name]) -> Result<Vec<WireId>, AllocError>
    ensures { IfOk result (λ wires. wires.items ≡ named_wires netlist.now names.now) }
{
    let mut wires = Vec::new(alloc);
    for name in names {
        add_wire(&mut wires, netlist.wire_named(name.as_str()))?;
    }
    Ok(wires)
}

/// Puts the wire, if there is one, behind the others, unless it is one of them.
fn add_wire(wires: &mut Vec<WireId>, wire: Option<WireId>) -> Result<(), AllocError>
    ensures { OnOk result (wires.new.items ≡ with_wire wires.old.items (option_map (λ id. id.0) wire)) }
{
    let Some(wire) = wire else {
        return Ok(());
    };
    if has_wire(wires.as_slice(), wire) {
        return Ok(());
    }
    wires.push(wire)?;
    Ok(())
}

fn has_wire(wires: &[WireId], wire: WireId) -> bool
    ensures { result ≡ list_any (is_wire wire) wires.now }
{
    wires.iter().any(|other| wire.0 == other.0)
}
