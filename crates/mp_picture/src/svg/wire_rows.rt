//! The rows of wires.
ghost use Rattle.std.specs.Prelude.{◌<◌, ◌^◌, IfOk, length};
ghost use Rattle.mp_picture.specs.svg.WireRows.{AreFirstRows};

use mp_netlist::WireId;
use std::alloc::{AllocError, Global};
use std::collections::BTreeMap;
use std::marker::Model;

/// The wires of a picture, a row each, and the number of each wire's first row. Contracts see the list of the wires.
#[derive(Drop)]
pub(crate) struct WireRows {
    wires: Vec<WireId>,
    firsts: BTreeMap<u32, u32>,
}

impl Model for WireRows {
    ghost use Rattle.std.specs.Prelude.{List};
    ghost use Rattle.mp_records.specs.declared.ids.WireId.{WireId as Id};
    ghost use Rattle.mp_picture.specs.svg.WireRows.{HaveFirstRows};

    ghost Value = { List Id };

    ghost view = { λ rows. rows.wires.items };

    ghost invariant = { λ rows. HaveFirstRows rows.wires.items rows.firsts };
}

impl WireRows {
    ghost use Rattle.std.specs.Prelude.{◌≡◌, ◌<◌, ◌^◌, IfOk, length};
    ghost use Rattle.mp_picture.specs.svg.FoundGroups.{wire_among};

    /// A row for each of these wires, in their order.
    pub(crate) fn new(alloc: Global, wires: &[WireId]) -> Result<WireRows, AllocError>
        requires { length wires.now < 2 ^ 32 }
        ensures { IfOk result (λ rows. rows ≡ wires.now) }
    {
        let firsts = first_rows(alloc, wires)?;
        let wires = Vec::from_slice(alloc, wires)?;
        Ok(WireRows { wires, firsts })
    }

    /// How many rows there are.
    pub(crate) fn len(&self) -> u32
        ensures { result ≡ length self.now }
    {
        self.wires.len() as u32
    }

    /// How many rows stand before that of a wire; as many as there are if it has none.
    pub(crate) fn row_of(&self, wire: WireId) -> u32
        ensures { result ≡ wire_among self.now wire }
    {
        match self.firsts.get(&wire.0) {
            Some(row) => *row,
            None => self.len(),
        }
    }
}

/// The number of each wire's first row.
fn first_rows(alloc: Global, wires: &[WireId]) -> Result<BTreeMap<u32, u32>, AllocError>
    requires { length wires.now < 2 ^ 32 }
    ensures { IfOk result (λ firsts. AreFirstRows wires.now firsts) }
{
    let mut firsts = BTreeMap::new(alloc);
    // Of two rows of a wire the first one is noted later.
    let mut left = wires.len();
    while left > 0 {
        left -= 1;
        firsts.insert(wires[left].0, left as u32)?;
    }
    Ok(firsts)
}
