//! The inbound wires of a partition.
ghost use Rattle.std.specs.Prelude.{◌≡◌};
ghost use Rattle.mp_partition.specs.regions.Divisions.{heard_by};
ghost use Rattle.mp_partition.specs.runs.Marks.{is_marked};

use mp_netlist::WireId;
use std::alloc::{AllocError, Global};
use std::marker::Model;

/// A mark for each wire. The inbound wires are those that modules of other partitions drive and modules of this partition read.
#[derive(Drop)]
pub struct InboundWires {
    marks: Vec<bool>,
}

impl Model for InboundWires {
    ghost use Rattle.std.specs.Prelude.{Bool, List};

    ghost Value = { List Bool };

    ghost view = { λ heard. heard.marks.items };
}

impl InboundWires {
    ghost use Rattle.std.specs.Prelude.{◌≡◌};

    /// No inbound wires among this number of wires.
    pub fn none(alloc: Global, count: u32) -> Result<Self, AllocError> {
        let mut marks = Vec::new(alloc);
        for _w in 0..count {
            marks.push(false)?;
        }
        Ok(InboundWires { marks })
    }

    pub fn add(&mut self, wire: WireId) {
        if let Some(mark) = self.marks.get_mut(wire.0 as usize) {
            *mark = true;
        }
    }

    pub fn as_slice(&self) -> &[bool]
        ensures { result.now ≡ self.now }
    {
        self.marks.as_slice()
    }
}

pub fn is_heard(heard: &[bool], wire: WireId) -> bool
    ensures { result ≡ is_marked heard.now wire.0 }
{
    match heard.get(wire.0 as usize) {
        Some(mark) => *mark,
        None => false,
    }
}

/// The inbound wires of a partition; none if there is no list.
pub fn heard_by(heards: &[InboundWires], part: u32) -> &[bool]
    ensures { result.now ≡ heard_by heards.now part }
{
    match heards.get(part as usize) {
        Some(heard) => heard.as_slice(),
        None => &[],
    }
}
