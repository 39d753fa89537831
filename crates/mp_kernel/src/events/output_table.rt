//! The outputs of all modules of width 1.

use crate::events::output_port::OutputPort;
use crate::events::output_ports::OutputPorts;
use crate::events::packed_port::PackedPort;
use std::alloc::{AllocError, Global};
use std::marker::Model;

/// The second and the third output of a module.
#[derive(Drop)]
pub(crate) struct OtherPorts {
    second: PackedPort,
    third: PackedPort,
}

/// The outputs of all modules of width 1, by their places. Contracts see a list. The first outputs are kept apart: most modules that fire toggle no
/// other output, so in a large netlist less has to be fetched from memory.
#[derive(Drop)]
pub struct OutputTable {
    firsts: Vec<PackedPort>,
    others: Vec<OtherPorts>,
}

impl Model for OutputTable {
    ghost use Rattle.std.specs.Prelude.{◌≡◌, List, length};
    ghost use Rattle.mp_kernel.specs.declared.events.output_ports.OutputPorts.{OutputPorts};
    ghost use Rattle.mp_kernel.specs.events.OutputTables.{ports_by};

    ghost Value = { List OutputPorts };

    ghost view = { λ table. ports_by table.firsts.items table.others.items };

    ghost invariant = { λ table. length table.firsts.items ≡ length table.others.items };
}

impl OutputTable {
    ghost use Rattle.std.specs.Prelude.{◌≡◌, ◌<◌, IfOk, length};
    ghost use Rattle.mp_kernel.specs.events.Firing.{ports_at};

    /// The table of these outputs, by the places of their modules.
    pub fn from_ports(alloc: Global, ports: &[OutputPorts]) -> Result<OutputTable, AllocError>
        ensures { IfOk result (λ table. table ≡ ports.now) }
    {
        let mut firsts = Vec::with_capacity(alloc, ports.len())?;
        let mut others = Vec::with_capacity(alloc, ports.len())?;
        for each in ports {
            firsts.push(PackedPort::of(each.first))?;
            others.push(OtherPorts {
                second: PackedPort::of(each.second),
                third: PackedPort::of(each.third),
            })?;
        }
        Ok(OutputTable { firsts, others })
    }

    /// The number of modules.
    #[inline(always)]
    pub(crate) fn len(&self) -> usize
        ensures { result ≡ length self.now }
    {
        self.firsts.len()
    }

    /// The first output of the module at a place.
    #[inline(always)]
    pub(crate) fn first(&self, place: usize) -> OutputPort
        requires { place < length self.now }
        ensures { result ≡ (ports_at self.now place).first }
    {
        self.firsts[place].port()
    }

    /// The second output of the module at a place.
    #[inline(always)]
    pub(crate) fn second(&self, place: usize) -> OutputPort
        requires { place < length self.now }
        ensures { result ≡ (ports_at self.now place).second }
    {
        self.others[place].second.port()
    }

    /// The third output of the module at a place.
    #[inline(always)]
    pub(crate) fn third(&self, place: usize) -> OutputPort
        requires { place < length self.now }
        ensures { result ≡ (ports_at self.now place).third }
    {
        self.others[place].third.port()
    }
}
