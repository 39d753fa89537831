//! A part of a netlist.

ghost use Rattle.mp_partition.specs.regions.Regions.{HearsOthers};

use crate::regions::home::partition_of;
use mp_model::built;
use mp_modules::AnyModule;
use mp_netlist::{ModuleId, ModuleRecord, Netlist, WireId};
use std::marker::Model;

/// The modules of one partition of a netlist, with all wires and the marks of the inbound ones. Contracts see it as a netlist in which the levels of
/// inbound wires come from outside.
#[derive(Drop)]
pub struct Region<'a> {
    netlist: &'a Netlist,
    homes: &'a [u32],
    part: u32,
    heard: &'a [bool],
    ghost apart: { HearsOthers netlist.now homes.now part heard.now },
}

impl<'a> Model for Region<'a> {
    ghost use Rattle.mp_netlist.specs.Circuit.{Circuit};
    ghost use Rattle.mp_partition.specs.regions.Regions.{region};

    ghost Value = { Circuit };

    ghost view = { λ r. region r.netlist.now r.homes.now r.part r.heard.now };
}

impl<'a> Region<'a> {
    ghost use Rattle.std.specs.Prelude.{◌≡◌, ◌≤◌, length, IfSome, IsTrue, is_some};
    ghost use Rattle.std.specs.Option.{option_copied};
    ghost use Rattle.mp_netlist.specs.Limits.{max_horizon, max_wires, max_modules};
    ghost use Rattle.mp_netlist.specs.Circuit.{IsCircuit, IsModule, wire_at, module_at, module_width};
    ghost use Rattle.mp_modules.specs.Kinds.{are_params};
    ghost use Rattle.mp_modules.specs.storage.AnyModules.{is_width_of};
    ghost use Rattle.mp_model.specs.Levels.{initial_of, built};
    ghost use Rattle.mp_partition.specs.regions.Regions.{region, width_in, HearsOthers};

    pub fn new(netlist: &'a Netlist, homes: &'a [u32], part: u32, heard: &'a [bool]) -> Self
        requires { HearsOthers netlist.now homes.now part heard.now }
        ensures { result ≡ region netlist.now homes.now part heard.now }
    {
        Region {
            netlist,
            homes,
            part,
            heard,
        }
    }

    /// The whole netlist.
    pub fn whole(netlist: &'a Netlist) -> Self
        ensures { result ≡ netlist.now }
    {
        Region {
            netlist,
            homes: &[],
            part: 0,
            heard: &[],
        }
    }

    /// For how many units it runs.
    pub fn horizon(&self) -> u32
        ensures value { result ≡ self.now.horizon }
        ensures low { 1 ≤ result }
        ensures high { result ≤ max_horizon }
        ensures form { IsCircuit self.now }
    {
        self.netlist.horizon()
    }

    /// How many wires were ever added to the netlist.
    pub fn wire_slots(&self) -> u32
        ensures value { result ≡ length self.now.wires }
        ensures few { result ≤ max_wires }
    {
        self.netlist.wire_slots()
    }

    /// How many modules were ever added to the netlist.
    pub fn module_slots(&self) -> u32
        ensures value { result ≡ length self.now.modules }
        ensures few { result ≤ max_modules }
    {
        self.netlist.module_slots()
    }

    /// The level of a wire at time 0, 0 if it doesn't exist.
    pub fn initial_level(&self, id: WireId) -> u64
        ensures { result ≡ initial_of (wire_at self.now id.0) }
    {
        match self.netlist.wire(id) {
            Some(found) => found.initial,
            None => 0,
        }
    }

    /// Whether there is a wire of this number.
    pub fn has_wire(&self, id: WireId) -> bool
        ensures { result ≡ is_some (wire_at self.now id.0) }
    {
        match self.netlist.wire(id) {
            Some(_) => true,
            None => false,
        }
    }

    /// The width of the wire of this number, if it exists.
    pub fn wire_width(&self, id: WireId) -> Option<u32>
        ensures { result ≡ width_in (wire_at self.now id.0) }
    {
        match self.netlist.wire(id) {
            Some(found) => Some(found.width),
            None => None,
        }
    }

    /// The module of this number, if it exists and is at home here.
    pub fn module(&self, id: ModuleId) -> Option<&ModuleRecord>
        ensures value { option_copied result ≡ module_at self.now id.0 }
        ensures form { IfSome result (λ found. IsModule self.now found.now) }
    {
        if partition_of(self.homes, id.0) == self.part {
            self.netlist.module(id)
        } else {
            None
        }
    }

    /// The width of a module.
    pub fn module_width(&self, found: &ModuleRecord) -> u32
        ensures { result ≡ module_width self.now found.now }
    {
        self.netlist.module_width(found)
    }

    /// A module as its kind, parameters and width make it.
    pub fn built(&self, found: &ModuleRecord) -> AnyModule
        requires width { IsTrue (is_width_of found.now.kind (module_width self.now found.now)) }
        requires params { IsTrue (are_params found.now.kind (module_width self.now found.now) found.now.params) }
        ensures { result ≡ built self.now found.now }
    {
        built(self.netlist, found)
    }
}
