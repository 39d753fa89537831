//! The netlist: its records in slots, and the tables of their names.
mod apply;
mod batches;
mod check;
mod check_ports;
mod checked;
mod copies;
mod delays;
mod drivers;
mod names;
mod new_ports;
mod ports;
mod uses;
mod widths;

use crate::format::Format;
use crate::module_table::ModuleTable;
use crate::new_error::NewError;
use crate::table::Table;
use mp_records::{BundleId, BundleRecord, ModuleId, ModuleRecord, WireId, WireRecord};
use std::alloc::Global;
use std::hash::RandomState;
use std::marker::Model;

/// The longest delay of a port, in units.
pub const MAX_DELAY: u64 = 65535;

/// The longest setup of a bundle, in units.
pub const MAX_SETUP: u64 = 65535;

/// The greatest number of edits of a batch.
pub const MAX_BATCH: usize = 256;

/// Wires, modules and bundles by number, with a horizon and a format that limits how many there may be. Names are hashed by keys that a netlist is
/// given when it is made, and its copies have them.
#[derive(Drop)]
pub struct Netlist {
    format: Format,
    horizon: u32,
    wires: Table<WireRecord>,
    modules: ModuleTable,
    bundles: Table<BundleRecord>,
}

impl Model for Netlist {
    ghost use Rattle.mp_netlist.specs.Circuit.{Circuit};

    ghost Value = { Circuit };

    ghost use Rattle.mp_netlist.specs.Records.{circuit_of, AreRecords};

    ghost view = { circuit_of };

    ghost invariant = { AreRecords };
}

impl Netlist {
    ghost use Rattle.std.specs.Prelude.{◌≡◌, ◌≤◌, ◌<◌, length, option_map, IfSome, IfOk, IfErr, IsOk, ◌↔◌};
    ghost use Rattle.std.specs.Option.{option_copied};
    ghost use Rattle.mp_netlist.specs.declared.new_error.NewError.TheVariants.{BadHorizon};
    ghost use Rattle.mp_netlist.specs.Limits.{max_horizon, max_wires, max_modules, max_bundles, horizon_limit};
    ghost use Rattle.mp_netlist.specs.Circuit.{IsCircuit, IsWire, IsModule, IsBundle, empty_circuit, wire_at, module_at, bundle_at, wire_named, module_named, bundle_named};

    /// An empty netlist of this format and horizon. Whoever reads names that others chose takes the keys from the runtime, by `RandomState::new`:
    /// then nobody can choose names that have one hash. `BadHorizon` comes exactly if the horizon isn't 1 to the longest of the format.
    pub fn empty(
        alloc: Global,
        keys: RandomState,
        format: Format,
        horizon: u64,
    ) -> Result<Netlist, NewError>
        ensures ok { IfOk result (λ netlist. netlist ≡ empty_circuit format horizon) }
        ensures allowed { IsOk result ↔ ((1 ≤ horizon) × (horizon ≤ horizon_limit format)) }
        ensures refused { IfErr result (λ error. error ≡ BadHorizon) }
    {
        Netlist::with_room(alloc, keys, format, horizon, 0)
    }

    /// An empty netlist, as `empty` returns it. It has room for this number of wires and as many modules, if there is memory for it.
    pub fn with_room(
        alloc: Global,
        keys: RandomState,
        format: Format,
        horizon: u64,
        room: usize,
    ) -> Result<Netlist, NewError>
        ensures ok { IfOk result (λ netlist. netlist ≡ empty_circuit format horizon) }
        ensures allowed { IsOk result ↔ ((1 ≤ horizon) × (horizon ≤ horizon_limit format)) }
        ensures refused { IfErr result (λ error. error ≡ BadHorizon) }
    {
        if horizon == 0 || horizon > format.max_horizon() {
            return Err(NewError::BadHorizon);
        }
        Ok(Netlist {
            format,
            horizon: horizon as u32,
            wires: Table::with_room(alloc, keys, room),
            modules: ModuleTable::with_room(alloc, keys, room),
            bundles: Table::new(alloc, keys),
        })
    }

    /// The keys by which names are hashed, for another netlist of the same run.
    pub fn keys(&self) -> RandomState {
        self.bundles.keys()
    }

    /// The format, which limits how large it may get.
    pub fn format(&self) -> Format
        ensures { result ≡ self.now.format }
    {
        self.format
    }

    /// The horizon, in units: times are from 0 to one below it.
    pub fn horizon(&self) -> u32
        ensures value { result ≡ self.now.horizon }
        ensures low { 1 ≤ result }
        ensures high { result ≤ max_horizon }
        ensures form { IsCircuit self.now }
    {
        self.horizon
    }

    /// The number of wires that were ever added. Their numbers are below it.
    pub fn wire_slots(&self) -> u32
        ensures value { result ≡ length self.now.wires }
        ensures few { result ≤ max_wires }
    {
        self.wires.len() as u32
    }

    /// The number of modules that were ever added. Their numbers are below it.
    pub fn module_slots(&self) -> u32
        ensures value { result ≡ length self.now.modules }
        ensures few { result ≤ max_modules }
    {
        self.modules.len() as u32
    }

    /// The number of bundles that were ever added. Their numbers are below it.
    pub fn bundle_slots(&self) -> u32
        ensures value { result ≡ length self.now.bundles }
        ensures few { result ≤ max_bundles }
    {
        self.bundles.len() as u32
    }

    /// The wire of this number, if it exists.
    pub fn wire(&self, id: WireId) -> Option<&WireRecord>
        ensures value { option_copied result ≡ wire_at self.now id.0 }
        ensures form { IfSome result (λ found. IsWire self.now.horizon found.now) }
    {
        self.wires.get(id.0)
    }

    /// The module of this number, if it exists.
    pub fn module(&self, id: ModuleId) -> Option<&ModuleRecord>
        ensures value { option_copied result ≡ module_at self.now id.0 }
        ensures form { IfSome result (λ found. IsModule self.now found.now) }
    {
        self.modules.get(id.0)
    }

    /// The bundle of this number, if it exists.
    pub fn bundle(&self, id: BundleId) -> Option<&BundleRecord>
        ensures value { option_copied result ≡ bundle_at self.now id.0 }
        ensures form { IfSome result (λ found. IsBundle self.now found.now) }
    {
        self.bundles.get(id.0)
    }

    /// The number of the wire that has this name.
    pub fn wire_named(&self, name: &str) -> Option<WireId>
        ensures { option_map (λ id. id.0) result ≡ wire_named self.now name.now }
    {
        match self.wires.number_spelled(name) {
            Some(number) => Some(WireId(number)),
            None => None,
        }
    }

    /// The number of the module that has this name.
    pub fn module_named(&self, name: &str) -> Option<ModuleId>
        ensures { option_map (λ id. id.0) result ≡ module_named self.now name.now }
    {
        match self.modules.number_spelled(name) {
            Some(number) => Some(ModuleId(number)),
            None => None,
        }
    }

    /// The number of the bundle that has this name.
    pub fn bundle_named(&self, name: &str) -> Option<BundleId>
        ensures { option_map (λ id. id.0) result ≡ bundle_named self.now name.now }
    {
        match self.bundles.number_spelled(name) {
            Some(number) => Some(BundleId(number)),
            None => None,
        }
    }
}
