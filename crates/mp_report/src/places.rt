//! The places of a netlist, and what is found at each.
ghost use Rattle.std.specs.Prelude.{◌≡◌};
ghost use Rattle.mp_report.specs.Clauses.{IfOk, AreWavesOf, places, found_over};

use crate::bundles::found_at_bundle;
use crate::modules::found_at_module;
use mp_model::{Findings, Place, Waves};
use mp_netlist::{BundleId, ModuleId, Netlist};
use std::alloc::{AllocError, Global};

/// The modules by number, and then the bundles by number, removed ones among them.
#[tactic(auto, using(crate::proofs::TimeLemmas::places_steps))]
pub(crate) fn places(alloc: Global, netlist: &Netlist) -> Result<Vec<Place>, AllocError>
    ensures { IfOk result (λ list. list.items ≡ places netlist.now) }
{
    let mut list = Vec::new(alloc);
    for number in 0..netlist.module_slots() {
        list.push(Place::Module(ModuleId(number)))?;
    }
    for number in 0..netlist.bundle_slots() {
        list.push(Place::Bundle(BundleId(number)))?;
    }
    Ok(list)
}

/// What is found at a place, by time and then by the codes' numbers.
pub(crate) fn found_at_place(
    alloc: Global,
    netlist: &Netlist,
    waves: &Waves,
    place: Place,
) -> Result<Findings, AllocError>
    requires { AreWavesOf netlist.now waves.now }
    ensures { IfOk result (λ found. found ≡ found_over netlist.now place) }
{
    match place {
        Place::Module(id) => found_at_module(alloc, netlist, waves, id),
        Place::Bundle(id) => found_at_bundle(alloc, netlist, waves, id),
    }
}
