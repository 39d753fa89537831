//! What changed stimuli set.
ghost use Rattle.std.specs.Prelude.{◌≡◌, ◌++◌, ◌∷◌, [], IfOk, OnOk, if◌then◌else◌};
ghost use Rattle.mp_simulation.specs.run.Stimuli.{left_of};
ghost use Rattle.mp_active.specs.compare.ChangedStimuli.{until_in, is_new_in, AreSetAnew};

use crate::compare::wire_source::WireSource;
use mp_kernel::NEVER;
use mp_netlist::Netlist;
use mp_simulation::{HeardChanges, Stimuli, StimulusChange};
use std::alloc::{AllocError, Global};

/// The changes, all still to come, by stimuli of wires whose levels come only from the new run.
pub fn changed_stimuli(
    alloc: Global,
    netlist: &Netlist,
    sources: &[WireSource],
) -> Result<HeardChanges, AllocError>
    ensures { IfOk result (λ stimuli. AreSetAnew netlist.now (until_in sources.now) 0 (left_of stimuli)) }
{
    // Its contract says that the netlist is well formed.
    let _horizon = netlist.horizon();
    let all = Stimuli::of(alloc, netlist)?;
    let mut list = Vec::new(alloc);
    for place in all.place..all.list.len() {
        add_changed(&mut list, all.list[place], sources)?;
    }
    Ok(HeardChanges { list, place: 0 })
}

/// Adds a change of a wire whose levels come only from the new run.
fn add_changed(
    list: &mut Vec<StimulusChange>,
    change: StimulusChange,
    sources: &[WireSource],
) -> Result<(), AllocError>
    ensures { OnOk result (list.new.items ≡ list.old.items ++ (if is_new_in sources.now change.wire then change ∷ [] else [])) }
{
    if !is_new(sources, change.wire) {
        return Ok(());
    }
    list.push(change)?;
    Ok(())
}

fn is_new(sources: &[WireSource], wire: u32) -> bool
    ensures { result ≡ is_new_in sources.now wire }
{
    match sources.get(wire as usize) {
        Some(source) => source.until == NEVER,
        None => false,
    }
}
