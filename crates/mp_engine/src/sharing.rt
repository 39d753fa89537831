//! The waves of a netlist, by several threads.
ghost use Rattle.std.specs.Prelude.{IfOk, IfSome};
ghost use Rattle.mp_model.specs.Waves.{AreWavesOf};
ghost use Rattle.mp_partition.specs.regions.Divisions.{IsCrossing, IsDivision};

use crate::part_of::Divided;
use crate::progress::Progress;
use crate::together::run_together;
use mp_model::Waves;
use mp_netlist::Netlist;
use mp_partition::{Division, merged_waves};
use mp_phase::OpenGate;
use std::alloc::{AllocError, Global};
use std::sync::Wait;
use std::thread::Threads;

/// The wave of each wire of a netlist that is divided, up to its horizon, made by a thread for each part, which write how far they are. Nothing, if a
/// thread can't be started, or a part gave up though memory was refused to none.
pub fn share_waves<R: Threads + Wait + Sync>(
    rt: &R,
    alloc: Global,
    netlist: &Netlist,
    division: &Division,
    progress: Option<&Progress>,
) -> Result<Option<Waves>, AllocError>
    requires division { IsDivision netlist.now division.now.homes.items division.now.wires.items division.now.heard.items division.now.parts }
    requires crossing { IsCrossing netlist.now division.now.heard.items division.now.delay }
    ensures { IfOk result (λ found. IfSome found (AreWavesOf netlist.now)) }
{
    let _horizon = netlist.horizon();
    let divided = Divided {
        netlist,
        division,
        keeps: false,
        progress,
    };
    match run_together(rt, alloc, &OpenGate, divided)? {
        Some(runs) => Ok(Some(merged_waves(alloc, netlist, division, runs.as_slice())?)),
        None => Ok(None),
    }
}
