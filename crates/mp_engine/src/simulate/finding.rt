//! The waves of a netlist.
ghost use Rattle.std.specs.Prelude.{IfOk};
ghost use Rattle.mp_model.specs.Waves.{AreWavesOf};
ghost use Rattle.mp_simulation.specs.run.WavesRuns.{IsWavesRun};

use crate::progress::{Progress, stretch_of};
use crate::share_waves;
use crate::simulate::busy::{busy_division, can_pay, first_looks};
use mp_model::Waves;
use mp_netlist::Netlist;
use mp_phase::Crew;
use mp_simulation::WavesRun;
use std::alloc::{AllocError, Global};
use std::sync::Wait;
use std::thread::Threads;

/// The wave of each wire of a netlist up to its horizon. If much happens early, the crew's threads make them, each for a part of the netlist. If the
/// memory for that is refused, the calling thread makes them. The run writes how far it is if that is asked for.
pub fn find_waves<R: Threads + Wait + Sync>(
    rt: &R,
    alloc: Global,
    netlist: &Netlist,
    crew: &Crew,
    progress: Option<&Progress>,
) -> Result<Waves, AllocError>
    ensures { IfOk result (AreWavesOf netlist.now) }
{
    if !can_pay(netlist, crew) {
        return find_here(alloc, netlist, progress);
    }
    let mut run = WavesRun::begin(alloc, netlist)?;
    let mut looks = first_looks();
    let Some(division) = busy_division(alloc, netlist, crew, &mut run, &mut looks)? else {
        return finished(alloc, netlist, run, looks.to, progress);
    };
    drop(run);
    let shared = share_waves(rt, alloc, netlist, &division, progress);
    drop(division);
    match shared {
        Ok(Some(waves)) => Ok(waves),
        Ok(None) | Err(_) => find_here(alloc, netlist, progress),
    }
}

/// The wave of each wire of a netlist up to its horizon, made on the calling thread.
fn find_here(
    alloc: Global,
    netlist: &Netlist,
    progress: Option<&Progress>,
) -> Result<Waves, AllocError>
    ensures { IfOk result (AreWavesOf netlist.now) }
{
    let run = WavesRun::begin(alloc, netlist)?;
    finished(alloc, netlist, run, 1, progress)
}

/// Finishes a run from this time on, and returns its waves.
fn finished(
    alloc: Global,
    netlist: &Netlist,
    run: WavesRun,
    from: u32,
    progress: Option<&Progress>,
) -> Result<Waves, AllocError>
    requires { IsWavesRun netlist.now from run }
    ensures { IfOk result (AreWavesOf netlist.now) }
{
    let horizon = netlist.horizon();
    let stretch = stretch_of(progress, netlist);
    let mut run = run;
    let mut from = from;
    while from < horizon {
        let to = from.saturating_add(stretch).min(horizon);
        let Ok(()) = run.run_units(netlist, from, to) else {
            drop(run);
            return Err(AllocError);
        };
        if let Some(progress) = progress {
            progress.write_line(alloc, u64::from(to), horizon, run.count_changes() as u64);
        }
        from = to;
    }
    Ok(Waves::in_place(run.finish(alloc, netlist)?))
}
