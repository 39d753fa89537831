//! A netlist in which little happens.
ghost use Rattle.std.specs.Prelude.{IfOk, IfSome, OnOk};
ghost use Rattle.mp_partition.specs.runs.Runs.{IsRun};
ghost use Rattle.mp_phase.specs.Allowed.{IsOpen};
ghost use Rattle.mp_engine.specs.ActivityProbes.{IsLookedAt};

use crate::activity_probe::{ActivityProbe, LookPlan, Rate};
use crate::evaluation::{run_of, run_to_end};
use crate::region_runs::RegionRun;
use mp_netlist::Netlist;
use mp_partition::{Region, Run};
use mp_phase::Gate;
use std::alloc::{AllocError, Global};
use std::sync::Wait;

/// It is looked at when a 128th of the time is over, and up to a quarter.
const PLAN: LookPlan = LookPlan {
    first: 128,
    sure: 6,
    most: 6,
};

/// Runs a netlist on one thread. `None` comes if the run is given up, since at one of the early samples at least this number of modules had fired per
/// window since the sample before.
pub(crate) fn run_quiet<R: Wait, G: Gate>(
    rt: &R,
    alloc: Global,
    netlist: &Netlist,
    gate: &G,
    delay: u32,
    least: u32,
) -> Result<Option<Run>, AllocError>
    requires open { IsOpen (G.may gate.now) }
    ensures { IfOk result (λ found. IfSome found (IsRun netlist.now)) }
{
    let horizon = netlist.horizon();
    let region = Region::whole(netlist);
    let mut run = RegionRun::begin(rt, alloc, netlist, &region, gate, true)?;
    let mut looks = ActivityProbe::new(PLAN);
    let pace = Rate {
        count: least as usize,
        units: delay,
    };
    let Ok(()) = look_at(&mut run, rt, &region, gate, &mut looks, pace) else {
        drop(run);
        return Err(AllocError);
    };
    if looks.see(pace) {
        drop(run);
        return Ok(None);
    }
    let run = run_to_end(rt, alloc, &region, gate, run, looks.to)?;
    Ok(Some(run_of(horizon, run)))
}

/// Looks at a run until its modules fire as often as this since the look before, or no more looks are to be taken.
fn look_at<R: Wait, G: Gate>(
    run: &mut RegionRun,
    rt: &R,
    region: &Region<'_>,
    gate: &G,
    looks: &mut ActivityProbe,
    pace: Rate,
) -> Result<(), AllocError>
    requires open { IsOpen (G.may gate.now) }
    requires before { IsLookedAt region.now looks.old.to run.old }
    ensures { OnOk result (IsLookedAt region.now looks.new.to run.new) }
{
    let horizon = region.horizon();
    for _look in 0..PLAN.most {
        let Some(to) = looks.next(horizon, pace) else {
            break;
        };
        let fired = run.run_units(rt, region, gate, looks.to, to)?;
        looks.add(to, fired);
    }
    Ok(())
}
