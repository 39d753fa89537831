//! Netlists in which enough happens early for several threads.
ghost use Rattle.std.specs.Prelude.{◌≡◌, IfOk, IfSome, OnOk};
ghost use Rattle.mp_partition.specs.regions.Divisions.{IsCrossing, IsDivision};
ghost use Rattle.mp_simulation.specs.run.WavesRuns.{IsWavesRun};

use crate::{ActivityProbe, LookPlan, Rate};
use mp_netlist::Netlist;
use mp_partition::{Division, divide};
use mp_phase::Crew;
use mp_simulation::WavesRun;
use std::alloc::{AllocError, Global};

/// A netlist of more modules isn't shared, since each part takes memory for all.
const MOST_MODULES: u32 = 65_536;

/// A run of more units isn't shared, since one thread passes over a time in which nothing happens.
const MOST_UNITS: u32 = 1_048_576;

/// Samples are taken from a 256th of the time on up to a 64th, or up to an eighth if wires change more and more often.
const PLAN: LookPlan = LookPlan {
    first: 256,
    sure: 3,
    most: 6,
};

/// Partitions without inbound wires must have the least work in this number of units.
const SPAN: u32 = 64;

/// If partitions have inbound wires, the netlist must have this many times the modules of the least work. With fewer, waiting costs more than is
/// gained.
const SHARES: u32 = 6;

/// Whether a netlist is large enough for several threads, and no larger than they run it.
pub(crate) fn can_pay(netlist: &Netlist, crew: &Crew) -> bool {
    let modules = netlist.module_slots();
    let units = netlist.horizon();
    crew.count() > 1
        && modules.min(units) >= crew.least()
        && modules <= MOST_MODULES
        && units <= MOST_UNITS
}

/// A probe of a run after time 0, without samples so far.
pub(crate) fn first_looks() -> ActivityProbe
    ensures { result.to ≡ 1 }
{
    ActivityProbe::new(PLAN)
}

/// A division of a netlist in which enough happens early, by looks at its run: each wire is to change a quarter as often, on average, as there are
/// modules in the least work that is shared out, and that much work is to be done in each window, or more if there are fewer than four threads, which
/// gain less.
pub(crate) fn busy_division(
    alloc: Global,
    netlist: &Netlist,
    crew: &Crew,
    run: &mut WavesRun,
    looks: &mut ActivityProbe,
) -> Result<Option<Division>, AllocError>
    requires { IsWavesRun netlist.now looks.old.to run.old }
    ensures run { OnOk result (IsWavesRun netlist.now looks.new.to run.new) }
    ensures division { IfOk result (λ found. IfSome found (λ division. IsDivision netlist.now division.homes.items division.wires.items division.heard.items division.parts)) }
    ensures crossing { IfOk result (λ found. IfSome found (λ division. IsCrossing netlist.now division.heard.items division.delay)) }
{
    let horizon = netlist.horizon();
    let least = crew.least() as usize;
    let all = Rate {
        count: (netlist.module_slots() as usize).saturating_mul(least / 4),
        units: horizon,
    };
    look_at(netlist, run, looks, all)?;
    if !looks.see(all) {
        return Ok(None);
    }
    let Some(division) = divide(alloc, netlist, crew.count(), crew.least())? else {
        return Ok(None);
    };
    if !has_room(netlist, crew, &division) {
        return Ok(None);
    }
    let window = Rate {
        count: least.saturating_mul(4) / crew.count().min(4).max(1) as usize,
        units: window_of(&division),
    };
    look_at(netlist, run, looks, window)?;
    if looks.see(window) {
        Ok(Some(division))
    } else {
        Ok(None)
    }
}

/// Whether the parts of a netlist are large enough to wait for each other, if they do.
fn has_room(netlist: &Netlist, crew: &Crew, division: &Division) -> bool {
    division.heard.is_empty() || netlist.module_slots() >= crew.least().saturating_mul(SHARES)
}

/// Looks at a run until its wires change as often as this since the look before, or no more looks are to be taken.
fn look_at(
    netlist: &Netlist,
    run: &mut WavesRun,
    looks: &mut ActivityProbe,
    pace: Rate,
) -> Result<(), AllocError>
    requires { IsWavesRun netlist.now looks.old.to run.old }
    ensures { OnOk result (IsWavesRun netlist.now looks.new.to run.new) }
{
    let horizon = netlist.horizon();
    let mut changes = run.count_changes();
    for _look in 0..PLAN.most {
        let Some(to) = looks.next(horizon, pace) else {
            break;
        };
        run.run_units(netlist, looks.to, to)?;
        let before = changes;
        changes = run.count_changes();
        looks.add(to, changes.saturating_sub(before));
    }
    Ok(())
}

/// The number of units that partitions run before they wait for each other, or a substitute for it if they don't wait.
fn window_of(division: &Division) -> u32 {
    if division.heard.is_empty() {
        SPAN
    } else {
        division.delay
    }
}
