//! A change at time 0: the touched modules are active.
ghost use Rattle.std.specs.Prelude.{◌≡◌, ℕ, ◌<◌, IfOk, length};
ghost use Rattle.mp_active.specs.compare.Comparing.{delay_of, wire_of};
ghost use Rattle.mp_active.specs.compare.Numbering.{AreNumbered, AreNumbersOf};
ghost use Rattle.mp_redo.specs.rerun.Reruns.{IsChange};
ghost use Rattle.mp_redo.specs.rerun.Starting.{IsFirstRun};

use crate::rerun::first_activity::{first_activity, touched_marks};
use crate::rerun::first_simulation::{First, first_simulation};
use crate::rerun::rerun::Rerun;
use mp_active::compare::laws::reads_are_listed;
use mp_active::{Change, Comparison, Numbers, SetWires, changed_stimuli};
use mp_depend::{RerunRecorder, window_end};
use mp_modules::MOST_INPUTS;
use mp_netlist::Netlist;
use mp_simulation::{HeardChanges, NetlistSimulation, WiredInputs, Wiring};
use std::alloc::{AllocError, Global};

impl Rerun {
    ghost use Rattle.std.specs.Prelude.{IfOk};
    ghost use Rattle.mp_redo.specs.rerun.Reruns.{IsChange};
    ghost use Rattle.mp_redo.specs.rerun.Starting.{IsFirstRun};
    ghost use Rattle.mp_redo.specs.rerun.Windows.{AreTouched, IsBegun};

    /// The re-evaluation of a change after time 0: touched modules are active, and all others sleep.
    pub(crate) fn begin(alloc: Global, change: &Change<'_>) -> Result<Rerun, AllocError>
        requires { IsChange change.now }
        ensures { IfOk result (IsBegun change.now.old.now change.now.new.now change.now.run.now) }
    {
        let touches = touched_marks(alloc, change)?;
        let first = first_run(alloc, change, touches.as_slice())?;
        Rerun::begin_with(alloc, change, touches, first)
    }

    /// The re-evaluation with this first run, in which the touched modules are active, which are marked.
    fn begin_with(
        alloc: Global,
        change: &Change<'_>,
        touches: Vec<bool>,
        first: FirstRun,
    ) -> Result<Rerun, AllocError>
        requires change { IsChange change.now }
        requires touched { AreTouched change.now.old.now change.now.new.now touches.items }
        requires first { IsFirstRun change.now.old.now change.now.new.now change.now.run.now touches.items first }
        ensures { IfOk result (IsBegun change.now.old.now change.now.new.now change.now.run.now) }
    {
        reads_are_listed();
        let sources = first.comparison.sources.as_slice();
        let Ok(stimuli) = changed_stimuli(alloc, change.new, sources) else {
            drop(first);
            return Err(AllocError);
        };
        let places = first.simulation.modules.places.as_slice();
        let Ok(activity) = first_activity(alloc, touches, places) else {
            drop(first);
            return Err(AllocError);
        };
        let Ok(recorder) = RerunRecorder::first(alloc, change.new, activity.active.as_slice())
        else {
            drop(first);
            drop(activity);
            return Err(AllocError);
        };
        let FirstRun {
            simulation,
            comparison,
            inputs,
        } = first;
        Ok(Rerun {
            simulation,
            comparison,
            inputs,
            stimuli,
            pending_outputs: HeardChanges {
                list: Vec::new(alloc),
                place: 0,
            },
            activity,
            recorder,
            set: SetWires {
                bits: Vec::new(alloc),
                levels: Vec::new(alloc),
            },
            window_end: window_end(change.least, change.new.horizon(), 0),
            look_at: 0,
        })
    }
}

/// A simulation at time 0, compared with the old run, and the numbers that each module's inputs read, by port.
#[derive(Drop)]
pub(crate) struct FirstRun {
    pub simulation: NetlistSimulation,
    pub comparison: Comparison,
    pub inputs: Vec<[Option<u32>; MOST_INPUTS]>,
}

/// The simulation of a change at time 0, in which the marked modules are active, compared with the old run.
fn first_run(alloc: Global, change: &Change<'_>, active: &[bool]) -> Result<FirstRun, AllocError>
    requires { IsChange change.now }
    ensures { IfOk result (IsFirstRun change.now.old.now change.now.new.now change.now.run.now active.now) }
{
    let First { simulation, wired } = first_simulation(alloc, change.new, active)?;
    let WiredInputs { wiring, inputs } = wired;
    let Ok(numbers) = numbers_of(alloc, change.new, wiring) else {
        drop(simulation);
        return Err(AllocError);
    };
    let Ok(comparison) = Comparison::first(alloc, change, numbers, inputs.as_slice(), active) else {
        drop(simulation);
        return Err(AllocError);
    };
    Ok(FirstRun {
        simulation,
        comparison,
        inputs,
    })
}

/// The numbers of a netlist, which are wired so.
fn numbers_of(alloc: Global, netlist: &Netlist, wiring: Wiring) -> Result<Numbers, AllocError>
    requires { (source : ℕ → ℕ × ℕ) × AreNumbered (length netlist.now.wires) source wiring.wires.items wiring.next.items }
    ensures wires { IfOk result (λ numbers. numbers.wires ≡ wiring.wires) }
    ensures sources { IfOk result (λ numbers. (source : ℕ → ℕ × ℕ) → AreNumbered (length netlist.now.wires) source wiring.wires.items wiring.next.items →
        (x : ℕ) → x < length wiring.next.items → source x ≡ (wire_of numbers x, delay_of numbers x)) }
    ensures are { IfOk result (AreNumbersOf netlist.now) }
{
    let Wiring { wires, next, .. } = wiring;
    Numbers::of(alloc, netlist, wires, next)
}
