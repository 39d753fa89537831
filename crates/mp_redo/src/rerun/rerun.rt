//! A netlist that is evaluated again after a change.

use crate::rerun::activity::Activity;
use mp_active::{Comparison, SetWires};
use mp_depend::RerunRecorder;
use mp_modules::MOST_INPUTS;
use mp_simulation::{HeardChanges, NetlistSimulation};

/// The simulation of the new netlist, in which the modules that aren't active sleep; what is compared with the old run; the numbers that each
/// module's inputs read, by port; what changed stimuli set; the tails of wires: the changes to come which modules decided before they fell
/// asleep; which modules are active; what is kept on the way; what is set in the present unit; where the present window ends; and from when on
/// it is worth looking ahead.
#[derive(Drop)]
pub(crate) struct Rerun {
    pub simulation: NetlistSimulation,
    pub comparison: Comparison,
    pub inputs: Vec<[Option<u32>; MOST_INPUTS]>,
    pub stimuli: HeardChanges,
    pub pending_outputs: HeardChanges,
    pub activity: Activity,
    pub recorder: RerunRecorder,
    pub set: SetWires,
    pub window_end: u32,
    pub look_at: u32,
}
