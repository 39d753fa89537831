//! What an evaluation gives.
ghost use Rattle.std.specs.Prelude.{◌≡◌};

use crate::runs::checkpoints::Checkpoints;
use crate::runs::states::States;
use mp_model::Waves;
use mp_modules::Memory;
use mp_netlist::{ModuleId, WireId, checkpoint_units};
use mp_wave::Wave;
use std::alloc::{AllocError, Global};
use std::marker::Model;
use std::sync::Arc;

/// The wave of each wire of a netlist up to its horizon, and states of its modules: the last ones, and those at checkpoints.
#[derive(Drop)]
pub struct Run {
    horizon: u32,
    waves: Waves,
    states: States,
}

impl Model for Run {
    ghost use Rattle.mp_partition.specs.runs.Outcomes.{Outcome};
    ghost use Rattle.mp_partition.specs.runs.KeptStates.{ends_of, kept_of};

    ghost Value = { Outcome };

    ghost view = { λ run. record { horizon = run.horizon; waves = run.waves; ends = ends_of run.states; kept = kept_of run.states } };
}

impl Run {
    ghost use Rattle.std.specs.Prelude.{◌≡◌, map, option_map, IfOk};
    ghost use Rattle.std.specs.Option.{option_copied};
    ghost use Rattle.std.specs.Arc.{arc_value};
    ghost use Rattle.mp_netlist.specs.Slots.{slot_at};
    ghost use Rattle.mp_records.specs.lists.Replaced.{AreApart};
    ghost use Rattle.mp_partition.specs.runs.Outcomes.{Outcome, wave_of, end_of, checkpoint_of};
    ghost use Rattle.mp_partition.specs.runs.Replacing.{HasReplaced};

    /// The run up to a horizon with these waves, last states and states at checkpoints.
    pub fn new(
        horizon: u32,
        waves: Waves,
        ends: Vec<Option<Memory>>,
        kept: Vec<Option<Arc<Checkpoints, Global>>>,
    ) -> Self
        ensures { result ≡ record { horizon = horizon; waves = waves; ends = ends.items; kept = map (option_map arc_value) kept.items } }
    {
        Run {
            horizon,
            waves,
            states: States::Whole { ends, kept },
        }
    }

    /// The wave of a wire that exists.
    pub fn wave(&self, wire: WireId) -> Option<&Wave>
        ensures { option_copied result ≡ wave_of self.now wire.0 }
    {
        self.waves.of(wire)
    }

    /// The wave of each wire that exists.
    pub fn waves(&self) -> &Waves
        ensures { result.now ≡ self.now.waves }
    {
        &self.waves
    }

    /// The state of a module that exists, after the last unit.
    pub fn end_memory(&self, id: ModuleId) -> Option<Memory>
        ensures { result ≡ end_of self.now id.0 }
    {
        self.states.end(id.0 as usize)
    }

    /// The states of a module that the run kept.
    pub fn checkpoints(&self, id: ModuleId) -> Option<&Checkpoints>
        ensures { option_copied result ≡ slot_at self.now.kept id.0 }
    {
        self.states.kept(id.0 as usize)
    }

    /// The states of a module that the run kept, shared and not copied.
    pub fn shared_checkpoints(
        &self,
        id: ModuleId,
    ) -> Result<Option<Arc<Checkpoints, Global>>, AllocError>
        ensures { IfOk result (λ kept. option_map arc_value kept ≡ slot_at self.now.kept id.0) }
    {
        self.states.share_kept(id.0 as usize)
    }

    /// The state of a module that exists before the unit of a checkpoint, which is a multiple of `checkpoint_units` below the horizon. The state
    /// before time 0 is the one in which the module starts. `None` for any other time.
    pub fn checkpoint(&self, id: ModuleId, time: u32) -> Option<Memory>
        ensures { result ≡ checkpoint_of self.now id.0 time }
    {
        if time >= self.horizon || !time.is_multiple_of(checkpoint_units(self.horizon)) {
            return None;
        }
        match self.states.kept(id.0 as usize) {
            Some(kept) => Some(kept.kept_at(time)),
            None => None,
        }
    }

    /// The same run, shared with this one.
    pub fn share(&self, alloc: Global) -> Result<Run, AllocError>
        ensures { IfOk result (λ run. run ≡ self.now) }
    {
        let waves = self.waves.share(alloc)?;
        match self.states.share(alloc) {
            Ok(states) => Ok(Run {
                horizon: self.horizon,
                waves,
                states,
            }),
            Err(error) => {
                drop(waves);
                Err(error)
            }
        }
    }

    /// This run, but with what the run of a part has of its wire `k` for the wire of number `wires[k]`, and of its module `k` for module `modules[k]`. All
    /// is shared with both runs.
    pub fn with_part(
        &self,
        alloc: Global,
        wires: &[u32],
        modules: &[u32],
        part: &Run,
    ) -> Result<Run, AllocError>
        requires wires { AreApart wires.now }
        requires modules { AreApart modules.now }
        ensures { IfOk result (HasReplaced self.now wires.now modules.now part.now) }
    {
        let waves = self.waves.with_part(alloc, wires, &part.waves)?;
        match self.states.with_part(alloc, modules, &part.states) {
            Ok(states) => Ok(Run {
                horizon: self.horizon,
                waves,
                states,
            }),
            Err(error) => {
                drop(waves);
                Err(error)
            }
        }
    }
}
