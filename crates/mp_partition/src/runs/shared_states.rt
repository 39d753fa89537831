//! States of modules that lists share.
ghost use Rattle.std.specs.Prelude.{◌≡◌, option_map, IfOk};
ghost use Rattle.std.specs.Arc.{arc_value};

use crate::runs::checkpoints::Checkpoints;
use mp_modules::Memory;
use mp_records::Kept;
use std::alloc::{AllocError, Global};
use std::marker::Model;
use std::sync::Arc;

/// The last state of a module, if there is one. Contracts see the state.
#[derive(Drop)]
pub(crate) struct LastState {
    memory: Option<Memory>,
}

impl Model for LastState {
    ghost use Rattle.std.specs.Prelude.{Option};
    ghost use Rattle.mp_modules.specs.declared.memory.Memory.{Memory};

    ghost Value = { Option Memory };

    ghost view = { λ last. last.memory };
}

impl Clone for LastState {
    ghost is_clone = { λ old new. new ≡ old };

    /// The same state.
    fn clone(&self) -> Result<Self, AllocError> {
        Ok(LastState {
            memory: self.memory,
        })
    }
}

impl Kept for LastState {
    ghost clones_equal = { λ old new same. same };
}

impl LastState {
    ghost use Rattle.std.specs.Prelude.{◌≡◌, None};

    /// This state.
    pub(crate) fn of(memory: Option<Memory>) -> LastState
        ensures { result ≡ memory }
    {
        LastState { memory }
    }

    /// No state.
    pub(crate) fn none() -> LastState
        ensures { result ≡ None }
    {
        LastState { memory: None }
    }

    /// The state, if there is one.
    pub(crate) fn get(&self) -> Option<Memory>
        ensures { result ≡ self.now }
    {
        self.memory
    }
}

/// The states of a module at checkpoints, if there are any. Contracts see their list.
#[derive(Drop)]
pub(crate) struct SharedCheckpoints {
    states: Option<Arc<Checkpoints, Global>>,
}

impl Model for SharedCheckpoints {
    ghost use Rattle.std.specs.Prelude.{Option, List, option_map};
    ghost use Rattle.std.specs.Arc.{arc_value};
    ghost use Rattle.mp_partition.specs.declared.runs.checkpoint.Checkpoint.{Checkpoint};

    ghost Value = { Option (List Checkpoint) };

    ghost view = { λ shared. option_map arc_value shared.states };
}

impl Clone for SharedCheckpoints {
    ghost is_clone = { λ old new. new ≡ old };

    /// The same states, shared once more.
    fn clone(&self) -> Result<Self, AllocError> {
        Ok(SharedCheckpoints {
            states: shared(&self.states)?,
        })
    }
}

impl Kept for SharedCheckpoints {
    ghost clones_equal = { λ old new same. same };
}

impl SharedCheckpoints {
    ghost use Rattle.std.specs.Prelude.{◌≡◌, None, option_map, IfOk};
    ghost use Rattle.std.specs.Option.{option_copied};
    ghost use Rattle.std.specs.Arc.{arc_value};

    /// These states.
    pub(crate) fn of(states: Option<Arc<Checkpoints, Global>>) -> SharedCheckpoints
        ensures { result ≡ option_map arc_value states }
    {
        SharedCheckpoints { states }
    }

    /// No states.
    pub(crate) fn none() -> SharedCheckpoints
        ensures { result ≡ None }
    {
        SharedCheckpoints { states: None }
    }

    /// The states, if there are any.
    pub(crate) fn get(&self) -> Option<&Checkpoints>
        ensures { option_copied result ≡ self.now }
    {
        match &self.states {
            Some(states) => Some(states),
            None => None,
        }
    }

    /// The states, if there are any, to be shared.
    pub(crate) fn share(&self) -> Result<Option<Arc<Checkpoints, Global>>, AllocError>
        ensures { IfOk result (λ states. option_map arc_value states ≡ self.now) }
    {
        shared(&self.states)
    }
}

/// The states of a module, shared once more.
pub(crate) fn shared(
    states: &Option<Arc<Checkpoints, Global>>,
) -> Result<Option<Arc<Checkpoints, Global>>, AllocError>
    ensures { IfOk result (λ shared. option_map arc_value shared ≡ option_map arc_value states.now) }
{
    match states {
        Some(states) => Ok(Some(Arc::try_clone(states)?)),
        None => Ok(None),
    }
}
