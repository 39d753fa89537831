//! The states that a run has of its modules.
ghost use Rattle.std.specs.Prelude.{◌≡◌, None, map, option_map, IfOk};
ghost use Rattle.std.specs.Option.{option_copied};
ghost use Rattle.std.specs.Arc.{arc_value};
ghost use Rattle.mp_records.specs.lists.Replaced.{AreApart, AreReplaced};
ghost use Rattle.mp_netlist.specs.Slots.{slot_at};
ghost use Rattle.mp_partition.specs.runs.KeptStates.{ends_of, kept_of};

use crate::runs::checkpoints::Checkpoints;
use crate::runs::shared_states::{LastState, SharedCheckpoints, shared};
use mp_modules::Memory;
use mp_records::Pieces;
use std::alloc::{AllocError, Global};
use std::sync::Arc;

/// For each module number the last state of the module and its states at checkpoints, if there is one.
#[derive(Drop)]
pub(crate) enum States {
    /// No other run has these lists.
    Whole {
        ends: Vec<Option<Memory>>,
        kept: Vec<Option<Arc<Checkpoints, Global>>>,
    },
    /// Copies of the lists share their pieces until one of them writes there.
    Pieces {
        ends: Pieces<LastState>,
        kept: Pieces<SharedCheckpoints>,
    },
}

impl States {
    /// The last state of a module.
    pub(crate) fn end(&self, place: usize) -> Option<Memory>
        ensures { result ≡ slot_at (ends_of self.now) place }
    {
        match self {
            States::Whole { ends, .. } => match ends.get(place) {
                Some(Some(memory)) => Some(*memory),
                _ => None,
            },
            States::Pieces { ends, .. } => end_in(ends, place),
        }
    }

    /// The states of a module at checkpoints.
    pub(crate) fn kept(&self, place: usize) -> Option<&Checkpoints>
        ensures { option_copied result ≡ slot_at (kept_of self.now) place }
    {
        match self {
            States::Whole { kept, .. } => match kept.get(place) {
                Some(Some(states)) => Some(states),
                _ => None,
            },
            States::Pieces { kept, .. } => kept_in(kept, place),
        }
    }

    /// The states of a module at checkpoints, to be shared.
    pub(crate) fn share_kept(
        &self,
        place: usize,
    ) -> Result<Option<Arc<Checkpoints, Global>>, AllocError>
        ensures { IfOk result (λ kept. option_map arc_value kept ≡ slot_at (kept_of self.now) place) }
    {
        match self {
            States::Whole { kept, .. } => match kept.get(place) {
                Some(Some(states)) => Ok(Some(Arc::try_clone(states)?)),
                _ => Ok(None),
            },
            States::Pieces { kept, .. } => share_in(kept, place),
        }
    }

    /// The last states of all modules, to be shared.
    pub(crate) fn share_ends(&self, alloc: Global) -> Result<Pieces<LastState>, AllocError>
        ensures { IfOk result (λ ends. ends ≡ ends_of self.now) }
    {
        match self {
            States::Whole { ends, .. } => ends_in_pieces(alloc, ends.as_slice()),
            States::Pieces { ends, .. } => ends.copy(),
        }
    }

    /// The states of all modules at checkpoints, to be shared.
    pub(crate) fn share_all_kept(
        &self,
        alloc: Global,
    ) -> Result<Pieces<SharedCheckpoints>, AllocError>
        ensures { IfOk result (λ kept. kept ≡ kept_of self.now) }
    {
        match self {
            States::Whole { kept, .. } => kept_in_pieces(alloc, kept.as_slice()),
            States::Pieces { kept, .. } => kept.copy(),
        }
    }

    /// Last states like these, but with state `k` of others for module `modules[k]`.
    fn ends_with(
        &self,
        alloc: Global,
        modules: &[u32],
        others: &States,
    ) -> Result<Pieces<LastState>, AllocError>
        requires { AreApart modules.now }
        ensures { IfOk result (AreReplaced None (ends_of self.now) modules.now (ends_of others.now)) }
    {
        let mut ends = self.share_ends(alloc)?;
        let found = others.share_ends(alloc)?;
        ends.replace(modules, &found, &LastState::none())?;
        Ok(ends)
    }

    /// States at checkpoints like these, but with those of module `k` of others for module `modules[k]`.
    fn kept_with(
        &self,
        alloc: Global,
        modules: &[u32],
        others: &States,
    ) -> Result<Pieces<SharedCheckpoints>, AllocError>
        requires { AreApart modules.now }
        ensures { IfOk result (AreReplaced None (kept_of self.now) modules.now (kept_of others.now)) }
    {
        let mut kept = self.share_all_kept(alloc)?;
        let found = others.share_all_kept(alloc)?;
        kept.replace(modules, &found, &SharedCheckpoints::none())?;
        Ok(kept)
    }

    /// These states, but with those of module `k` of a part for module `modules[k]`.
    pub(crate) fn with_part(
        &self,
        alloc: Global,
        modules: &[u32],
        part: &States,
    ) -> Result<States, AllocError>
        requires { AreApart modules.now }
        ensures ends { IfOk result (λ states. AreReplaced None (ends_of self.now) modules.now (ends_of part.now) (ends_of states)) }
        ensures kept { IfOk result (λ states. AreReplaced None (kept_of self.now) modules.now (kept_of part.now) (kept_of states)) }
    {
        let ends = self.ends_with(alloc, modules, part)?;
        match self.kept_with(alloc, modules, part) {
            Ok(kept) => Ok(States::Pieces { ends, kept }),
            Err(error) => {
                drop(ends);
                Err(error)
            }
        }
    }

    /// The same states, shared.
    pub(crate) fn share(&self, alloc: Global) -> Result<States, AllocError>
        ensures ends { IfOk result (λ states. ends_of states ≡ ends_of self.now) }
        ensures kept { IfOk result (λ states. kept_of states ≡ kept_of self.now) }
    {
        let ends = self.share_ends(alloc)?;
        match self.share_all_kept(alloc) {
            Ok(kept) => Ok(States::Pieces { ends, kept }),
            Err(error) => {
                drop(ends);
                Err(error)
            }
        }
    }
}

fn end_in(ends: &Pieces<LastState>, place: usize) -> Option<Memory>
    ensures { result ≡ slot_at ends.now place }
{
    match ends.get(place) {
        Some(end) => end.get(),
        None => None,
    }
}

fn kept_in(kept: &Pieces<SharedCheckpoints>, place: usize) -> Option<&Checkpoints>
    ensures { option_copied result ≡ slot_at kept.now place }
{
    match kept.get(place) {
        Some(found) => found.get(),
        None => None,
    }
}

fn share_in(
    kept: &Pieces<SharedCheckpoints>,
    place: usize,
) -> Result<Option<Arc<Checkpoints, Global>>, AllocError>
    ensures { IfOk result (λ states. option_map arc_value states ≡ slot_at kept.now place) }
{
    match kept.get(place) {
        Some(found) => found.share(),
        None => Ok(None),
    }
}

fn ends_in_pieces(alloc: Global, ends: &[Option<Memory>]) -> Result<Pieces<LastState>, AllocError>
    ensures { IfOk result (λ list. list ≡ ends.now) }
{
    let mut list = Pieces::new(alloc);
    for end in ends {
        list.push(LastState::of(*end))?;
    }
    Ok(list)
}

fn kept_in_pieces(
    alloc: Global,
    kept: &[Option<Arc<Checkpoints, Global>>],
) -> Result<Pieces<SharedCheckpoints>, AllocError>
    ensures { IfOk result (λ list. list ≡ map (option_map arc_value) kept.now) }
{
    let mut list = Pieces::new(alloc);
    for states in kept {
        list.push(SharedCheckpoints::of(shared(states)?))?;
    }
    Ok(list)
}
