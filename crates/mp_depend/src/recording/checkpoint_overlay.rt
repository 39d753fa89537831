//! A module's states that are kept after a change of its netlist, over those that the old run kept.
use mp_modules::Memory;
use mp_netlist::ModuleId;
use mp_partition::{Checkpoints, Run};
use std::alloc::{AllocError, Global};
use std::sync::Arc;

/// The source of a module's kept states: only the old run; or a list of its own up to a time, in units, and the old run from then on.
#[derive(Drop)]
pub(crate) enum CheckpointOverlay {
    Old,
    Own { kept: Checkpoints, until: u32 },
}

impl CheckpointOverlay {
    ghost use Rattle.std.specs.Prelude.{◌≡◌, ℕ, ◌+◌, ◌<◌, ◌≤◌, List, Option, nat_lt, if◌then◌else◌, IfOk, OnOk};
    ghost use Rattle.std.specs.Arc.{arc_value};
    ghost use Rattle.mp_netlist.specs.Slots.{slot_at};
    ghost use Rattle.mp_modules.specs.Memories.{blank};
    ghost use Rattle.mp_partition.specs.runs.Checkpoints.{kept_at};
    ghost use Rattle.mp_partition.specs.declared.runs.checkpoint.Checkpoint.{Checkpoint as State};
    ghost use Rattle.mp_depend.specs.recording.Keeping.{HasKept};
    ghost use Rattle.mp_depend.specs.recording.Overlays.{state_in, overlay_state, IsInOrder, IsOwn, KeepsTo};

    /// The states before the units of the times below an end as a list.
    pub(crate) fn into_list(
        self,
        alloc: Global,
        run: &Run,
        id: ModuleId,
        end: u32,
    ) -> Result<Checkpoints, AllocError>
        requires some { 0 < end }
        requires order { IsInOrder self }
        ensures { IfOk result (λ list. KeepsTo (overlay_state self (slot_at run.now.kept id.0)) end list) }
    {
        match self {
            CheckpointOverlay::Old => run_before(alloc, run, id, end),
            CheckpointOverlay::Own { kept, until } => {
                if until == end {
                    Ok(kept)
                } else if end < until {
                    list_before(alloc, &kept, end)
                } else {
                    run_after(kept, until, run, id, end)
                }
            }
        }
    }

    /// Begins states of its own: those for times below `time` stay, and from then on up to the end its own states can be kept. If memory runs out,
    /// the kept states are lost.
    pub(crate) fn take_over(
        &mut self,
        alloc: Global,
        run: &Run,
        id: ModuleId,
        from: u32,
        end: u32,
    ) -> Result<(), AllocError>
        requires some { 0 < from }
        requires order { IsInOrder self.old }
        ensures own { OnOk result (IsOwn self.new from end) }
        ensures before { OnOk result ((c : ℕ) → c < from → c < end → overlay_state self.new (slot_at run.now.kept id.0) c ≡ overlay_state self.old (slot_at run.now.kept id.0) c) }
    {
        let overlay = std::mem::replace(self, CheckpointOverlay::Old);
        let list = overlay.into_list(alloc, run, id, from)?;
        *self = CheckpointOverlay::Own {
            kept: list,
            until: end,
        };
        Ok(())
    }

    /// Hands back: from a time on the states are those of the old run.
    pub(crate) fn hand_back(&mut self, from: u32)
        requires { IsOwn self.old from from }
        ensures order { IsInOrder self.new }
        ensures states { (old : Option (List State)) (c : ℕ) → overlay_state self.new old c ≡ (if nat_lt c from then overlay_state self.old old c else state_in old c) }
    {
        if let CheckpointOverlay::Own { until, .. } = self {
            *until = from;
        }
    }

    /// From a time on this state, which can still be kept.
    pub(crate) fn keep(&mut self, time: u32, memory: Memory) -> Result<(), AllocError>
        requires { IsOwn self.old (time + 1) (time + 1) }
        ensures { OnOk result (HasKept time memory self.old self.new) }
    {
        match self {
            CheckpointOverlay::Old => Ok(()),
            CheckpointOverlay::Own { kept: list, .. } => list.keep_change(time, memory),
        }
    }

    /// The states before the units of the times below an end, those of the old run shared if they are these.
    pub(crate) fn into_shared(
        self,
        alloc: Global,
        run: &Run,
        id: ModuleId,
        end: u32,
    ) -> Result<Arc<Checkpoints, Global>, AllocError>
        requires some { 0 < end }
        requires order { IsInOrder self }
        ensures { IfOk result (λ shared. (c : ℕ) → c < end → kept_at (arc_value shared) c blank ≡ overlay_state self (slot_at run.now.kept id.0) c) }
    {
        match self {
            CheckpointOverlay::Old => shared(alloc, run, id),
            CheckpointOverlay::Own { kept, until } => {
                let overlay = CheckpointOverlay::Own { kept, until };
                let list = overlay.into_list(alloc, run, id, end)?;
                Ok(Arc::new(alloc, list)?)
            }
        }
    }
}

ghost use Rattle.std.specs.Prelude.{◌≡◌, ℕ, ◌<◌, ◌≤◌, nat_lt, if◌then◌else◌, IfOk};
ghost use Rattle.std.specs.Arc.{arc_value};
ghost use Rattle.mp_netlist.specs.Slots.{slot_at};
ghost use Rattle.mp_modules.specs.Memories.{blank};
ghost use Rattle.mp_partition.specs.runs.Checkpoints.{kept_at};
ghost use Rattle.mp_depend.specs.recording.Overlays.{state_in, AreTimesBefore, KeepsTo};

/// The states that a list keeps for times below an end.
fn list_before(alloc: Global, list: &Checkpoints, end: u32) -> Result<Checkpoints, AllocError>
    requires { 0 < end }
    ensures { IfOk result (λ found. KeepsTo (λ c. kept_at list.now c blank) end found) }
{
    let mut found = Checkpoints::new(alloc);
    found.follow(list, 0, end)?;
    Ok(found)
}

/// The states that a run kept for times below an end.
fn run_before(alloc: Global, run: &Run, id: ModuleId, end: u32) -> Result<Checkpoints, AllocError>
    requires { 0 < end }
    ensures { IfOk result (λ found. KeepsTo (state_in (slot_at run.now.kept id.0)) end found) }
{
    match run.checkpoints(id) {
        Some(list) => list_before(alloc, list, end),
        None => Ok(Checkpoints::new(alloc)),
    }
}

/// The states of a list for times below one, and from then on up to an end those that a run kept.
fn run_after(
    kept: Checkpoints,
    until: u32,
    run: &Run,
    id: ModuleId,
    end: u32,
) -> Result<Checkpoints, AllocError>
    requires times { AreTimesBefore until kept }
    requires less { until < end }
    ensures { IfOk result (λ found. KeepsTo (λ c. if nat_lt c until then kept_at kept c blank else state_in (slot_at run.now.kept id.0) c) end found) }
{
    let mut kept = kept;
    match run.checkpoints(id) {
        Some(list) => kept.follow(list, until, end)?,
        None => kept.keep(until, Memory::with_one_output(&[], 0))?,
    }
    Ok(kept)
}

/// The states that a run kept, shared and not copied, and none if it kept none.
fn shared(alloc: Global, run: &Run, id: ModuleId) -> Result<Arc<Checkpoints, Global>, AllocError>
    ensures { IfOk result (λ found. (c : ℕ) → kept_at (arc_value found) c blank ≡ state_in (slot_at run.now.kept id.0) c) }
{
    match run.shared_checkpoints(id)? {
        Some(list) => Ok(list),
        None => Ok(Arc::new(alloc, Checkpoints::new(alloc))?),
    }
}
