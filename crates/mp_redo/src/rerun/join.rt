//! A module that becomes active within a block, as a task, and the state in which it does.

ghost use Rattle.std.specs.Prelude.{◌<◌, ◌≤◌, vec_len};
ghost use Rattle.mp_modules.specs.declared.memory.TheConstants.{MOST_INPUTS};

use mp_depend::{WorkEntry, enter, old_state};
use mp_model::{InPiece, respond};
use mp_modules::{AnyModule, MOST_INPUTS, Memory};
use mp_netlist::ModuleId;
use mp_partition::Run;
use mp_phase::{Gate, Work};
use std::alloc::{AllocError, Global};
use std::sync::Wait;

/// What a module does from one time to before another, from its state before the first, if its input ports have these pieces. Its first entry of work
/// lasts to the end of a window, for which it passes the gate.
#[derive(Drop)]
pub(crate) struct Join {
    pub module: ModuleId,
    pub part: AnyModule,
    pub memory: Memory,
    pub inputs: Vec<InPiece>,
    pub from: u32,
    pub to: u32,
    pub window_end: u32,
    pub ghost span: { from < to },
    pub ghost ports: { vec_len inputs ≤ MOST_INPUTS },
}

/// The state in which a module becomes active, and its entry of the work. The module has passed the gate for the entry, and has come to the state from
/// the entry's beginning on. Only `work` of its task and `of_kept` make such a state, whose contracts say so: the entry is private to this file.
#[derive(Drop)]
pub(crate) struct JoiningState {
    entry: WorkEntry,
    pub memory: Memory,
}

impl Work for Join {
    ghost use Rattle.mp_model.specs.response.Pieces.{levels_at};
    ghost use Rattle.mp_redo.specs.rerun.Joins.{HasCome, IsOnly};

    type Done = JoiningState;

    ghost gives = { λ join state. HasCome join.«module» join.part (levels_at join.inputs.items) join.memory join.from join.to join.window_end state.entry state.memory };

    ghost enters = { λ join. IsOnly join.«module».0 join.from join.window_end };

    ghost passes = { λ join. IsOnly join.«module».0 join.from join.window_end };

    fn work<R: Wait, G: Gate>(
        self,
        rt: &R,
        alloc: Global,
        gate: &G,
    ) -> Result<JoiningState, AllocError> {
        gate.enter(rt, self.module, self.from, self.window_end);
        let piece = respond(
            alloc,
            &self.part,
            self.memory,
            self.inputs.as_slice(),
            self.from,
            self.to,
        )?;
        Ok(JoiningState {
            entry: WorkEntry {
                module: self.module,
                from: self.from,
                to: self.window_end,
            },
            memory: piece.memory,
        })
    }
}

impl JoiningState {
    ghost use Rattle.std.specs.Prelude.{◌≡◌, true};
    ghost use Rattle.mp_netlist.specs.Circuit.{Circuit};
    ghost use Rattle.mp_netlist.specs.Slots.{slot_at};
    ghost use Rattle.mp_phase.specs.Allowed.{IsAllowed};
    ghost use Rattle.mp_depend.specs.recording.Overlays.{state_in};
    ghost use Rattle.mp_depend.specs.work.Work.{IsEntry};

    /// The state that the old run kept for the beginning of an entry of the work. The module of the entry passes the gate, which allows it to.
    pub(crate) fn of_kept<R: Wait, G: Gate>(rt: &R, gate: &G, run: &Run, entry: WorkEntry) -> Self
        requires { (old : Circuit) × (new : Circuit) × IsAllowed (IsEntry old new) (G.may gate.now) × IsEntry old new entry.«module».0 entry.from entry.to }
        ensures passed { G.passed gate.now entry.«module».0 entry.from entry.to ≡ true }
        ensures entry { result.entry ≡ entry }
        ensures memory { result.memory ≡ state_in (slot_at run.now.kept entry.«module».0) entry.from }
    {
        enter(rt, gate, entry);
        JoiningState {
            entry,
            memory: old_state(run, entry.module, entry.from),
        }
    }
}
