//! A netlist that is edited, and its present version.

use crate::opening_version::{first_run, opening_version};
use crate::prepared::Prepared;
use crate::versions::versions_of;
use mp_depend::Work;
use mp_depend::work::laws::edits_revise;
use mp_near::redo_edit;
use mp_netlist::{Edit, EditError, Netlist};
use mp_partition::Run;
use mp_phase::{Crew, Gate};
use mp_redo::RerunContext;
use mp_version::{MAX_EDITS, Version};
use std::alloc::{AllocError, Global};
use std::marker::Model;
use std::sync::{Arc, Wait};
use std::thread::Threads;

/// A netlist and the edits that were accepted on it: its present version with its run, a crew, and the gate that modules pass, which any module may
/// enter. The first run is computed on the threads of the crew. An edit's run is computed from the run before it, by the crew if it reaches much in
/// parts that no wire connects.
#[derive(Drop)]
pub struct Session<G: Gate> {
    alloc: Global,
    crew: Crew,
    gate: G,
    version: Arc<Version, Global>,
    run: Run,
    last_work: Work,
}

impl<G: Gate> Model for Session<G> {
    ghost use Rattle.std.specs.Arc.{arc_value};
    ghost use Rattle.mp_session.specs.Sessions.{Standing};

    ghost Value = { Standing };

    ghost use Rattle.mp_partition.specs.runs.Runs.{IsRun};
    ghost use Rattle.mp_version.specs.Stories.{present};
    ghost use Rattle.mp_phase.specs.Allowed.{IsOpen};
    ghost use Rattle.mp_session.specs.LastWork.{IsLastWork};

    ghost view = { λ session. record { story = arc_value session.version; last_work = session.last_work } };

    ghost invariant = { λ session. IsRun (present (arc_value session.version)) session.run
        × IsLastWork (arc_value session.version) session.last_work
        × IsOpen (G.may session.gate) };
}

impl<G: Gate> Session<G> {
    ghost use Rattle.std.specs.Prelude.{◌≡◌, ◌<◌, ◌≤◌, Ok, IfOk, IfErr, OnOk, OnErr, length};
    ghost use Rattle.std.specs.Arc.{arc_value};
    ghost use Rattle.mp_netlist.specs.Edits.{RefusedBy, after};
    ghost use Rattle.mp_partition.specs.runs.Runs.{IsRun};
    ghost use Rattle.mp_version.specs.Limits.{max_edits};
    ghost use Rattle.mp_version.specs.Stories.{present, judged, one_more};
    ghost use Rattle.mp_depend.specs.work.Work.{IsWork};
    ghost use Rattle.mp_phase.specs.Allowed.{IsOpen};
    ghost use Rattle.mp_session.specs.LastWork.{IsLastWork};
    ghost use Rattle.mp_session.specs.Sessions.{opened};

    /// A session on a copy of this netlist, with no edits. It may wait, as an evaluation may.
    pub fn open<R: Threads + Wait + Sync>(
        rt: &R,
        alloc: Global,
        netlist: &Netlist,
        crew: Crew,
        gate: G,
    ) -> Result<Self, AllocError>
    where
        G: Sync,
        requires open { IsOpen (G.may gate) }
        ensures { IfOk result (λ session. session ≡ opened netlist.now) }
    {
        let run = first_run(rt, alloc, netlist, &crew, &gate)?;
        let Ok(version) = opening_version(alloc, netlist, &run) else {
            drop(run);
            return Err(AllocError);
        };
        Ok(Session {
            alloc,
            crew,
            gate,
            version,
            run,
            last_work: Work::none(alloc),
        })
    }

    /// The present version.
    pub fn version(&self) -> &Arc<Version, Global>
        ensures { arc_value result.now ≡ self.now.story }
    {
        &self.version
    }

    /// The work of the last edit that was accepted, and none before the first.
    pub fn last_work(&self) -> &Work
        ensures value { result.now ≡ self.now.last_work }
        ensures work { IsLastWork self.now.story result.now }
    {
        &self.last_work
    }

    /// Judges the edit after the session's edits, and makes all that its commit needs. It is refused for the first check that it fails; otherwise as
    /// `HistoryFull` after `MAX_EDITS` edits; otherwise for lack of memory, which for a batch of 1 to 256 edits may come in place of the others. The
    /// edit is kept, and not copied. It may wait, as a gate may.
    pub fn prepare<R: Threads + Wait + Sync>(
        &self,
        rt: &R,
        edit: Edit,
    ) -> Result<Prepared, EditError>
    where
        G: Sync,
        ensures fits { IfOk result (λ prepared. prepared.before ≡ self.now.story) }
        ensures edit { IfOk result (λ prepared. prepared.edit ≡ edit) }
        ensures accepted { OnOk result (judged self.now.story edit ≡ Ok (present (one_more self.now.story edit))) }
        ensures refused { IfErr result (RefusedBy edit (judged self.now.story edit)) }
    {
        match self.next(&edit) {
            Ok(next) => Ok(self.prepared(rt, edit, next)?),
            Err(error) => {
                drop(edit);
                Err(error)
            }
        }
    }

    /// Makes the prepared edit, whose work is then the last: all that the change has to evaluate again, in order. It takes no memory and waits
    /// for nobody.
    pub fn commit(&mut self, prepared: Prepared)
        requires { prepared.before ≡ self.old.story }
        ensures story { self.new.story ≡ one_more self.old.story prepared.edit }
        ensures work { IsWork (present self.old.story) (present self.new.story) self.new.last_work }
    {
        let Prepared {
            before: _,
            edit: _,
            next,
            run,
            work,
        } = prepared;
        self.version = next;
        self.run = run;
        self.last_work = work;
    }

    /// Prepares the edit and makes it. A refused edit changes nothing.
    pub fn apply<R: Threads + Wait + Sync>(&mut self, rt: &R, edit: Edit) -> Result<(), EditError>
    where
        G: Sync,
        ensures story { OnOk result (self.new.story ≡ one_more self.old.story edit) }
        ensures accepted { OnOk result (judged self.old.story edit ≡ Ok (present self.new.story)) }
        ensures work { OnOk result (IsWork (present self.old.story) (present self.new.story) self.new.last_work) }
        ensures refused { IfErr result (RefusedBy edit (judged self.old.story edit)) }
        ensures err { OnErr result (self.new ≡ self.old) }
    {
        let prepared = self.prepare(rt, edit)?;
        self.commit(prepared);
        Ok(())
    }

    /// The netlist after the edit, if it is accepted.
    fn next(&self, edit: &Edit) -> Result<Netlist, EditError>
        ensures ok { IfOk result (λ next. after (present self.now.story) edit.now ≡ Ok next) }
        ensures refused { IfErr result (RefusedBy edit.now (judged self.now.story edit.now)) }
        ensures room { OnOk result (length self.now.story.edits < max_edits) }
    {
        if self.version.number() >= MAX_EDITS {
            return Err(self.refusal_when_full(edit));
        }
        self.version.now().after(edit)
    }

    /// Why the edit is refused after as many edits as a session may have: for its own fault, if it has one. A batch is judged whole for that.
    fn refusal_when_full(&self, edit: &Edit) -> EditError
        requires { max_edits ≤ length self.now.story.edits }
        ensures { RefusedBy edit.now (judged self.now.story edit.now) result }
    {
        match edit {
            Edit::Single(_) => match self.version.now().check(edit) {
                Ok(()) => EditError::HistoryFull,
                Err(error) => error,
            },
            Edit::Batch(_) => match self.version.now().after(edit) {
                Ok(next) => {
                    drop(next);
                    EditError::HistoryFull
                }
                Err(error) => error,
            },
        }
    }

    /// The edit with the version of the netlist after it.
    fn prepared<R: Threads + Wait + Sync>(
        &self,
        rt: &R,
        edit: Edit,
        next: Netlist,
    ) -> Result<Prepared, AllocError>
    where
        G: Sync,
        requires accepted { after (present self.now.story) edit ≡ Ok next }
        requires room { length self.now.story.edits < max_edits }
        ensures fits { IfOk result (λ prepared. prepared.before ≡ self.now.story) }
        ensures edit { IfOk result (λ prepared. prepared.edit ≡ edit) }
        ensures next { OnOk result (present (one_more self.now.story edit) ≡ next) }
    {
        edits_revise();
        let now = self.version.now();
        let context = RerunContext {
            rt,
            alloc: self.alloc,
            crew: &self.crew,
            gate: &self.gate,
        };
        let Ok((run, work)) = redo_edit(&context, now, &self.run, &edit, &next) else {
            drop(edit);
            drop(next);
            return Err(AllocError);
        };
        self.evaluated(edit, next, run, work)
    }

    /// The edit with the version of the netlist after it, which was evaluated: this is its run, and that the work of the edit.
    fn evaluated(
        &self,
        edit: Edit,
        next: Netlist,
        run: Run,
        work: Work,
    ) -> Result<Prepared, AllocError>
        requires accepted { after (present self.now.story) edit ≡ Ok next }
        requires room { length self.now.story.edits < max_edits }
        requires run { IsRun next run }
        requires work { IsWork (present self.now.story) next work }
        ensures fits { IfOk result (λ prepared. prepared.before ≡ self.now.story) }
        ensures edit { IfOk result (λ prepared. prepared.edit ≡ edit) }
        ensures next { OnOk result (present (one_more self.now.story edit) ≡ next) }
    {
        let Ok((before, edit, next)) = versions_of(self.alloc, &self.version, edit, next, &run)
        else {
            drop(run);
            drop(work);
            return Err(AllocError);
        };
        Ok(Prepared {
            before,
            edit,
            next,
            run,
            work,
        })
    }
}
