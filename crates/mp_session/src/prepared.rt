//! An edit with all that its commit needs.
ghost use Rattle.std.specs.Prelude.{◌≡◌, IsTrue, ◌↔◌};

use crate::session::Session;
use mp_depend::Work;
use mp_netlist::Edit;
use mp_partition::Run;
use mp_phase::Gate;
use mp_version::Version;
use std::alloc::Global;
use std::marker::Model;
use std::sync::Arc;

/// An edit that a session accepts exactly after the edits after which it was prepared, with the version and the run that it leads to, and its work.
#[derive(Drop)]
pub struct Prepared {
    pub(crate) before: Arc<Version, Global>,
    pub(crate) edit: Arc<Edit, Global>,
    pub(crate) next: Arc<Version, Global>,
    pub(crate) run: Run,
    pub(crate) work: Work,
}

impl Model for Prepared {
    ghost use Rattle.std.specs.Prelude.{◌≡◌};
    ghost use Rattle.std.specs.Arc.{arc_value};
    ghost use Rattle.mp_version.specs.Stories.{present, one_more};
    ghost use Rattle.mp_partition.specs.runs.Runs.{IsRun};
    ghost use Rattle.mp_depend.specs.work.Work.{IsWork};
    ghost use Rattle.mp_version.specs.Steps.{Step};

    ghost Value = { Step };

    ghost view = { λ prepared. record { before = arc_value prepared.before; edit = arc_value prepared.edit } };

    ghost invariant = { λ prepared. (arc_value prepared.next ≡ one_more (arc_value prepared.before) (arc_value prepared.edit))
        × IsRun (present (arc_value prepared.next)) prepared.run
        × IsWork (present (arc_value prepared.before)) (present (arc_value prepared.next)) prepared.work };
}

impl Prepared {
    ghost use Rattle.std.specs.Arc.{arc_value};
    ghost use Rattle.mp_version.specs.Steps.{story_after};

    /// Whether the session's version is the one that the edit was prepared after: the same base, and the same edits.
    pub fn fits<G: Gate>(&self, session: &Session<G>) -> bool
        ensures { IsTrue result ↔ (self.now.before ≡ session.now.story) }
    {
        let before: &Version = &self.before;
        let present: &Version = session.version();
        before.is_same_as(present)
    }

    /// The edit.
    pub fn edit(&self) -> &Edit
        ensures { result.now ≡ self.now.edit }
    {
        &self.edit
    }

    /// The version to which the edit leads.
    pub fn version(&self) -> &Arc<Version, Global>
        ensures { arc_value result.now ≡ story_after self.now }
    {
        &self.next
    }
}
