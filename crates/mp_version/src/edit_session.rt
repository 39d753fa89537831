//! What edits a netlist.
ghost use Rattle.std.specs.Prelude.{◌≡◌, Ok, IfOk, IfErr};
ghost use Rattle.std.specs.Arc.{arc_value};
ghost use Rattle.std.specs.Thread.{IsSync};
ghost use Rattle.mp_netlist.specs.Edits.{RefusedBy};
ghost use Rattle.mp_version.specs.Stories.{Story, present, judged};
ghost use Rattle.mp_version.specs.Steps.{Step, story_after};

use crate::version::Version;
use mp_netlist::{Edit, EditError};
use std::sync::{Arc, Wait};
use std::thread::Threads;

/// A netlist that is edited: it has a present version, judges edits, and makes those that it accepts. A contract sees its story, and the step
/// from one story to the next.
pub trait EditSession: Drop {
    /// An accepted edit, with all that its commit needs.
    type Prepared: Drop;

    /// The netlist of the beginning, and the edits that were accepted so far.
    ghost story: { Self → Story };

    /// An edit, and the story that it was judged after.
    ghost step: { Self.Prepared → Step };

    /// The present version.
    fn version(&self) -> &Arc<Version>
        ensures { arc_value result.now ≡ story self.now };

    /// The version to which a prepared edit leads.
    fn next_version(prepared: &Self::Prepared) -> &Arc<Version>
        ensures { arc_value result.now ≡ story_after (step prepared.now) };

    /// The edit that was prepared.
    fn edit(prepared: &Self::Prepared) -> &Edit
        ensures { result.now ≡ (step prepared.now).edit };

    /// Judges the edit after those that were accepted, and makes all that its commit needs. It is refused for the first check that it fails;
    /// otherwise as `HistoryFull` after `MAX_EDITS` edits; otherwise for lack of memory, which for a batch of 1 to 256 edits may come in place of the
    /// others. It may wait, as an evaluation may. The clause `shared` says what the bound `Sync` says: in a trait the prover asks for both.
    fn prepare<R: Threads + Wait + Sync>(
        &self,
        rt: &R,
        edit: Edit,
    ) -> Result<Self::Prepared, EditError>
        requires shared { IsSync R.row }
        ensures fits { IfOk result (λ prepared. (step prepared).before ≡ story self.now) }
        ensures edit { IfOk result (λ prepared. (step prepared).edit ≡ edit) }
        ensures accepted { IfOk result (λ prepared. judged (story self.now) edit ≡ Ok (present (story_after (step prepared)))) }
        ensures refused { IfErr result (RefusedBy edit (judged (story self.now) edit)) };

    /// Makes the prepared edit. It takes no memory and waits for nobody.
    fn commit(&mut self, prepared: Self::Prepared)
        requires { (step prepared).before ≡ story self.old }
        ensures { story self.new ≡ story_after (step prepared) };
}
