//! Designers who sit down to work, and rise.
ghost use Rattle.std.specs.Prelude.{◌≡◌, ◌++◌, ◌∷◌, [], false, map, All, IfOk};
ghost use Rattle.mp_meeting.specs.Sittings.{begun};
ghost use Rattle.mp_meeting.specs.Seats.{working, tally_of};

use crate::designer_tally::DesignerTally;
use crate::tally::Tally;
use mp_desk::{Designer, DeskName};
use std::alloc::{AllocError, Global};

/// Starts all designers, who have submitted nothing yet.
pub fn start_all<L: DeskName>(
    alloc: Global,
    designers: Vec<Designer<L>>,
) -> Result<Vec<DesignerTally<L>>, AllocError>
    requires { All (λ d. d.accepted ≡ 0) designers.items }
    ensures { IfOk result (λ v. v.items ≡ map begun designers.items) }
{
    let mut sittings = Vec::new(alloc);
    for me in designers {
        sittings.push(DesignerTally::new(me))?;
    }
    Ok(sittings)
}

/// The designers again, and how their lines fared. `OutOfMemory` if memory ran out for one of them, too.
pub(crate) fn finish_all<L: DeskName>(
    alloc: Global,
    sittings: Vec<DesignerTally<L>>,
) -> Result<(Vec<Designer<L>>, Vec<Tally>), AllocError>
    ensures designers { IfOk result (λ both. both.0.items ≡ map working sittings.items) }
    ensures tallies { IfOk result (λ both. both.1.items ≡ map tally_of sittings.items) }
    ensures whole { IfOk result (λ _. All (λ s. s.wanting ≡ false) sittings.items) }
{
    let mut designers = Vec::new(alloc);
    let mut tallies = Vec::new(alloc);
    for sitting in sittings {
        finish_one(sitting, &mut designers, &mut tallies)?;
    }
    Ok((designers, tallies))
}

/// Adds a designer, and how the lines fared, to the others. `OutOfMemory` if memory ran out for this one, too.
fn finish_one<L: DeskName>(
    sitting: DesignerTally<L>,
    designers: &mut Vec<Designer<L>>,
    tallies: &mut Vec<Tally>,
) -> Result<(), AllocError>
    ensures designers { IfOk result (λ _. designers.new.items ≡ designers.old.items ++ working sitting ∷ []) }
    ensures tallies { IfOk result (λ _. tallies.new.items ≡ tallies.old.items ++ tally_of sitting ∷ []) }
    ensures whole { IfOk result (λ _. sitting.wanting ≡ false) }
{
    let DesignerTally {
        me,
        last,
        refused,
        wanting,
    } = sitting;
    drop(last);
    if wanting {
        drop(me);
        return Err(AllocError);
    }
    let accepted = me.accepted();
    let Ok(()) = tallies.push(Tally { accepted, refused }) else {
        drop(me);
        return Err(AllocError);
    };
    designers.push(me)?;
    Ok(())
}
