//! Which modules are active at time 0: those that a change has touched.
ghost use Rattle.std.specs.Prelude.{◌≡◌, [], IfOk};
ghost use Rattle.mp_redo.specs.rerun.Windows.{AreTouched};

use crate::rerun::activity::Activity;
use mp_active::Change;
use mp_depend::{marks_of, touched};
use std::alloc::{AllocError, Global};

/// The marks of all modules by number: those of touched modules are set.
pub(crate) fn touched_marks(alloc: Global, change: &Change<'_>) -> Result<Vec<bool>, AllocError>
    ensures { IfOk result (λ marks. AreTouched change.now.old.now change.now.new.now marks.items) }
{
    let ids = touched(alloc, change.old, change.new)?;
    let marks = marks_of(alloc, change.new.module_slots(), ids.as_slice())?;
    Ok(marks)
}

/// The marked modules are active, and nobody has joined. The places of modules with data are known.
pub(crate) fn first_activity(
    alloc: Global,
    touches: Vec<bool>,
    places: &[Option<u32>],
) -> Result<Activity, AllocError>
    ensures active { IfOk result (λ activity. activity.active.items ≡ touches.items) }
    ensures touched { IfOk result (λ activity. activity.touched.items ≡ touches.items) }
    ensures seats { IfOk result (λ activity. activity.seats.items ≡ places.now) }
    ensures joined { IfOk result (λ activity. activity.joined.items ≡ []) }
{
    Ok(Activity {
        active: touches.clone()?,
        touched: touches,
        seats: places.to_vec(alloc)?,
        joining: Vec::new(alloc),
        joined: Vec::new(alloc),
    })
}
