//! What a change of a netlist leaves as it was, and what has to be evaluated again.

ghost use Rattle.mp_depend.specs.work.Revisions.{EditsRevise};
ghost use Rattle.mp_depend.specs.work.Stays.{StatesStay, UnreachedStates, LevelsStay, UnreachedLevels, ApartByInputs};
ghost use Rattle.mp_depend.specs.work.WorkSpans.{WorkSpansAreWork};
ghost use Rattle.mp_depend.specs.work.Work.{IsOnlyWork, WindowsCover, WindowsApart, WorksOnlyReached, WorksWhileDifferent, WorksThroughout, WorksOnce, AgreesOutside, LevelsAgreeOutside};

/// An accepted edit keeps the horizon, the numbers, and the width and initial level of each wire that exists before and after it.
pub fn edits_revise()
    ensures { EditsRevise }
{}

/// If a module's record is the same in both netlists and its states agree before a time, they agree from then on as long as its inputs do; and a wire
/// that the same drives has the same level wherever the state agrees that it comes from.
pub fn unreached()
    ensures states { StatesStay }
    ensures states_below { UnreachedStates }
    ensures levels { LevelsStay }
    ensures levels_below { UnreachedLevels }
{}

/// A module whose record is the same in both netlists is apart exactly if one of its inputs has another level.
pub fn apart_by_inputs()
    ensures { ApartByInputs }
{}

/// Each time below the horizon lies in a window, and no two windows have a time in common.
pub fn windows_tile()
    ensures cover { WindowsCover }
    ensures apart { WindowsApart }
{}

/// The work is the only list with its entries in their order.
pub fn only_work()
    ensures { IsOnlyWork }
{}

/// If each part of the work is in exactly one of some work spans, the entries of these are the work.
pub fn work_spans_are_work()
    ensures { WorkSpansAreWork }
{}

/// A touched module works in each window; no module works on anything twice.
pub fn works_once()
    ensures throughout { WorksThroughout }
    ensures once { WorksOnce }
{}

/// Whatever is worked on is reached before the work's end.
pub fn only_reached()
    ensures { WorksOnlyReached }
{}

/// A module that isn't touched works on in a block of time only if its states differ before the block, or its inputs in it.
pub fn rejoins()
    ensures { WorksWhileDifferent }
{}

/// The states of a module that isn't touched and doesn't work in a window agree from the begin of the window's block to its end, and so do the levels
/// of the wires that it drives, later by the delays of its ports.
pub fn agrees_outside()
    ensures states { AgreesOutside }
    ensures levels { LevelsAgreeOutside }
{}
