//! What holds of every evaluation by windows.

ghost use Rattle.mp_laws.specs.Windows.{AnyOrder};

/// In an evaluation by windows that are no longer than the least delay, the states and levels at each window's begin are right, whatever
/// the order in which modules answer.
pub fn any_order()
    ensures { AnyOrder }
{}
