//! What closed sets are.

ghost use Rattle.mp_holding.specs.sets.Laws.{HasClosedSets, UnionIsClosed};

/// The union of all closed sets is closed, and has each closed set: so it is the greatest. It is asked that a greater set keeps what a lesser one keeps.
pub fn union_is_greatest_closed_set()
    ensures closed { UnionIsClosed }
    ensures greatest { HasClosedSets }
{}
