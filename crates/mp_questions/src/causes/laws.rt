//! What causes and chains of causes satisfy.
ghost use Rattle.mp_questions.specs.causes.Laws.{HasCause, TimesFall, GoesBack, AddsUp, AddsUpAbove};

/// Every change has a cause: a stimulus, a start, or events, each of them a change that came before.
pub fn has_cause()
    ensures { HasCause }
{}

/// Times fall along a chain of causes, and each of its steps is a change.
pub fn times_fall()
    ensures { TimesFall }
{}

/// A chain of causes goes back to what is set from outside, or to a start.
pub fn goes_back()
    ensures { GoesBack }
{}

/// The units of all shares add up to the time from the begin of the chain to its last change.
pub fn adds_up()
    ensures { AddsUp }
{}

/// The units of all shares above a time add up to the time from there, or from the begin of the chain if that is later, to its last change.
pub fn adds_up_above()
    ensures { AddsUpAbove }
{}
