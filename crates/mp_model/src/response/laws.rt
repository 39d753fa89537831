//! What holds of all spans.

ghost use Rattle.mp_model.specs.response.Delays.{EndsInState, FindsByStates, GivesLevels};
ghost use Rattle.mp_model.specs.response.Joins.{JoinsSpans, DependsInside, IsOneSpan};

/// A span and the next one from its last state make up one span: the last state is that of the second, and the findings and the changes of each
/// output are those of the first and then of the second.
pub fn joined_spans()
    ensures { JoinsSpans }
{}

/// A span depends only on the input levels inside it.
pub fn inside_alone()
    ensures { DependsInside }
{}

/// A state and input levels determine the span.
pub fn one_span()
    ensures { IsOneSpan }
{}

/// In a netlist, the last state of a module's span is the module's state before the span's end.
pub fn ends_in_state()
    ensures { EndsInState }
{}

/// In a netlist, the findings of a module's span are what its table finds at each unit, from its state before the unit.
pub fn finds_by_states()
    ensures { FindsByStates }
{}

/// In a netlist, the changes of an output in a span are those of its wire, later by the output's delay.
pub fn gives_levels()
    ensures { GivesLevels }
{}
