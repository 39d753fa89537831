//! Small examples of what the laws speak of, computed from the definitions.
ghost use Rattle.mp_laws.specs.Examples.{BatchExamples, NumberExample, TextExamples};

/// A batch that is accepted, one that is refused for its second edit, and one of no edits.
pub fn batches()
    ensures { BatchExamples }
{}

/// A wire is added, goes, and is added again under another number.
pub fn numbers()
    ensures { NumberExample }
{}

/// Texts that are refused at a line, and one that lacks only a horizon.
pub fn texts()
    ensures { TextExamples }
{}
