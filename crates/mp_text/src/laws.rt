//! Laws of texts and their netlists.
ghost use Rattle.mp_text.specs.Clauses.{IsReplay, IsReadAsWritten};

/// A text that is read states one horizon, and its netlist is the replay of its other statements'
/// edits, in order, on the empty netlist of that horizon and of the format that it states.
#[tactic(auto, using(crate::proofs::ReplayLemmas::text_is_replay))]
pub fn text_is_replay()
    ensures { IsReplay }
{}

/// If the text of a well-formed netlist is not longer than its format allows, it is read as a netlist with the same records: the format in
/// which it is written, the same horizon, the same wires with their stimuli, and the same modules and bundles with the names of their wires, all in the
/// same order, though perhaps under other numbers.
#[tactic(auto, using(crate::proofs::RoundTripLemmas::read_as_written))]
pub fn written_text_is_read()
    ensures { IsReadAsWritten }
{}
