//! What holds of every edit.
ghost use Rattle.mp_laws.specs.Batches.{BatchesAreReplays, BatchesAreRefusedInPlace, BatchesHaveSizes, BatchesAreRefusedSo};
ghost use Rattle.mp_laws.specs.Numbers.{EditsUseNumbersOnce, ReplaysUseNumbersOnce};

/// A batch is accepted exactly if it has 1 to 256 edits and these are accepted one after the other; and it gives the netlist that they give.
pub fn batches_are_replays()
    ensures { BatchesAreReplays }
{}

/// A batch is refused for a place, with a number, exactly if it has 1 to 256 edits, those before the place are accepted one after the other, and the
/// one there is then refused with that number.
pub fn batches_are_refused_in_place()
    ensures { BatchesAreRefusedInPlace }
{}

/// A batch is refused for its size exactly if it doesn't have 1 to 256 edits.
pub fn batches_have_sizes()
    ensures { BatchesHaveSizes }
{}

/// A batch is refused for its size or for one of its edits, and for nothing else.
pub fn batches_are_refused_so()
    ensures { BatchesAreRefusedSo }
{}

/// No accepted edit, a batch among them, uses the number of a wire, a module or a bundle again: a
/// number whose thing went stays without one, and what stands under an old number stood under it
/// with the same name. The horizon stays.
pub fn edits_use_numbers_once()
    ensures { EditsUseNumbersOnce }
{}

/// No list of edits that are accepted one after the other uses a number again.
pub fn replays_use_numbers_once()
    ensures { ReplaysUseNumbersOnce }
{}
