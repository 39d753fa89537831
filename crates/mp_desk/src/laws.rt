//! What holds in every run of the world of a desk.
ghost use Rattle.mp_desk.specs.Worlds.{EveryRun};

/// The list of accepted edits only grows at its end, and no edit of it is refused; each read gives a beginning of the last list, with at least as
/// many edits as any version that this viewer has read or been told of; and the designers' counts add up to the growth.
pub fn every_run()
    ensures { EveryRun }
{}
