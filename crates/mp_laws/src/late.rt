//! What late data come from.
ghost use Rattle.mp_laws.specs.LateData.{LeadsAreNoLater, OnlyStartsAreLateAlone, StimuliAreNeverLate};

/// No change that leads to another is later than that one. Data that a stimulus sets are never late. Data that are late and come from no
/// other change are the start of a module.
pub fn late_data()
    ensures times { LeadsAreNoLater }
    ensures stimuli { StimuliAreNeverLate }
    ensures starts { OnlyStartsAreLateAlone }
{}
