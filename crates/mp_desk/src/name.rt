//! A name for one desk.
use std::marker::Brand;
use std::sync::ledger::Ledger;

/// Names one desk: its ledger, its history, and the number of the version with which it opens. The caller picks it.
pub trait DeskName: Ledger {
    ghost use Rattle.logbook.specs.Pages.{Book};
    ghost use Rattle.std.specs.Prelude.{ℕ};

    /// Which history it is.
    ghost history: { Book };

    /// The number of the version with which the desk opens.
    ghost opening: { ℕ };
}

impl DeskName for Brand {
    ghost history = { record { number = 0; log_name = 0; cells_name = 0 } };

    ghost opening = { 0 };
}
