//! Findings of a netlist.
use mp_modules::FindingCode;
use mp_netlist::{BundleId, ModuleId};

/// The place of a finding.
#[derive(Clone, Copy, PartialEq, Eq)]
pub enum Place {
    Module(ModuleId),
    Bundle(BundleId),
}

/// A module or a bundle met something that a well-behaved circuit avoids.
#[derive(Clone, Copy, PartialEq, Eq)]
pub struct Finding {
    /// The time, in units from 0; 1 at the earliest.
    pub time: u32,
    pub place: Place,
    pub code: FindingCode,
}
