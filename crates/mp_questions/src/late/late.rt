//! Data that are late.
use mp_netlist::BundleId;

/// A change of a bundle's data that is late.
#[derive(Clone, Copy, PartialEq, Eq)]
pub struct Late {
    /// When the data change, in units from 0.
    pub time: u32,
    pub bundle: BundleId,
    /// How long after the request, in units.
    pub units: u32,
}
