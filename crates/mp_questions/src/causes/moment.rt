//! A wire at a time.
use mp_netlist::WireId;

/// A wire and a time, as a question gives them. A time at or above the horizon is read as the horizon's last unit.
#[derive(Clone, Copy, PartialEq, Eq)]
pub struct Moment {
    pub wire: WireId,
    /// In units from 0.
    pub time: u64,
}
