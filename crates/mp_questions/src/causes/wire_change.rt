//! A change of a wire.
use mp_netlist::WireId;

/// A change of a wire: its time, and its level from then on.
#[derive(Clone, Copy, Default, PartialEq, Eq)]
pub struct WireChange {
    pub wire: WireId,
    /// In units from 0.
    pub time: u32,
    /// As an unsigned number of the wire's width.
    pub level: u64,
}
