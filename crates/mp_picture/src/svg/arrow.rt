//! Arrows between wires at times.
use mp_netlist::WireId;

/// A wire at a time.
#[derive(Clone, Copy, PartialEq, Eq)]
pub struct WirePoint {
    pub wire: WireId,
    /// In units from 0.
    pub time: u32,
}

/// An arrow from a wire at a time to another, as from a cause to its effect.
#[derive(Clone, Copy, PartialEq, Eq)]
pub struct Arrow {
    pub from: WirePoint,
    pub to: WirePoint,
}
