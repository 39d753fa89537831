//! What a port waits for.
use mp_netlist::{ModuleId, WireId};

/// A module with a port that can't change its wire before another port changes the wire that it waits for.
#[derive(Clone, Copy, PartialEq, Eq)]
pub struct Wait {
    pub waiter: ModuleId,
    /// The wire that it waits for.
    pub wire: WireId,
    /// The number of the port that drives that wire: three for each module with a lesser number, and the port's own, from 0.
    pub next: u32,
}
