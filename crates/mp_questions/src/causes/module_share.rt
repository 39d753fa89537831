//! A module's share of a time.
use mp_netlist::ModuleId;

/// How long a chain of causes was in a module, and in how many steps.
#[derive(Clone, Copy, PartialEq, Eq)]
pub struct ModuleShare {
    pub id: ModuleId,
    /// How long.
    pub units: u64,
    /// In how many steps.
    pub steps: u64,
}
