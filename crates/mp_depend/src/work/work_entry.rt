//! One piece of work.
use mp_netlist::ModuleId;

/// A module that is evaluated again, from one time to before another, in units.
#[derive(Clone, Copy, PartialEq, Eq)]
pub struct WorkEntry {
    pub module: ModuleId,
    pub from: u32,
    pub to: u32,
}
