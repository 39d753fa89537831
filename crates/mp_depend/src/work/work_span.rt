//! A work span of time in which a module is evaluated again.
use mp_netlist::ModuleId;

/// A module that is evaluated again from one time to before another, which is the end of a window, and then in each window up to a last
/// end; all in units.
#[derive(Clone, Copy, PartialEq, Eq)]
pub struct WorkSpan {
    pub module: ModuleId,
    pub from: u32,
    pub first_end: u32,
    pub last_end: u32,
}
