//! Which modules are active.

use mp_netlist::ModuleId;

/// Of each module whether it is active, whether it is touched, and its place among the modules with data, if it has had one. Modules that become
/// active in the present unit are listed, and those that have in the present window.
#[derive(Drop)]
pub(crate) struct Activity {
    pub active: Vec<bool>,
    pub touched: Vec<bool>,
    pub seats: Vec<Option<u32>>,
    pub joining: Vec<ModuleId>,
    pub joined: Vec<ModuleId>,
}
