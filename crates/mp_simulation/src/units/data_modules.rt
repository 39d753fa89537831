//! The modules with data.

use mp_kernel::DataModule;

/// The modules with data. Each place of the simulator has the number of its module among them, if there is one there.
#[derive(Drop)]
pub struct DataModules {
    pub places: Vec<Option<u32>>,
    pub modules: Vec<DataModule>,
}
