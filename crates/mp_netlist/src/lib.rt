//! Netlists of event modules, and the edits that change them.
#![tactic(auto)]

mod around;
mod checkpoint;
mod driver;
mod format;
mod index;
pub mod laws;
mod least_delay;
mod module_table;
mod netlist;
mod new_error;
mod record_changes;
mod slots;
mod table;
mod wire_knowledge;

pub use checkpoint::checkpoint_units;
pub use driver::Driver;
pub use format::Format;
pub use mp_records::{
    Batch, Boxed, BundleId, BundleRecord, Changes, Edit, EditError, Input, InputName, InputNames,
    Inputs, ModuleId, ModuleRecord, Name, NewBundle, NewModule, Output, OutputName, OutputNames,
    Outputs, Params, SingleEdit, Stimulus, WireId, WireRecord,
};
pub use netlist::{MAX_BATCH, MAX_DELAY, MAX_SETUP, Netlist};
pub use new_error::NewError;
