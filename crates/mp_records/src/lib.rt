//! Wires, modules, bundles and edits as data, and the lists that netlists and waves are kept in (`lists`).
#![tactic(auto)]

mod batch;
mod boxed;
mod bundle_record;
mod changes;
mod edit;
mod edit_error;
mod ids;
pub mod lists;
mod module_record;
mod name;
mod new_bundle;
mod new_module;
mod params;
mod port_names;
mod ports;
mod same;
mod same_edit;
mod same_record;
mod single_edit;
mod stimulus;
mod wire_record;

pub use batch::Batch;
pub use boxed::Boxed;
pub use bundle_record::BundleRecord;
pub use changes::Changes;
pub use edit::Edit;
pub use edit_error::EditError;
pub use ids::{BundleId, ModuleId, WireId};
pub use lists::{Kept, Pieces, Row, push_to_row};
pub use module_record::ModuleRecord;
pub use name::Name;
pub use new_bundle::NewBundle;
pub use new_module::NewModule;
pub use params::Params;
pub use port_names::{InputName, InputNames, OutputName, OutputNames};
pub use ports::{Input, Inputs, Output, Outputs};
pub use same::{Same, same_list, same_option, same_place};
pub use single_edit::SingleEdit;
pub use stimulus::Stimulus;
pub use wire_record::WireRecord;
