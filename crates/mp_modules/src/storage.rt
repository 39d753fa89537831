//! The event modules that hold data, those that hold nothing, all kinds as one type, and what modules with data do by their outputs alone.

mod any_module;
mod data_part;
mod function_module;
pub mod laws;
mod output_levels;
mod reg;

pub use any_module::AnyModule;
pub use data_part::DataPart;
pub use function_module::FunctionModule;
pub use output_levels::OutputLevels;
pub use reg::Reg;
