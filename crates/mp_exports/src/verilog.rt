//! A netlist as Verilog.

mod bench;
mod data_modules;
mod declarations;
mod event_modules;
mod function_modules;
mod instances;
mod kinds;
mod listed;
mod module_items;
mod names;
mod netlist_module;
mod numbered;
mod ports;
mod system_words;
mod verilog;
mod verilog_words;
mod wires;

pub use verilog::put_verilog;
