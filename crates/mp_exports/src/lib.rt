//! Texts for other tools: value change dumps and Verilog.
//!
//! `vcd` writes the waves of a netlist as a value change dump, unit by unit. `verilog` writes a netlist as Verilog with a test bench. Begin with
//! `vcd/dumping.rt` and `verilog/verilog.rt`.
#![tactic(auto)]

pub mod vcd;
mod verilog;

pub use vcd::{DumpOptions, TimeNumber, TimeUnit, Timescale, put_dump};
pub use verilog::put_verilog;
