//! A netlist as a Verilog file.
ghost use Rattle.std.specs.Prelude.{◌≡◌};
ghost use Rattle.mp_streams.specs.WriteErrors.{Writes};
ghost use Rattle.mp_streams.specs.Outgoing.{Writes as WritesText};
ghost use Rattle.mp_depend.specs.Drivers.{AreDrivers};
ghost use Rattle.mp_exports.specs.verilog.Verilog.{verilog};

use crate::verilog::bench::Bench;
use crate::verilog::kinds::KindModules;
use crate::verilog::netlist_module::NetlistModule;
use crate::verilog::wires::Wires;
use mp_depend::drivers_of;
use mp_netlist::{Driver, Netlist};
use mp_streams::{Failed, Out, Sink, Text, WriteError};
use std::alloc::Global;

/// Writes a netlist as Verilog: a module for each kind that occurs, one for the netlist, and a test bench that drives it and dumps the levels of its
/// wires. `WriteFailed` comes if the sink fails; then the sink has a beginning of what was held and of the text, and nothing is held. `OutOfMemory`
/// comes before anything is written. It takes memory for the driver of each wire.
pub fn put_verilog<S: Sink>(
    alloc: Global,
    out: &mut Out<S>,
    netlist: &Netlist,
) -> Result<(), WriteError>
    ensures { Writes result out.old out.new (verilog netlist.now) }
{
    let drivers = drivers_of(alloc, netlist)?;
    put_text(out, netlist, drivers.as_slice())?;
    Ok(())
}

#[tactic(auto, unfolding(crate::specs::verilog::Verilog::verilog))]
/// Writes a netlist as Verilog, given the driver of each wire.
fn put_text<S: Sink>(out: &mut Out<S>, netlist: &Netlist, drivers: &[Driver]) -> Result<(), Failed>
    requires { AreDrivers netlist.now drivers.now }
    ensures { WritesText result out.old out.new (verilog netlist.now) }
{
    let wires = Wires { netlist, drivers };
    let modules = (NetlistModule { wires }, Bench { wires });
    ("`timescale 1ns/1ns\n", KindModules { netlist }, modules).put_to(out)
}
