//! Laws of netlists.

ghost use Rattle.mp_netlist.specs.Drivers.{FindsPorts, FindsOnlyPorts, LeavesNoDriver};
ghost use Rattle.mp_netlist.specs.Delays.{DelaysAreLeast};
ghost use Rattle.mp_netlist.specs.Laws.{EditsKeepNetlists};

/// A port that has a wire as its output is the wire's driver.
pub fn finds_ports()
    ensures { FindsPorts }
{}

/// A port that is a wire's driver has it as its output.
pub fn finds_only_ports()
    ensures { FindsOnlyPorts }
{}

/// Nothing drives a wire that was never added, or that was removed.
pub fn leaves_no_driver()
    ensures { LeavesNoDriver }
{}

/// The least delay is at least 1. No port that drives a wire has a smaller delay, and one of them has it; if there is no such port, it is the
/// horizon.
pub fn delays_are_least()
    ensures { DelaysAreLeast }
{}

/// A netlist is well formed after each accepted edit, batches included.
pub fn edits_keep_netlists()
    ensures { EditsKeepNetlists }
{}
