//! The texts of `--help`: the commands that write for other tools.

/// What `dump` does.
pub(crate) const DUMP: &str = "Writes the waveforms as a value change dump";

/// What `dump` reads and writes.
pub(crate) const DUMP_LONG: &str = "\
Writes the waveforms as a value change dump.

Reads a netlist, as `waves` does.

Writes a value change dump (IEEE Std 1364), which GTKWave and other viewers
open. All wires are in the scope `top`. A wire of width 1 is a scalar; a wider
one is a vector, written with all its bits. The dump has the levels at time 0,
then each change at its time, and it ends with the horizon.

A unit of time is 1 ns. --unit gives it another length: 1, 10 or 100, and right
behind the number s, ms, us, ns, ps or fs, as in `--unit 10ps`.";

/// What `graph` does.
pub(crate) const GRAPH: &str = "Writes the netlist as a graph for Graphviz";

/// What `graph` reads and writes.
pub(crate) const GRAPH_LONG: &str = "\
Writes the netlist as a graph for Graphviz.

Reads a netlist, as `waves` does.

Writes a text for `dot`, with a node for each module, each bundle, and each wire
that no module drives or none reads, and with an edge for each input of a
module. So this draws the circuit:

  mpwb graph FILE | dot -Tsvg > circuit.svg";

/// What `verilog` does.
pub(crate) const VERILOG: &str = "Writes the netlist as Verilog, with a test bench";

/// What `verilog` reads and writes.
pub(crate) const VERILOG_LONG: &str = "\
Writes the netlist as Verilog, with a test bench.

Reads a netlist, as `waves` does.

Writes a file of Verilog-2005. It has a module for each kind that is used, the
netlist as a module `netlist`, and a module `bench`, which applies the stimuli
and dumps all waveforms up to the horizon into waves.vcd. So another simulator
makes the same waveforms:

  mpwb verilog FILE > netlist.v
  iverilog -g2005 -o netlist.vvp netlist.v
  vvp netlist.vvp

Bundles are written as comments.";
