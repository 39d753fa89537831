//! The questions of scripts.
use crate::picture_options::PictureOptions;
use crate::wire_names::WireNames;
use mp_netlist::Name;

/// A question about the present netlist. Times may be at or above the horizon.
#[derive(Drop)]
pub enum Question {
    /// The wave of the wire of this name.
    Wave(Name),
    /// The waves of all wires.
    Waves,
    /// The netlist's text.
    Text,
    /// The findings at the times from one to before another.
    Report {
        from: u64,
        to: u64,
    },
    /// Whether the netlist works: findings and late data at the times from one to before another, in groups if it is to be brief, and deadlocks and
    /// notes of the whole run.
    Check {
        is_brief: bool,
        from: u64,
        to: u64,
    },
    /// Whether the netlist repeats for ever, and how fast.
    Steady,
    /// The value change dump of the netlist.
    Dump,
    /// What was computed again for the last edit.
    Work,
    /// The timing diagram from one time to before another: of the wires of these names, or of all wires if there are no names, and drawn as the options
    /// say.
    Show {
        from: u64,
        to: u64,
        wires: WireNames,
        options: PictureOptions,
    },
    /// Why a wire has its level at a time: the chain of its causes, in at most this number of steps, 1 to `MAX_STEPS`.
    Why {
        wire: Name,
        time: u64,
        steps: u32,
    },
    /// How the time of that chain from another time on divides among the modules. The other time is 0 for the whole chain, and else below `time`.
    Path {
        wire: Name,
        time: u64,
        from: u64,
    },
    /// Which modules and bundles wait at a time.
    Waits {
        time: u64,
    },
    /// The events, gaps and margins from one time to before another: of all wires and bundles, or of the wires of these names alone if there are names.
    Measure {
        from: u64,
        to: u64,
        wires: WireNames,
    },
    /// The netlist as a graph.
    Graph,
    /// The netlist as Verilog.
    Verilog,
    /// The number of accepted edits.
    Version,
    /// The accepted edits from this number on. The first edit has the number 1.
    Edits {
        from: u64,
    },
}
