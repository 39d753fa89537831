//! A command with its arguments.
use crate::picture_words::PictureWords;
use crate::range_words::RangeWords;
use mp_exports::Timescale;
use std::slice;

/// A command, with the arguments that only it has.
#[derive(Drop)]
pub enum Command<'a> {
    /// Write the wave of each wire.
    Waves,
    /// Write the findings in a range of times, of the modules and bundles of some names or of all.
    Report(RangeWords<'a>),
    /// Check whether the netlist works. `is_brief` groups findings and late changes. The range of times and the names are as those of `Report`.
    Check {
        words: RangeWords<'a>,
        is_brief: bool,
    },
    /// Write a value change dump, with a unit of time of this length.
    Dump(Timescale),
    /// Draw a timing diagram.
    Show(PictureWords<'a>),
    /// Write the chain of causes of a wire's level at a time, in at most `steps` lines.
    Why {
        wire: &'a str,
        time: u64,
        steps: u32,
    },
    /// Write how much time each module took in that chain, or in its part from `from` on.
    Path {
        wire: &'a str,
        time: u64,
        from: Option<u64>,
    },
    /// Write which modules and bundles wait at a time.
    Waits {
        time: u64,
    },
    /// Write events, gaps and margins in a range of times: of all wires and bundles, or of the wires of some names alone.
    Measure(RangeWords<'a>),
    /// Write whether the netlist repeats for ever, and how fast.
    Steady,
    /// Write the netlist as a graph.
    Graph,
    /// Write the netlist as Verilog.
    Verilog,
    /// Make the edits of a script, and answer its questions.
    Play,
    /// Let designers edit a netlist at the same time, while viewers read; their lines are in the input.
    Desk,
    /// Serve this number of designers, and the viewers of the request, at the named pipes of a folder. An edit is on the disk before it is accepted, if
    /// that is asked for.
    LiveDesk {
        folder: &'a str,
        designers: u32,
        is_synced: bool,
    },
}

/// A command with its input and its numbers. The numbers are as they were given; a run reports those that are out of range.
#[derive(Drop)]
pub struct Request<'a> {
    /// The command.
    pub command: Command<'a>,
    /// The path of the file to read; `None` for standard input.
    pub file: Option<&'a str>,
    /// The number of threads, 2 if none is given.
    pub workers: u32,
    /// Several threads are used only from this number of modules on, 256 if none is given.
    pub least: u32,
    /// The number of viewers of a desk, 2 if none is given.
    pub viewers: u32,
}

impl<'a> Request<'a> {
    ghost use Rattle.std.specs.Prelude.{◌≡◌};
    ghost use Rattle.mp_request.specs.AskedNames.{asked_names};

    /// The names that the command is about, as they were given: of wires, or for `report` and `check` of modules and bundles.
    pub fn names(&self) -> &[&'a str]
        ensures { result.now ≡ asked_names self.now.command }
    {
        match &self.command {
            Command::Show(picture) => picture.wires.as_slice(),
            Command::Report(words) | Command::Measure(words) | Command::Check { words, .. } => {
                words.names.as_slice()
            }
            Command::Why { wire, .. } | Command::Path { wire, .. } => slice::from_ref(wire),
            _ => &[],
        }
    }
}
