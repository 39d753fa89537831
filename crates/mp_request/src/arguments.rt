//! The arguments of the commands.
use crate::argument_form::{ArgumentForm, ArgumentKind};

/// Groups of arguments that commands share.
#[derive(Clone, Copy)]
pub(crate) enum Arguments {
    /// FILE, and the number of threads.
    Input,
    /// A range of times.
    Range,
    /// Modules and bundles by name.
    Places,
    /// Whether findings and late changes are grouped.
    Groups,
    /// Wires by name.
    Wires,
    /// How a picture is drawn.
    Drawing,
    /// How long a unit of time is in a dump.
    Timescale,
    /// A wire.
    Wire,
    /// A time.
    Moment,
    /// The number of steps of a chain.
    Chain,
    /// The time from which on a chain counts.
    Since,
    /// The seats of a desk. The number of designers has no default, so it is refused without a live desk.
    Desk,
    /// The word to explain.
    Word,
}

impl Arguments {
    /// The arguments of the group, in order.
    pub(crate) fn forms(self) -> &'static [ArgumentForm] {
        match self {
            Arguments::Input => &INPUT,
            Arguments::Range => &RANGE,
            Arguments::Places => &PLACES,
            Arguments::Groups => &GROUPS,
            Arguments::Wires => &WIRES,
            Arguments::Drawing => &DRAWING,
            Arguments::Timescale => &TIMESCALE,
            Arguments::Wire => &WIRE,
            Arguments::Moment => &MOMENT,
            Arguments::Chain => &CHAIN,
            Arguments::Since => &SINCE,
            Arguments::Desk => &DESK,
            Arguments::Word => &WORD,
        }
    }
}

static INPUT: [ArgumentForm; 3] = [
    ArgumentForm {
        name: "file",
        value: "FILE",
        help: "The netlist; standard input if it is `-` or not given",
        takes: ArgumentKind::Word,
    },
    ArgumentForm {
        name: "workers",
        value: "N",
        help: "The number of threads, 1 to 16",
        takes: ArgumentKind::Number("2"),
    },
    ArgumentForm {
        name: "least",
        value: "N",
        help: "Use several threads only from N modules on, 1 to 4096",
        takes: ArgumentKind::Number("256"),
    },
];

static RANGE: [ArgumentForm; 2] = [
    ArgumentForm {
        name: "from",
        value: "T",
        help: "The first time of the range, by default 0",
        takes: ArgumentKind::Time,
    },
    ArgumentForm {
        name: "to",
        value: "T",
        help: "The end of the range, not included, by default the horizon",
        takes: ArgumentKind::Time,
    },
];

static PLACES: [ArgumentForm; 1] = [ArgumentForm {
    name: "at",
    value: "NAME",
    help: "Only lines about modules and bundles of this name; repeat it for others",
    takes: ArgumentKind::Words,
}];

static GROUPS: [ArgumentForm; 1] = [ArgumentForm {
    name: "brief",
    value: "",
    help: "Write one line for all findings of a module or bundle that have one code",
    takes: ArgumentKind::Nothing,
}];

static WIRES: [ArgumentForm; 1] = [ArgumentForm {
    name: "wire",
    value: "NAME",
    help: "Measure only this wire, and no bundle; repeat it for others",
    takes: ArgumentKind::Words,
}];

static DRAWING: [ArgumentForm; 8] = [
    ArgumentForm {
        name: "columns",
        value: "N",
        help: "The greatest number of columns, 1 to 10000",
        takes: ArgumentKind::Number("72"),
    },
    ArgumentForm {
        name: "wire",
        value: "NAME",
        help: "Show this wire; repeat it for others, in this order; by default all wires",
        takes: ArgumentKind::Words,
    },
    ArgumentForm {
        name: "ascii",
        value: "",
        help: "Draw with ASCII characters only",
        takes: ArgumentKind::Nothing,
    },
    ArgumentForm {
        name: "hex",
        value: "",
        help: "Write levels in hexadecimal, after `0x`",
        takes: ArgumentKind::Nothing,
    },
    ArgumentForm {
        name: "svg",
        value: "",
        help: "Write an SVG file, with at most 1200 columns",
        takes: ArgumentKind::Nothing,
    },
    ArgumentForm {
        name: "unit",
        value: "TEXT",
        help: "The label of the times in an SVG file, by default `time in units`",
        takes: ArgumentKind::WordWith("svg"),
    },
    ArgumentForm {
        name: "causes",
        value: "",
        help: "Draw the causes of the level of WIRE at TIME as arrows, in an SVG file",
        takes: ArgumentKind::PairWith(&["WIRE", "TIME"], "svg"),
    },
    ArgumentForm {
        name: "json",
        value: "",
        help: "Write WaveJSON, which WaveDrom draws",
        takes: ArgumentKind::NothingWithout(&["ascii", "svg", "unit", "causes"]),
    },
];

static TIMESCALE: [ArgumentForm; 1] = [ArgumentForm {
    name: "unit",
    value: "UNIT",
    help: "The length of a unit of time, as `10ps`, by default `1ns`",
    takes: ArgumentKind::OneWord,
}];

static WIRE: [ArgumentForm; 1] = [ArgumentForm {
    name: "wire",
    value: "WIRE",
    help: "The name of the wire",
    takes: ArgumentKind::NeededWord,
}];

static MOMENT: [ArgumentForm; 1] = [ArgumentForm {
    name: "time",
    value: "TIME",
    help: "The time; from the horizon on it is the last time before it",
    takes: ArgumentKind::NeededTime,
}];

static CHAIN: [ArgumentForm; 1] = [ArgumentForm {
    name: "steps",
    value: "N",
    help: "The greatest number of steps, 1 to 1048576",
    takes: ArgumentKind::Number("20"),
}];

static SINCE: [ArgumentForm; 1] = [ArgumentForm {
    name: "from",
    value: "T",
    help: "Count only from this time on, which has to be below TIME",
    takes: ArgumentKind::Time,
}];

static DESK: [ArgumentForm; 4] = [
    ArgumentForm {
        name: "at",
        value: "FOLDER",
        help: "Serve designers and viewers at the named pipes in this folder",
        takes: ArgumentKind::WordWith("file"),
    },
    ArgumentForm {
        name: "designers",
        value: "N",
        help: "The number of designers with --at, 1 to 8, by default 2",
        takes: ArgumentKind::NumberWith("at"),
    },
    ArgumentForm {
        name: "viewers",
        value: "N",
        help: "The number of viewers, 1 to 32, or with --at 0 to 24",
        takes: ArgumentKind::Number("2"),
    },
    ArgumentForm {
        name: "sync",
        value: "",
        help: "With --at, wait before `accepted` until the edit is on the disk",
        takes: ArgumentKind::NothingWith("at"),
    },
];

static WORD: [ArgumentForm; 1] = [ArgumentForm {
    name: "word",
    value: "WORD",
    help: "The number or the name of a code, or a kind of module; without it a list of all",
    takes: ArgumentKind::Word,
}];
