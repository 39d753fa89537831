//! The commands and their options, from which `clap` parses.
use crate::arguments::Arguments;
use crate::command_form::CommandForm;
use crate::help::{
    ABOUT, CHECK, CHECK_LONG, MEASURE, MEASURE_LONG, PATH, PATH_LONG, REPORT, REPORT_LONG, SHOW,
    SHOW_LONG, STATUS, STEADY, STEADY_LONG, WAITS, WAITS_LONG, WAVES, WAVES_LONG, WHY, WHY_LONG,
};
use crate::help_editing::{DESK, DESK_LONG, EXPLAIN, EXPLAIN_LONG, PLAY, PLAY_LONG};
use crate::help_exports::{DUMP, DUMP_LONG, GRAPH, GRAPH_LONG, VERILOG, VERILOG_LONG};
use clap::Command as Parser;
use std::alloc::{AllocError, Global};

/// The commands that read a netlist, in the order in which help lists them.
static COMMANDS: [CommandForm; 14] = [
    CommandForm {
        name: "waves",
        about: WAVES,
        long_about: WAVES_LONG,
        arguments: &[Arguments::Input],
    },
    CommandForm {
        name: "report",
        about: REPORT,
        long_about: REPORT_LONG,
        arguments: &[Arguments::Range, Arguments::Places, Arguments::Input],
    },
    CommandForm {
        name: "check",
        about: CHECK,
        long_about: CHECK_LONG,
        arguments: &[
            Arguments::Range,
            Arguments::Places,
            Arguments::Groups,
            Arguments::Input,
        ],
    },
    CommandForm {
        name: "dump",
        about: DUMP,
        long_about: DUMP_LONG,
        arguments: &[Arguments::Timescale, Arguments::Input],
    },
    CommandForm {
        name: "show",
        about: SHOW,
        long_about: SHOW_LONG,
        arguments: &[Arguments::Range, Arguments::Drawing, Arguments::Input],
    },
    CommandForm {
        name: "why",
        about: WHY,
        long_about: WHY_LONG,
        arguments: &[
            Arguments::Wire,
            Arguments::Moment,
            Arguments::Chain,
            Arguments::Input,
        ],
    },
    CommandForm {
        name: "path",
        about: PATH,
        long_about: PATH_LONG,
        arguments: &[
            Arguments::Wire,
            Arguments::Moment,
            Arguments::Since,
            Arguments::Input,
        ],
    },
    CommandForm {
        name: "waits",
        about: WAITS,
        long_about: WAITS_LONG,
        arguments: &[Arguments::Moment, Arguments::Input],
    },
    CommandForm {
        name: "measure",
        about: MEASURE,
        long_about: MEASURE_LONG,
        arguments: &[Arguments::Range, Arguments::Wires, Arguments::Input],
    },
    CommandForm {
        name: "steady",
        about: STEADY,
        long_about: STEADY_LONG,
        arguments: &[Arguments::Input],
    },
    CommandForm {
        name: "graph",
        about: GRAPH,
        long_about: GRAPH_LONG,
        arguments: &[Arguments::Input],
    },
    CommandForm {
        name: "verilog",
        about: VERILOG,
        long_about: VERILOG_LONG,
        arguments: &[Arguments::Input],
    },
    CommandForm {
        name: "play",
        about: PLAY,
        long_about: PLAY_LONG,
        arguments: &[Arguments::Input],
    },
    CommandForm {
        name: "desk",
        about: DESK,
        long_about: DESK_LONG,
        arguments: &[Arguments::Input, Arguments::Desk],
    },
];

/// The command that tells what a word means.
static EXPLAINING: CommandForm = CommandForm {
    name: "explain",
    about: EXPLAIN,
    long_about: EXPLAIN_LONG,
    arguments: &[Arguments::Word],
};

/// The parser of all words.
pub(crate) fn parser<'a>(alloc: Global) -> Result<Parser<'a>, AllocError> {
    let mut parser = program(alloc)?;
    for form in commands() {
        parser = with_command(parser, form.command(alloc))?;
    }
    with_command(parser, explain(alloc))
}

/// The parser with one more command.
fn with_command<'a>(
    parser: Parser<'a>,
    command: Result<Parser<'a>, AllocError>,
) -> Result<Parser<'a>, AllocError> {
    match command {
        Ok(command) => parser.subcommand(command),
        Err(error) => {
            drop(parser);
            Err(error)
        }
    }
}

/// The commands that read a netlist. It is a function, so that proofs above don't look at their texts.
fn commands() -> &'static [CommandForm] {
    &COMMANDS
}

/// The program, with no command yet.
fn program<'a>(alloc: Global) -> Result<Parser<'a>, AllocError> {
    let parser = Parser::new(alloc, "mpwb").about(ABOUT).after_help(STATUS);
    let parser = parser.version("0.1.0").subcommand_required(true);
    parser.bin_name("mpwb")
}

/// The command that tells what a word means.
pub(crate) fn explain<'a>(alloc: Global) -> Result<Parser<'a>, AllocError> {
    EXPLAINING.short_command(alloc)
}
