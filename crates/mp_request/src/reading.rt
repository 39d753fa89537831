//! Reads the words of the command line.
ghost use Rattle.std.specs.Prelude.{◌≡◌, ◌≢◌, IfOk, IfSome, IsTrue, None, codes};
ghost use Rattle.clap.specs.Values.{kind_of};
ghost use Rattle.clap.specs.declared.error.kind.ErrorKind.TheVariants as kinds;
ghost use Rattle.mp_request.specs.Asking.{file_of, label_in, label_of};
ghost use Rattle.mp_request.specs.Labels.{is_label};

use crate::command_line::CommandLine;
use crate::parser::{explain, parser};
use crate::picture_reading::picture_words;
use crate::range_words::RangeWords;
use crate::request::{Command, Request};
use crate::timescale_reading::timescale;
use clap::error::ErrorKind;
use clap::{ArgMatches, Command as Parser, Error};
use mp_text::USUAL_STEPS;
use std::alloc::{AllocError, Global};

/// FILE is this for standard input.
const STANDARD_INPUT: &str = "-";

/// Reads the words of the command line, the program's name first. The error is what to print instead of a run: help, the version, or what is wrong
/// with the words; or that memory ran out.
pub fn read_words<'a>(alloc: Global, words: &'a [String]) -> Result<CommandLine<'a>, Error>
    ensures file { IfOk result (λ asked. IfSome (file_of asked) (λ path. path.now ≢ codes "-")) }
    ensures label { IfOk result (λ asked. IfSome (label_of asked) (λ label. IsTrue (is_label label.now))) }
{
    let matches = parser(alloc)?.try_get_matches_from(words)?;
    asked(alloc, &matches)
}

/// The request of these matches.
fn asked<'a>(alloc: Global, matches: &ArgMatches<'a>) -> Result<CommandLine<'a>, Error>
    ensures file { IfOk result (λ asked. IfSome (file_of asked) (λ path. path.now ≢ codes "-")) }
    ensures label { IfOk result (λ asked. IfSome (label_of asked) (λ label. IsTrue (is_label label.now))) }
{
    let Some((word, found)) = matches.subcommand() else {
        return Err(no_command(alloc));
    };
    if word == "explain" {
        return Ok(CommandLine::Explain(found.get_str("word")));
    }
    match command_of(alloc, word, found)? {
        Some(command) => Ok(CommandLine::Run(request(command, found))),
        None => Err(no_command(alloc)),
    }
}

/// The error of a word of `explain` that means nothing. `AllocError` comes if memory runs out.
pub fn unknown_word(alloc: Global, word: &str) -> Result<Error, AllocError>
    ensures { IfOk result (λ error. kind_of error ≡ kinds.InvalidValue) }
{
    let message = format!(in alloc; "unknown code or kind of module '{word}'")?;
    unexplained(alloc, message.as_str())
}

/// The error of `explain` with this message.
fn unexplained(alloc: Global, message: &str) -> Result<Error, AllocError>
    ensures { IfOk result (λ error. kind_of error ≡ kinds.InvalidValue) }
{
    told_by(named_explain(alloc), ErrorKind::InvalidValue, message)
}

/// The command `explain`, under the name by which it is run.
fn named_explain<'a>(alloc: Global) -> Result<Parser<'a>, AllocError> {
    explain(alloc)?.bin_name("mpwb explain")
}

/// The error of words that name no command.
fn no_command(alloc: Global) -> Error {
    let message = "unrecognized subcommand";
    match told_by(parser(alloc), ErrorKind::InvalidSubcommand, message) {
        Ok(error) => error,
        Err(error) => Error::from(error),
    }
}

/// A command's error of this kind, with this message.
pub(crate) fn told_by(
    command: Result<Parser<'_>, AllocError>,
    kind: ErrorKind,
    message: &str,
) -> Result<Error, AllocError>
    ensures { IfOk result (λ error. kind_of error ≡ kind) }
{
    command?.error(kind, message)
}

/// The command that a word names, with its own arguments; `None` if it names none.
fn command_of<'a>(
    alloc: Global,
    word: &str,
    found: &ArgMatches<'a>,
) -> Result<Option<Command<'a>>, Error>
    ensures { IfOk result (λ command. IfSome command (λ c. IfSome (label_in c) (λ label. IsTrue (is_label label.now)))) }
{
    if word == "show" {
        let picture = picture_words(alloc, found)?;
        return Ok(Some(Command::Show(picture)));
    }
    if word == "dump" {
        return Ok(Some(Command::Dump(timescale(alloc, found)?)));
    }
    if let Some(command) = command_of_range(alloc, word, found)? {
        return Ok(Some(command));
    }
    match plain_command(word) {
        Some(command) => Ok(Some(command)),
        None => Ok(command_with_arguments(word, found)),
    }
}

/// The command without arguments of its own that a word names; `None` if it names none.
fn plain_command<'a>(word: &str) -> Option<Command<'a>>
    ensures { IfSome result (λ c. label_in c ≡ None) }
{
    Some(match word {
        "waves" => Command::Waves,
        "steady" => Command::Steady,
        "graph" => Command::Graph,
        "verilog" => Command::Verilog,
        "play" => Command::Play,
        _ => return None,
    })
}

/// The command about a range of times, other than `show`, that a word names; `None` if it names none.
fn command_of_range<'a>(
    alloc: Global,
    word: &str,
    found: &ArgMatches<'a>,
) -> Result<Option<Command<'a>>, AllocError>
    ensures { IfOk result (λ command. IfSome command (λ c. label_in c ≡ None)) }
{
    Ok(Some(match word {
        "report" => Command::Report(range_words(alloc, found, "at")?),
        "check" => Command::Check {
            words: range_words(alloc, found, "at")?,
            is_brief: found.get_flag("brief"),
        },
        "measure" => Command::Measure(range_words(alloc, found, "wire")?),
        _ => return Ok(None),
    }))
}

/// The range of times, and the names in this option.
fn range_words<'a>(
    alloc: Global,
    found: &ArgMatches<'a>,
    option: &str,
) -> Result<RangeWords<'a>, AllocError> {
    Ok(RangeWords {
        names: Vec::from_slice(alloc, found.get_strs(option).unwrap_or(&[]))?,
        from: from(found),
        to: to(found),
    })
}

/// The other command with arguments of its own that a word names; `None` if it names none.
fn command_with_arguments<'a>(word: &str, found: &ArgMatches<'a>) -> Option<Command<'a>>
    ensures { IfSome result (λ c. label_in c ≡ None) }
{
    Some(match word {
        "why" => Command::Why {
            wire: wire(found),
            time: time(found),
            steps: found.get_one::<u32>("steps").unwrap_or(USUAL_STEPS),
        },
        "path" => Command::Path {
            wire: wire(found),
            time: time(found),
            from: found.get_one::<u64>("from"),
        },
        "waits" => Command::Waits { time: time(found) },
        "desk" => desk_command(found),
        _ => return None,
    })
}

/// A desk that serves people at a folder if there is `--at`, and otherwise one whose lines are in its input.
fn desk_command<'a>(found: &ArgMatches<'a>) -> Command<'a>
    ensures { label_in result ≡ None }
{
    match found.get_str("at") {
        None => Command::Desk,
        Some(folder) => Command::LiveDesk {
            folder,
            designers: found.get_one::<u32>("designers").unwrap_or(2),
            is_synced: found.get_flag("sync"),
        },
    }
}

/// The argument WIRE.
fn wire<'a>(found: &ArgMatches<'a>) -> &'a str {
    found.get_str("wire").unwrap_or("")
}

/// The argument TIME.
fn time(found: &ArgMatches<'_>) -> u64 {
    found.get_one::<u64>("time").unwrap_or(0)
}

/// The first time of a range, 0 if none is given.
pub(crate) fn from(found: &ArgMatches<'_>) -> u64 {
    found.get_one::<u64>("from").unwrap_or(0)
}

/// The end of a range of times, 2^64 - 1 if none is given.
pub(crate) fn to(found: &ArgMatches<'_>) -> u64 {
    found.get_one::<u64>("to").unwrap_or(u64::MAX)
}

fn request<'a>(command: Command<'a>, found: &ArgMatches<'a>) -> Request<'a>
    ensures file { IfSome result.file (λ path. path.now ≢ codes "-") }
    ensures command { result.command ≡ command.entry }
{
    Request {
        command,
        file: path_in(found.get_str("file")),
        workers: found.get_one::<u32>("workers").unwrap_or(2),
        least: found.get_one::<u32>("least").unwrap_or(256),
        viewers: found.get_one::<u32>("viewers").unwrap_or(2),
    }
}

/// The path of FILE; `None` for standard input.
fn path_in<'a>(word: Option<&'a str>) -> Option<&'a str>
    ensures { IfSome result (λ path. path.now ≢ codes "-") }
{
    let path = word?;
    if path == STANDARD_INPUT {
        return None;
    }
    Some(path)
}
