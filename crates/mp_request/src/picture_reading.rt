//! Reads the words of a timing diagram.
ghost use Rattle.std.specs.Prelude.{IfOk, IsTrue};
ghost use Rattle.mp_request.specs.Labels.{is_label};

use crate::label::is_label;
use crate::parser::parser;
use crate::picture_words::PictureWords;
use crate::reading::{from, to, told_by};
use clap::error::ErrorKind;
use clap::{ArgMatches, Error};
use mp_text::USUAL_COLUMNS;
use std::alloc::{AllocError, Global};

/// The options of a timing diagram.
pub(crate) fn picture_words<'a>(
    alloc: Global,
    found: &ArgMatches<'a>,
) -> Result<PictureWords<'a>, Error>
    ensures { IfOk result (λ words. IsTrue (is_label words.unit.now)) }
{
    let unit = unit(alloc, found)?;
    let caused = pair(found, "causes");
    let causes = causes_time(alloc, caused)?;
    let wires = shown_wires(alloc, found, caused)?;
    Ok(PictureWords {
        wires,
        causes,
        from: from(found),
        to: to(found),
        columns: found.get_one::<u32>("columns").unwrap_or(USUAL_COLUMNS),
        ascii: found.get_flag("ascii"),
        hex: found.get_flag("hex"),
        svg: found.get_flag("svg"),
        json: found.get_flag("json"),
        unit,
    })
}

/// What the times of a picture are. The error comes if an SVG doesn't show one of its characters.
fn unit<'a>(alloc: Global, found: &ArgMatches<'a>) -> Result<&'a str, Error>
    ensures { IfOk result (λ label. IsTrue (is_label label.now)) }
{
    let label = found.get_str("unit").unwrap_or("time in units");
    if is_label(label) {
        return Ok(label);
    }
    let message =
        "invalid value for '--unit <TEXT>': control characters, U+FFFE and U+FFFF aren't allowed";
    Err(told_by(parser(alloc), ErrorKind::InvalidValue, message)?)
}

/// The time in the words of `--causes`; `None` if they aren't given.
fn causes_time(alloc: Global, caused: Option<(&str, &str)>) -> Result<Option<u64>, Error> {
    match caused {
        Some((_, time)) => Ok(Some(time_in(alloc, time)?)),
        None => Ok(None),
    }
}

/// The wires to show: the one in the words of `--causes`, if they are given, and those that are named.
fn shown_wires<'a>(
    alloc: Global,
    found: &ArgMatches<'a>,
    caused: Option<(&'a str, &'a str)>,
) -> Result<Vec<&'a str>, AllocError> {
    let mut wires = Vec::new(alloc);
    if let Some((wire, _)) = caused {
        wires.push(wire)?;
    }
    wires.extend_from_slice(found.get_strs("wire").unwrap_or(&[]))?;
    Ok(wires)
}

/// The two values of an option, or `None` if it isn't given.
fn pair<'a>(found: &ArgMatches<'a>, option: &str) -> Option<(&'a str, &'a str)> {
    let values = found.get_strs(option)?;
    Some((*values.first()?, *values.get(1)?))
}

/// Reads a time. The error says that the word isn't one.
fn time_in(alloc: Global, word: &str) -> Result<u64, Error> {
    match word.parse::<u64>() {
        Ok(time) => Ok(time),
        Err(_) => Err(no_time(alloc, word)?),
    }
}

/// The error of a TIME of `--causes` that isn't a number.
fn no_time(alloc: Global, word: &str) -> Result<Error, AllocError> {
    let message = format!(in alloc; "invalid value '{word}' for '--causes <WIRE> <TIME>'")?;
    told_by(parser(alloc), ErrorKind::InvalidValue, message.as_str())
}
