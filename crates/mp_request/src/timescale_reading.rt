//! Reads how long a unit of time is in a dump.
use crate::parser::parser;
use crate::reading::told_by;
use clap::error::ErrorKind;
use clap::{ArgMatches, Error};
use mp_exports::Timescale;
use std::alloc::{AllocError, Global};

/// How long a unit of time is in a dump, 1 ns if nothing is given. The error says that IEEE Std 1364 doesn't allow the length.
pub(crate) fn timescale(alloc: Global, found: &ArgMatches<'_>) -> Result<Timescale, Error> {
    let Some(word) = found.get_str("unit") else {
        return Ok(Timescale::nanosecond());
    };
    match Timescale::of_word(word) {
        Some(timescale) => Ok(timescale),
        None => Err(no_timescale(alloc, word)?),
    }
}

/// The error of a word that names no timescale.
fn no_timescale(alloc: Global, word: &str) -> Result<Error, AllocError> {
    let allowed = "use 1, 10 or 100 of s, ms, us, ns, ps or fs, as in 10ps";
    let message = format!(in alloc; "invalid value '{word}' for '--unit <UNIT>': {allowed}")?;
    told_by(parser(alloc), ErrorKind::InvalidValue, message.as_str())
}
