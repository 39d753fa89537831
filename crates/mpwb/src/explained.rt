//! What the codes and the kinds of module mean.
use crate::telling::fault_of_telling;
use mp_commands::RunFault;
use mp_request::{guide, put_explanation, put_titles, tell, unknown_word};
use mp_streams::{Out, Sink, WriteError, WriteSink};
use std::alloc::Global;
use std::io;

/// Tells what the word means, or what can be explained if there is none.
pub(crate) fn explain<R: Print + Eprint + AllocGlobal>(
    rt: &R,
    word: Option<&str>,
) -> Result<u8, RunFault> {
    let mut out = Out::new(rt.alloc(), WriteSink::new(io::writer(rt)))?;
    let is_known = put_explained(rt.alloc(), &mut out, word)?;
    out.flush()?;
    match word {
        Some(word) if !is_known => tell_unknown(rt, word),
        _ => Ok(0),
    }
}

/// Writes what the word means, or what can be explained if there is none, and returns whether it means something.
fn put_explained<T: Sink>(
    alloc: Global,
    out: &mut Out<T>,
    word: Option<&str>,
) -> Result<bool, WriteError> {
    let guide = guide(alloc)?;
    match word {
        Some(word) => Ok(put_explanation(out, &guide, word)?),
        None => {
            put_titles(out, &guide)?;
            Ok(true)
        }
    }
}

/// Tells that the word means nothing.
fn tell_unknown<R: Print + Eprint + AllocGlobal>(rt: &R, word: &str) -> Result<u8, RunFault> {
    tell(rt, &unknown_word(rt.alloc(), word)?).map_err(fault_of_telling)
}
