//! What is shown of a line that isn't read.
use mp_request::fault_text;
use mp_streams::{ReadSource, take_all};
use mp_text::{TextCode, TextError};
use std::alloc::{AllocError, Global};
use std::fs::{self, File};
use std::hash::RandomState;
use std::rt::Files;
use std::str;

/// How many bytes a netlist's text may have, in any format.
const TEXT_BYTES: usize = 1_073_741_824;

/// Shows the line of a file that isn't read, with the word at fault and what the fault means, if the memory for it can be had. A file that isn't
/// regular can't be read once more, and nothing is shown.
pub(crate) fn show_fault<R: Files + Eprint + AllocGlobal>(
    rt: &R,
    keys: RandomState,
    path: &str,
    error: TextError,
) {
    let Some(text) = text_of(rt, path, error) else {
        return;
    };
    if let Ok(shown) = shown(rt.alloc(), keys, text.as_slice(), error) {
        if let Ok(lines) = str::from_utf8(shown.as_slice()) {
            let _ = rt.eprintln(lines);
        }
    }
}

/// The text of a regular file, and none if it can't be read. No text is wanted for line 0, which is none.
fn text_of<R: Files + AllocGlobal>(rt: &R, path: &str, error: TextError) -> Option<Vec<u8>> {
    if error.line == 0 {
        return Some(Vec::new(rt.alloc()));
    }
    if !fs::metadata(rt, path).ok()?.is_file() {
        return None;
    }
    let mut source = ReadSource::new(File::open(rt, path).ok()?);
    take_all(rt.alloc(), &mut source, TEXT_BYTES).ok()
}

/// What is shown of the line of the error.
fn shown(
    alloc: Global,
    keys: RandomState,
    text: &[u8],
    error: TextError,
) -> Result<Vec<u8>, AllocError> {
    let meaning = match error.code {
        TextCode::Refused(refusal) => refusal.to_string(alloc)?,
        code => code.to_string(alloc)?,
    };
    fault_text(alloc, keys, text, error, meaning.as_str())
}
