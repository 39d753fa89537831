//! Messages on standard error.
use crate::input_file::{FileCause, unread_line};
use mp_commands::{RunFault, fault_line};
use mp_request::TellError;
use std::str;

/// The name in the message for a file whose name is empty.
const NO_NAME: &str = "a file with an empty name";

/// The fault of a run that couldn't print its message.
pub(crate) fn fault_of_telling(error: TellError) -> RunFault {
    match error {
        TellError::OutOfMemory => RunFault::OutOfMemory,
        TellError::WriteFailed => RunFault::WriteFailed,
    }
}

/// Writes the fault's line, if the memory for it can be had. The wires are those that were asked for.
pub(crate) fn tell_fault<R: Eprint + AllocGlobal>(rt: &R, fault: &RunFault, wires: &[&str]) {
    if let Ok(line) = fault_line(rt.alloc(), fault, wires) {
        if let Ok(text) = str::from_utf8(line.as_slice()) {
            let _ = rt.eprintln(text);
        }
    }
}

/// Writes why the file of this name can't be read, if the memory for it can be had.
pub(crate) fn tell_unread<R: Eprint + AllocGlobal>(rt: &R, name: &str, cause: FileCause) {
    let shown = if name.is_empty() { NO_NAME } else { name };
    if let Ok(line) = unread_line(rt.alloc(), shown, cause) {
        let _ = rt.eprintln(line.as_str());
    }
}
