//! Why a run ends early.
ghost use Rattle.std.specs.Prelude.{◌≡◌, ◌++◌};
ghost use Rattle.mp_commands.specs.command_runs.Clauses.{[], IfOk, map, slice_index_or, WriteFailed, OutOfMemory, status_of, line_of, text_line, wire_fault_line, place_fault_line, numbered, fault_of_text, fault_of_take, fault_of_write};

use mp_netlist::EditError;
use mp_streams::{Failed, TakeError, WriteError};
use mp_text::{LineError, TextCode, TextError};
use std::alloc::{AllocError, Global};
use thiserror::Error;

/// Why a run ends early.
#[derive(Clone, Copy, Debug, PartialEq, Eq, Error)]
pub enum RunFault {
    /// The netlist's text is not read.
    #[error("{0}")]
    Text(TextError),
    /// A number of workers or of tasks is out of its limits.
    #[error("bad count")]
    BadCount,
    /// A read of the input failed.
    #[error("read failed")]
    ReadFailed,
    /// A write of the output failed.
    #[error("write failed")]
    WriteFailed,
    /// Memory ran out.
    #[error("out of memory")]
    OutOfMemory,
    /// A designer or a viewer found no place at a desk.
    #[error("no place")]
    NoPlace,
    /// The wire at this place, counted from 0, is the first of those that are asked for that doesn't exist.
    #[error("no such wire")]
    NoSuchWire(usize),
    /// The name at this place, counted from 0, is the first of those that are asked for that neither a module nor a bundle has.
    #[error("no such module or bundle")]
    NoSuchPlace(usize),
}

/// `OutOfMemory` of a text becomes that of the run.
impl From<TextError> for RunFault {
    ghost from_gives = { λ error fault. fault ≡ fault_of_text error };

    fn from(error: TextError) -> RunFault {
        match error.code {
            TextCode::Line(LineError::OutOfMemory) => RunFault::OutOfMemory,
            _ => RunFault::Text(error),
        }
    }
}

impl From<TakeError> for RunFault {
    ghost from_gives = { λ error fault. fault ≡ fault_of_take error };

    fn from(error: TakeError) -> RunFault {
        match error {
            TakeError::Failed => RunFault::ReadFailed,
            TakeError::OutOfMemory => RunFault::OutOfMemory,
        }
    }
}

impl From<WriteError> for RunFault {
    ghost from_gives = { λ error fault. fault ≡ fault_of_write error };

    fn from(error: WriteError) -> RunFault {
        match error {
            WriteError::WriteFailed => RunFault::WriteFailed,
            WriteError::OutOfMemory => RunFault::OutOfMemory,
        }
    }
}

impl From<Failed> for RunFault {
    ghost from_gives = { λ _ fault. fault ≡ WriteFailed };

    fn from(_failed: Failed) -> RunFault {
        RunFault::WriteFailed
    }
}

impl From<AllocError> for RunFault {
    ghost from_gives = { λ _ fault. fault ≡ OutOfMemory };

    fn from(_error: AllocError) -> RunFault {
        RunFault::OutOfMemory
    }
}

/// The status with which the program ends: 1 for what was asked of it, 3 for a device, 4 for lack of memory or of a place.
pub fn exit_status(fault: &RunFault) -> u8
    ensures { result ≡ status_of fault.now }
{
    match fault {
        RunFault::Text(_) | RunFault::BadCount => 1,
        RunFault::NoSuchWire(_) | RunFault::NoSuchPlace(_) => 1,
        RunFault::ReadFailed | RunFault::WriteFailed => 3,
        RunFault::OutOfMemory | RunFault::NoPlace => 4,
    }
}

/// The line that reports the fault, without its line feed. `names` are the names in the request, as they were given.
pub fn fault_line(alloc: Global, fault: &RunFault, names: &[&str]) -> Result<Vec<u8>, AllocError>
    ensures { IfOk result (λ line. line.items ≡ line_of fault.now (map (λ name. name.now) names.now)) }
{
    match fault {
        RunFault::Text(error) => text_line(alloc, error.line, error.code),
        RunFault::BadCount => Vec::from_slice(alloc, b"mpwb: bad count"),
        RunFault::ReadFailed => Vec::from_slice(alloc, b"mpwb: read failed"),
        RunFault::WriteFailed => Vec::from_slice(alloc, b"mpwb: write failed"),
        RunFault::OutOfMemory => Vec::from_slice(alloc, b"mpwb: out of memory"),
        RunFault::NoPlace => Vec::from_slice(alloc, b"mpwb: no place"),
        RunFault::NoSuchWire(place) => wire_line(alloc, name_at(names, *place)),
        RunFault::NoSuchPlace(place) => place_line(alloc, name_at(names, *place)),
    }
}

/// The name at this place; empty if there is none.
fn name_at<'a>(names: &[&'a str], place: usize) -> &'a str
    ensures { result.now ≡ slice_index_or (map (λ name. name.now) names.now) place [] }
{
    names.get(place).copied().unwrap_or("")
}

fn wire_line(alloc: Global, wire: &str) -> Result<Vec<u8>, AllocError>
    ensures { IfOk result (λ text. text.items ≡ wire_fault_line wire.now) }
{
    named_line(alloc, b"mpwb: no such wire: ", wire)
}

fn place_line(alloc: Global, name: &str) -> Result<Vec<u8>, AllocError>
    ensures { IfOk result (λ text. text.items ≡ place_fault_line name.now) }
{
    named_line(alloc, b"mpwb: no such module or bundle: ", name)
}

/// The line of a fault with a name behind it.
fn named_line(alloc: Global, front: &[u8], name: &str) -> Result<Vec<u8>, AllocError>
    ensures { IfOk result (λ text. text.items ≡ front.now ++ name.now) }
{
    let mut text = Vec::from_slice(alloc, front)?;
    text.extend_from_slice(name.as_bytes())?;
    Ok(text)
}

fn text_line(alloc: Global, line: u32, code: TextCode) -> Result<Vec<u8>, AllocError>
    ensures { IfOk result (λ text. text.items ≡ text_line line code) }
{
    let front = format!(in alloc; "mpwb: line {line}: ")?;
    let mut text = front.into_bytes();
    push_numbered(&mut text, code.number(), code.name())?;
    if let TextCode::Refused(cause) = code {
        text.extend_from_slice(b": ")?;
        let number = cause.number();
        push_numbered(&mut text, number, EditError::name_of(number).unwrap_or(""))?;
    }
    Ok(text)
}

/// Puts the number, a space and the name behind the text.
fn push_numbered(text: &mut Vec<u8>, number: u32, name: &str) -> Result<(), AllocError>
    ensures { IfOk result (λ _. text.new.items ≡ text.old.items ++ numbered number name.now) }
{
    let digits = number.to_string(*text.allocator())?;
    text.extend_from_slice(digits.as_bytes())?;
    text.push(b' ')?;
    text.extend_from_slice(name.as_bytes())
}
