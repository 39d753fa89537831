//! The file that is read.
ghost use Rattle.std.specs.Prelude.{◌≡◌, IfOk, string_bytes};
ghost use Rattle.mpwb.specs.InputFiles.{words_of, unread_line};

use mp_commands::RunFault;
use std::alloc::{AllocError, Global};
use std::fs::{File, OpenFile};
use std::io::{Error, ErrorKind};
use std::rt::Files;

/// Why a file can't be read.
#[derive(Clone, Copy, Debug, PartialEq, Eq)]
pub(crate) enum FileCause {
    NoSuchFile,
    IsDirectory,
    NotAllowed,
}

/// Why a file isn't opened: a cause that is known, or the fault of the run.
#[derive(Clone, Copy, Debug, PartialEq, Eq)]
pub(crate) enum FileFault {
    Known(FileCause),
    Run(RunFault),
}

/// Opens the file for reading. If the system gives no known cause for a failure, `ReadFailed` or `OutOfMemory` comes.
pub(crate) fn open_file<R: Files>(rt: &R, path: &str) -> Result<R::File, FileFault> {
    let file = match File::open(rt, path) {
        Ok(file) => file,
        Err(error) => return Err(fault_of(&error)),
    };
    if is_directory(&file) {
        return Err(FileFault::Known(FileCause::IsDirectory));
    }
    Ok(file)
}

/// Whether the system says that this is a directory, which can be opened but not read.
fn is_directory<F: OpenFile>(file: &F) -> bool {
    match file.metadata() {
        Ok(found) => found.is_dir(),
        Err(_) => false,
    }
}

fn fault_of(error: &Error) -> FileFault {
    let kind = error.kind();
    if kind == ErrorKind::NotFound || kind == ErrorKind::NotADirectory {
        FileFault::Known(FileCause::NoSuchFile)
    } else if kind == ErrorKind::PermissionDenied {
        FileFault::Known(FileCause::NotAllowed)
    } else if kind == ErrorKind::OutOfMemory {
        FileFault::Run(RunFault::OutOfMemory)
    } else {
        FileFault::Run(RunFault::ReadFailed)
    }
}

impl FileCause {
    ghost use Rattle.std.specs.Prelude.{◌≡◌};
    ghost use Rattle.mpwb.specs.InputFiles.{words_of};

    fn words(self) -> &'static str
        ensures { result.now ≡ words_of self }
    {
        match self {
            FileCause::NoSuchFile => "no such file",
            FileCause::IsDirectory => "is a directory",
            FileCause::NotAllowed => "permission denied",
        }
    }
}

/// The line that says why the file of this name can't be read, without its line feed.
pub(crate) fn unread_line(alloc: Global, name: &str, cause: FileCause) -> Result<String, AllocError>
    ensures { IfOk result (λ line. string_bytes line ≡ unread_line name.now cause) }
{
    let words = cause.words();
    format!(in alloc; "mpwb: can't read {name}: {words}")
}
