//! Prints help, the version or an error instead of a run.
ghost use Rattle.std.specs.Prelude.{◌≡◌, IfOk, Err};
ghost use Rattle.clap.specs.Values.{kind_of};
ghost use Rattle.clap.specs.declared.error.kind.ErrorKind.TheVariants as kinds;
ghost use Rattle.mp_request.specs.WordErrors.{status_of_kind};
ghost use Rattle.mp_request.specs.declared.telling.TellError.TheVariants as tell_errors;

use clap::Error;
use clap::error::ErrorKind;
use thiserror::Error as DeriveError;

/// The reason why nothing could be printed.
#[derive(Clone, Copy, Debug, PartialEq, Eq, DeriveError)]
pub enum TellError {
    /// Memory ran out while the command line was read.
    #[error("out of memory")]
    OutOfMemory,
    /// Help or the version couldn't be written to standard output.
    #[error("write failed")]
    WriteFailed,
}

/// Prints what `read_words` returned instead of a request, and returns the exit status: help and the version to standard output with 0, an error to
/// standard error with 2. `OutOfMemory` comes if memory ran out while the command line was read, and `WriteFailed` if help or the version can't be
/// written.
pub fn tell<R: Print + Eprint>(rt: &R, error: &Error) -> Result<u8, TellError>
    ensures memory { kind_of error.now ≡ kinds.OutOfMemory → result ≡ Err tell_errors.OutOfMemory }
    ensures status { IfOk result (λ status. status ≡ status_of_kind (kind_of error.now)) }
{
    if matches!(error.kind(), ErrorKind::OutOfMemory) {
        return Err(TellError::OutOfMemory);
    }
    let printed = error.print(rt);
    if error.use_stderr() {
        return Ok(2);
    }
    match printed {
        Ok(()) => Ok(0),
        Err(_) => Err(TellError::WriteFailed),
    }
}
