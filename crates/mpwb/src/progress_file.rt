//! The file in which a run writes how far it is.
use mp_commands::Progress;
use std::env;
use std::fs::{OpenFile, OpenOptions};

/// The environment variable that names the file.
const VARIABLE: &str = "MPWB_PROGRESS";

/// The regular file that the environment names, to be appended to. None if there is no such file. It is opened for reading as well, since a named pipe
/// would otherwise wait for its reader.
pub(crate) fn open_progress(files: &HostRuntime) -> Option<Progress> {
    let path = env::var(files, VARIABLE).ok()?;
    let file = OpenOptions::new()
        .read(true)
        .append(true)
        .open(files, path.as_str())
        .ok()?;
    if file.metadata().ok()?.is_file() {
        Some(Progress::new(file))
    } else {
        None
    }
}
