//! The file of a live desk's journal.
use mp_streams::{Failed, Sink};
use std::fs;
use std::fs::{File, Metadata};
use std::io::Write;
use std::os::unix::fs::MetadataExt;

/// The file of a journal, as a sink. It takes bytes while it is the file at its path, and not after that was removed or replaced. Its bytes aren't
/// known.
#[derive(Drop)]
pub(crate) struct JournalFile<'a> {
    files: &'a HostRuntime,
    path: &'a str,
    file: File,
    is_synced: bool,
    faults: u64,
}

impl<'a> JournalFile<'a> {
    ghost use Rattle.std.specs.Prelude.{◌≡◌, ◌<◌, ◌≤◌, length, IfSome};

    /// The file that was opened at a path. What it takes is on the disk before it answers, if that is asked for.
    pub(crate) fn new(
        files: &'a HostRuntime,
        path: &'a str,
        file: File,
        is_synced: bool,
    ) -> JournalFile<'a> {
        JournalFile {
            files,
            path,
            file,
            is_synced,
            faults: 0,
        }
    }

    /// Writes bytes from the front, and returns how many; `None` if that fails, or if none is written.
    fn write(&mut self, bytes: &[u8]) -> Option<usize>
        ensures count { IfSome result (λ n. (0 < n) × (n ≤ length bytes.now)) }
        ensures faults { self.new.faults ≡ self.old.faults }
    {
        let there = fs::metadata(self.files, self.path).ok()?;
        let opened = self.file.metadata().ok()?;
        if !is_same(&there, &opened) {
            return None;
        }
        let count = self.file.write(bytes).ok()?;
        if count == 0 {
            return None;
        }
        if self.is_synced && self.file.sync_data().is_err() {
            // else the next desk would make an edit that was refused
            self.file.set_len(there.len()).ok()?;
            return None;
        }
        Some(count)
    }
}

impl Sink for JournalFile<'_> {
    ghost use Rattle.std.specs.Prelude.{None};

    ghost taken = { λ file. None };

    ghost fault_count = { λ file. file.faults };

    fn put(&mut self, bytes: &[u8]) -> Result<usize, Failed> {
        match self.write(bytes) {
            Some(count) => Ok(count),
            None => {
                self.faults = self.faults.saturating_add(1);
                Err(Failed)
            }
        }
    }

    fn faults(&self) -> u64 {
        self.faults
    }
}

/// Whether both are of one file.
fn is_same(one: &Metadata, two: &Metadata) -> bool {
    one.ino() == two.ino() && one.dev() == two.dev()
}
