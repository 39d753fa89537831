//! The files of a live desk's folder.
use mp_netlist::Netlist;
use mp_seats::JournalNotice;
use mp_streams::{Failed, Out, ReadSource, TakeError, WriteSink, take_all};
use mp_text::put_netlist;
use std::alloc::{AllocError, Global};
use std::fs;
use std::fs::{File, OpenOptions};
use std::io::ErrorKind;

/// A journal has fewer bytes: 4,096 edits of the longest lines have half as many.
const MAX_JOURNAL: usize = 1 << 29;

/// The paths of a live desk's files.
#[derive(Drop)]
pub(crate) struct DeskFiles {
    /// The journal: each accepted edit as the line of a script.
    pub edits: String,
    /// The netlist after the last edit.
    pub netlist: String,
    /// The same while it is written.
    next: String,
}

impl DeskFiles {
    /// Those of a folder.
    pub(crate) fn new(alloc: Global, folder: &str) -> Result<DeskFiles, AllocError> {
        Ok(DeskFiles {
            edits: format!(in alloc; "{folder}/edits")?,
            netlist: format!(in alloc; "{folder}/netlist.net")?,
            next: format!(in alloc; "{folder}/netlist.net.new")?,
        })
    }

    /// What the journal has; nothing if there is none. `Failed` comes if it can't be read or is too long, and `OutOfMemory` if memory runs out.
    pub(crate) fn read_edits(
        &self,
        files: &HostRuntime,
        alloc: Global,
    ) -> Result<Vec<u8>, TakeError> {
        match File::open(files, self.edits.as_str()) {
            Ok(file) => {
                let edits = take_all(alloc, &mut ReadSource::new(file), MAX_JOURNAL)?;
                if edits.len() < MAX_JOURNAL {
                    Ok(edits)
                } else {
                    Err(TakeError::Failed)
                }
            }
            Err(error) => match error.kind() {
                ErrorKind::NotFound => Ok(Vec::new(alloc)),
                ErrorKind::OutOfMemory => Err(TakeError::OutOfMemory),
                _ => Err(TakeError::Failed),
            },
        }
    }

    /// The journal, to append to; it is made if there is none. None if it can't be opened.
    pub(crate) fn open_edits(&self, files: &HostRuntime) -> Option<File> {
        OpenOptions::new()
            .append(true)
            .create(true)
            .open(files, self.edits.as_str())
            .ok()
    }

    /// Writes the netlist. It is written beside the old one first, which stays if that fails. False if it can't be written.
    pub(crate) fn write_netlist(
        &self,
        files: &HostRuntime,
        alloc: Global,
        netlist: &Netlist,
    ) -> bool {
        let next = self.next.as_str();
        let Ok(file) = File::create(files, next) else {
            return false;
        };
        let Ok(mut out) = Out::new(alloc, WriteSink::new(file)) else {
            return false;
        };
        is_written(&mut out, netlist) && fs::rename(files, next, self.netlist.as_str()).is_ok()
    }
}

/// Whether the netlist could be written.
fn is_written(out: &mut Out<WriteSink<File>>, netlist: &Netlist) -> bool {
    match put_netlist(out, netlist) {
        Ok(()) => out.flush().is_ok(),
        Err(Failed) => false,
    }
}

/// Tells that a file can't be written.
#[derive(Drop)]
pub(crate) struct PathNotice<'a> {
    pub files: &'a HostRuntime,
    pub path: &'a str,
}

impl JournalNotice for PathNotice<'_> {
    fn journal_failed(&self) {
        let path = self.path;
        let _ = eprintln!(self.files; "mpwb: can't write {path}");
    }
}
