//! The paths of a seat's named pipes.
ghost use Rattle.std.specs.Prelude.{◌≡◌, IfOk, codes, string_bytes};
ghost use Rattle.mp_seats.specs.pipes.PipeTexts.{path_in};

use crate::hosting::SeatName;
use std::alloc::{AllocError, Global};
use std::fs;
use std::marker::Model;
use std::os::unix::fs::{FileTypeExt, MetadataExt};

/// The paths of a seat's named pipes: those by which people know them, and the desk's own links to the same pipes. The desk opens only its own, so it
/// doesn't matter if somebody removes or replaces the others. A contract sees the paths as texts.
#[derive(Drop)]
pub(crate) struct PipePaths {
    /// What is written at the seat.
    pub input: String,
    /// What is read there.
    pub output: String,
    /// The desk's own link to the input.
    pub own_input: String,
    /// The desk's own link to the output.
    pub own_output: String,
    /// A second pipe to read from, if there is one.
    pub spare: String,
    /// A link on its way to the place of the output.
    pub next: String,
}

impl Model for PipePaths {
    ghost use Rattle.std.specs.Prelude.{string_bytes};
    ghost use Rattle.mp_seats.specs.pipes.PipeTexts.{PathTexts};

    ghost Value = { PathTexts };

    ghost view = { λ p. record { input = string_bytes p.input; output = string_bytes p.output; own_input = string_bytes p.own_input; own_output = string_bytes p.own_output; spare = string_bytes p.spare; next = string_bytes p.next } };
}

impl PipePaths {
    ghost use Rattle.std.specs.Prelude.{◌≡◌, IfOk};
    ghost use Rattle.mp_seats.specs.pipes.PipeTexts.{paths_in};

    /// Those of a seat in a folder, with the desk's own in another.
    pub(crate) fn new(
        alloc: Global,
        folder: &str,
        own: &str,
        name: SeatName,
    ) -> Result<PipePaths, AllocError>
        ensures { IfOk result (λ p. p ≡ paths_in folder.now own.now name) }
    {
        let (input, output) = ends(alloc, folder, name)?;
        let (own_input, own_output) = ends(alloc, own, name)?;
        let (spare, next) = changes(alloc, own, name)?;
        Ok(PipePaths {
            input,
            output,
            own_input,
            own_output,
            spare,
            next,
        })
    }

    /// The first of the two at which there is no named pipe.
    pub(crate) fn missing(&self, files: &HostRuntime) -> Option<&str> {
        let input = self.input.as_str();
        if !is_pipe(files, input) {
            return Some(input);
        }
        let output = self.output.as_str();
        if !is_pipe(files, output) {
            return Some(output);
        }
        None
    }

    /// Makes the desk's own links, in place of those that were left there. The first of them that can't be made is returned.
    pub(crate) fn link(&self, files: &HostRuntime) -> Option<&str> {
        let input = self.own_input.as_str();
        if !is_linked(files, self.input.as_str(), input) {
            return Some(input);
        }
        let output = self.own_output.as_str();
        if !is_linked(files, self.output.as_str(), output) {
            return Some(output);
        }
        None
    }

    /// Removes all that is the desk's own.
    pub(crate) fn unlink(&self, files: &HostRuntime) {
        for path in [&self.own_input, &self.own_output, &self.spare, &self.next] {
            let _ = fs::remove_file(files, path.as_str());
        }
    }

    /// Whether there is a second pipe to read from.
    pub(crate) fn has_spare(&self, files: &HostRuntime) -> bool {
        is_pipe(files, self.spare.as_str())
    }

    /// The first of the two by which nobody comes to the seat any more: it was removed or replaced.
    pub(crate) fn gone(&self, files: &HostRuntime) -> Option<&str> {
        let input = self.input.as_str();
        if !are_same(files, input, self.own_input.as_str()) {
            return Some(input);
        }
        let output = self.output.as_str();
        let is_there = are_same(files, output, self.own_output.as_str())
            || are_same(files, output, self.spare.as_str());
        if is_there { None } else { Some(output) }
    }
}

/// The paths in a folder of the pipe that is written at a seat, and of the one that is read there.
fn ends(alloc: Global, folder: &str, name: SeatName) -> Result<(String, String), AllocError>
    ensures input { IfOk result (λ both. string_bytes both.0 ≡ path_in folder.now name (codes ".in")) }
    ensures output { IfOk result (λ both. string_bytes both.1 ≡ path_in folder.now name (codes ".out")) }
{
    let input = path(alloc, folder, name, ".in")?;
    let output = path(alloc, folder, name, ".out")?;
    Ok((input, output))
}

/// The paths in a folder by which a seat's output changes: of a second pipe, and of a link on its way.
fn changes(alloc: Global, folder: &str, name: SeatName) -> Result<(String, String), AllocError>
    ensures spare { IfOk result (λ both. string_bytes both.0 ≡ path_in folder.now name (codes ".spare")) }
    ensures next { IfOk result (λ both. string_bytes both.1 ≡ path_in folder.now name (codes ".next")) }
{
    let spare = path(alloc, folder, name, ".spare")?;
    let next = path(alloc, folder, name, ".next")?;
    Ok((spare, next))
}

/// The path of a seat's file in a folder, with this end.
fn path(alloc: Global, folder: &str, name: SeatName, end: &str) -> Result<String, AllocError>
    ensures { IfOk result (λ path. string_bytes path ≡ path_in folder.now name end.now) }
{
    match name {
        SeatName::Designer(number) => format!(in alloc; "{folder}/designer-{number}{end}"),
        SeatName::Viewer(number) => format!(in alloc; "{folder}/viewer-{number}{end}"),
    }
}

/// Whether there is a named pipe at the path.
fn is_pipe(files: &HostRuntime, path: &str) -> bool {
    match fs::metadata(files, path) {
        Ok(about) => about.file_type().is_fifo(),
        Err(_) => false,
    }
}

/// Whether a link to the file could be made, in place of what was left there.
fn is_linked(files: &HostRuntime, path: &str, link: &str) -> bool {
    let _ = fs::remove_file(files, link);
    fs::hard_link(files, path, link).is_ok()
}

/// Whether both paths lead to one file.
fn are_same(files: &HostRuntime, path: &str, other: &str) -> bool {
    match (fs::metadata(files, path), fs::metadata(files, other)) {
        (Ok(one), Ok(two)) => one.ino() == two.ino() && one.dev() == two.dev(),
        _ => false,
    }
}
