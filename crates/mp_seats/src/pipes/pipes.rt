//! The named pipes of a desk's seats.
ghost use Rattle.std.specs.Prelude.{◌≡◌, ◌++◌, ℕ, List, [], map, IfOk};
ghost use Rattle.mp_seats.specs.Replies.{signed_writing};
ghost use Rattle.mp_seats.specs.hosting.OwnSeats.{HasTalkedWithin};
ghost use Rattle.mp_seats.specs.pipes.PipeDoors.{IsHostedAtPipes};
ghost use Rattle.mp_seats.specs.pipes.PipeTexts.{paths_in, IsAtPaths, AreAtPaths};

use crate::ReplyWriter;
use crate::hosting::{Hall, HostFault, Hosted, Places, SeatPlace, host};
use crate::pipes::pipe_door::PipeDoor;
use crate::pipes::pipe_exit::PipeExit;
use crate::pipes::pipe_paths::PipePaths;
use mp_desk::{EditKeeper, KeptSession};
use mp_streams::{Out, Sink, Source};
use mp_text::LineReader;
use mp_version::EditSession;
use std::alloc::{AllocError, Global};
use std::fs;
use std::marker::Model;
use std::sync::Wait;
use std::thread::Threads;

/// The named pipes of all seats of a desk, in one folder: the first designer writes lines to `designer-1.in` and reads answers from `designer-1.out`;
/// each further designer has such a pair, and so has each viewer from `viewer-1.in` on. The desk opens links of its own to them, in the folder
/// `.desk` there. If there is a pipe `.desk/designer-1.spare` too, those who come to the first designer's seat read from the two by turns.
/// A contract sees the names of the seats.
#[derive(Drop)]
pub struct Pipes<'a> {
    pub(crate) files: &'a HostRuntime,
    pub(crate) places: &'a Places,
    /// The folder of what is the desk's own.
    pub(crate) own: String,
    pub(crate) designers: Vec<PipePaths>,
    pub(crate) viewers: Vec<PipePaths>,
}

impl<'a> Model for Pipes<'a> {
    ghost use Rattle.mp_seats.specs.hosting.Places.{SeatNames};
    ghost use Rattle.mp_seats.specs.pipes.PipeTexts.{AreAtPaths};

    ghost Value = { SeatNames };

    ghost view = { λ pipes. pipes.places.now };

    ghost invariant = { λ pipes. AreAtPaths pipes.places.now.designers pipes.designers.items × AreAtPaths pipes.places.now.viewers pipes.viewers.items };
}

impl<'a> Pipes<'a> {
    /// The pipes of these seats in the folder of this path. They needn't be there. The error comes if memory runs out.
    pub fn new(
        files: &'a HostRuntime,
        folder: &str,
        places: &'a Places,
    ) -> Result<Pipes<'a>, AllocError>
        ensures { IfOk result (λ pipes. pipes ≡ places.now) }
    {
        let own = format!(in files.alloc(); "{folder}/.desk")?;
        let designers = paths_of(files.alloc(), folder, own.as_str(), places.designers())?;
        let viewers = paths_of(files.alloc(), folder, own.as_str(), places.viewers())?;
        Ok(Pipes {
            files,
            places,
            own,
            designers,
            viewers,
        })
    }

    /// The first path at which there is no named pipe; `None` if all are there.
    pub fn missing(&self) -> Option<&str> {
        match first_missing(self.files, self.designers.as_slice()) {
            Some(path) => Some(path),
            None => first_missing(self.files, self.viewers.as_slice()),
        }
    }

    /// Makes the desk's own links to the pipes, in place of those that another desk left there. Returns the first path that can't be made, or `None`.
    pub fn link(&self) -> Option<&str> {
        // (it may be there: then its links are made)
        let _ = fs::create_dir(self.files, self.own.as_str());
        match first_unlinked(self.files, self.designers.as_slice()) {
            Some(path) => Some(path),
            None => first_unlinked(self.files, self.viewers.as_slice()),
        }
    }

    /// Writes to standard error which pipes were removed or replaced, and removes the desk's own links.
    pub fn unlink(&self) {
        unlink_all(self.files, self.designers.as_slice());
        unlink_all(self.files, self.viewers.as_slice());
        let _ = fs::remove_dir(self.files, self.own.as_str());
    }

    /// Serves those who come to the pipes on a session, each of whose edits is kept, and answers the lines of whoever runs the desk meanwhile, as `host` does. The scribe
    /// writes all replies. Whoever comes once these lines have ended is answered nothing, and sees the end when the desk ends.
    pub fn host<
        S: EditSession + Send,
        K: EditKeeper + Send,
        R: Threads + Wait + Sync,
        B: ReplyWriter + Copy + Send + Sync,
        I: Source,
        T: Sink,
    >(
        &self,
        rt: &R,
        kept: KeptSession<S, K>,
        scribe: B,
        lines: &mut LineReader<I>,
        out: &mut Out<T>,
    ) -> Result<Hosted<S, K>, HostFault>
    where
        S::Prepared: Send,
        requires { out.old.held ≡ [] }
        ensures hosted { IfOk result (λ met. (authors : List ℕ) × IsHostedAtPipes (signed_writing B.answer_text B.reply_text) authors (S.story kept.session) (S.story met.outcome.session) self.now met.outcome.tallies.items met.outcome.numbers.items × HasTalkedWithin (signed_writing B.answer_text B.reply_text authors) met.talked (S.story kept.session) (S.story met.outcome.session) (self.now.designers ++ self.now.viewers) lines.old lines.new out.old out.new) }
        ensures kept { IfOk result (λ met. K.keeps met.keeper (S.story met.outcome.session)) }
        ensures flushed { out.new.held ≡ [] }
    {
        let hall = self.hall(scribe)?;
        let met = host(rt, self.files.alloc(), kept, hall, lines, out);
        PipeExit { pipes: self }.let_go();
        met
    }

    /// The pipes as doors, and how replies are written.
    fn hall<B: ReplyWriter + Copy>(
        &self,
        scribe: B,
    ) -> Result<Hall<PipeDoor<'_>, PipeExit<'_>, B>, AllocError>
        ensures exit { IfOk result (λ hall. hall.exit.pipes.now ≡ self.now) }
        ensures designers { IfOk result (λ hall. hall.designers.items ≡ self.now.designers) }
        ensures viewers { IfOk result (λ hall. hall.viewers.items ≡ self.now.viewers) }
    {
        let designers = self.doors(self.designers.as_slice(), self.places.designers())?;
        let viewers = self.doors(self.viewers.as_slice(), self.places.viewers())?;
        Ok(Hall {
            designers,
            viewers,
            exit: PipeExit { pipes: self },
            scribe,
        })
    }

    /// A door for each of some seats, which have these pipes.
    fn doors<'b>(
        &'b self,
        paths: &'b [PipePaths],
        seats: &'b [SeatPlace],
    ) -> Result<Vec<PipeDoor<'b>>, AllocError>
        requires { AreAtPaths seats.now paths.now }
        ensures { IfOk result (λ doors. doors.items ≡ seats.now) }
    {
        let mut doors = Vec::with_capacity(self.files.alloc(), seats.len())?;
        for place in 0..seats.len() {
            doors.push(self.door(&paths[place], &seats[place]))?;
        }
        Ok(doors)
    }

    /// The door of a seat, which has these pipes.
    fn door<'b>(&'b self, paths: &'b PipePaths, seat: &'b SeatPlace) -> PipeDoor<'b>
        requires { IsAtPaths seat.now paths.now }
        ensures { result ≡ seat.now }
    {
        PipeDoor {
            files: self.files,
            paths,
            seat,
            places: self.places,
            has_spare: paths.has_spare(self.files),
            is_spare: false,
        }
    }
}

/// The pipes of some seats in a folder.
fn paths_of(
    alloc: Global,
    folder: &str,
    own: &str,
    seats: &[SeatPlace],
) -> Result<Vec<PipePaths>, AllocError>
    ensures { IfOk result (λ paths. paths.items ≡ map (paths_in folder.now own.now) seats.now) }
{
    let mut paths = Vec::with_capacity(alloc, seats.len())?;
    for place in 0..seats.len() {
        paths.push(PipePaths::new(alloc, folder, own, seats[place].name())?)?;
    }
    Ok(paths)
}

/// The first of some paths at which there is no named pipe.
fn first_missing<'a>(files: &HostRuntime, paths: &'a [PipePaths]) -> Option<&'a str> {
    for pair in paths {
        if let Some(path) = pair.missing(files) {
            return Some(path);
        }
    }
    None
}

/// Makes the desk's own links to some pipes. The first that can't be made is returned.
fn first_unlinked<'a>(files: &HostRuntime, paths: &'a [PipePaths]) -> Option<&'a str> {
    for pair in paths {
        if let Some(path) = pair.link(files) {
            return Some(path);
        }
    }
    None
}

/// Reports which of these pipes are gone, and removes the desk's own links to them.
fn unlink_all(files: &HostRuntime, paths: &[PipePaths]) {
    for pair in paths {
        if let Some(path) = pair.gone(files) {
            let _ = eprintln!(files; "mpwb: {path} is gone");
        }
        pair.unlink(files);
    }
}
