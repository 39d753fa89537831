//! The way out of the seats of a desk.
use crate::hosting::{Exit, Places, SeatPlace};
use crate::pipes::pipe_paths::PipePaths;
use crate::pipes::pipes::Pipes;
use std::fs::{File, OpenOptions};

/// The way out of the seats of a desk: the pipes of one that nobody has taken are opened for both ends, so that a thread that waits there goes on. An
/// output is then kept open only for reading: somebody who left the seat may not have seen the end there yet, and sees it only if nobody can write.
#[derive(Drop)]
pub(crate) struct PipeExit<'a> {
    pub pipes: &'a Pipes<'a>,
}

impl PipeExit<'_> {
    /// Lets those go who came when no seat could be taken any more, and wait at pipes to which nobody writes or from which nobody reads.
    pub(crate) fn let_go(&self) {
        let pipes = self.pipes;
        self.end_pipes(pipes.designers.as_slice());
        self.end_pipes(pipes.viewers.as_slice());
    }

    /// Opens the pipes for both ends and closes them again: whoever waits there to read sees the end.
    fn end_pipes(&self, paths: &[PipePaths]) {
        for pair in paths {
            for path in [&pair.own_output, &pair.spare, &pair.own_input] {
                drop(self.open_both(path.as_str()));
            }
        }
    }

    /// Opens the pipes of the seats that nobody has taken.
    fn open_free(&self, held: &mut Vec<File>, paths: &[PipePaths], seats: &[SeatPlace]) {
        for (paths, seat) in paths.iter().zip(seats) {
            if !seat.is_taken() {
                keep(held, self.open_both(paths.own_input.as_str()));
                keep(held, self.open_to_read(paths.own_output.as_str()));
                keep(held, self.open_to_read(paths.spare.as_str()));
            }
        }
    }

    /// Opens a pipe for reading, without waiting. If that can't be done, it is opened for reading and writing.
    fn open_to_read(&self, path: &str) -> Option<File> {
        let pipes = self.pipes;
        let both = self.open_both(path)?;
        // (somebody can write there now, so this doesn't wait)
        match File::open(pipes.files, path) {
            Ok(reader) => Some(reader),
            Err(_) => Some(both),
        }
    }

    /// Opens a pipe for both ends, which doesn't wait.
    fn open_both(&self, path: &str) -> Option<File> {
        let pipes = self.pipes;
        OpenOptions::new()
            .read(true)
            .write(true)
            .open(pipes.files, path)
            .ok()
    }
}

/// Keeps a file that was opened.
fn keep(held: &mut Vec<File>, opened: Option<File>) {
    if let Some(file) = opened {
        let _ = held.push(file);
    }
}

impl Exit for PipeExit<'_> {
    ghost use Rattle.std.specs.Prelude.{◌++◌};

    type Held = Vec<File>;

    ghost names = { λ exit. exit.pipes.now.designers ++ exit.pipes.now.viewers };

    fn places(&self) -> &Places {
        let pipes = self.pipes;
        pipes.places
    }

    fn open_all(&self) -> Vec<File> {
        let pipes = self.pipes;
        let mut held = Vec::new(pipes.files.alloc());
        self.open_free(
            &mut held,
            pipes.designers.as_slice(),
            pipes.places.designers(),
        );
        self.open_free(&mut held, pipes.viewers.as_slice(), pipes.places.viewers());
        held
    }
}
