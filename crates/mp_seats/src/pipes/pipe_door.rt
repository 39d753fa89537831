//! The named pipes of a seat as its door.
ghost use Rattle.std.specs.Prelude.{◌≡◌};

use crate::hosting::{Door, Ended, Places, SeatPlace};
use crate::pipes::pipe_paths::PipePaths;
use mp_streams::{ReadSource, WriteSink};
use std::fs;
use std::fs::{File, OpenOptions};
use std::marker::Model;

/// The named pipes of a seat as its door. Those who come read from one of two pipes, if there are two: each time somebody leaves, the other one takes
/// the place of the output before this one is closed. So whoever leaves sees the end of the pipe, even if somebody else comes at once. A contract sees
/// the name of the seat, whose pipes these are.
#[derive(Drop)]
pub(crate) struct PipeDoor<'a> {
    pub files: &'a HostRuntime,
    pub paths: &'a PipePaths,
    pub seat: &'a SeatPlace,
    pub places: &'a Places,
    /// Whether there are two pipes to read from.
    pub has_spare: bool,
    /// Whether the second of them is in the place of the output.
    pub is_spare: bool,
}

impl<'a> Model for PipeDoor<'a> {
    ghost use Rattle.mp_seats.specs.declared.hosting.seat_place.SeatName.{SeatName};
    ghost use Rattle.mp_seats.specs.pipes.PipeTexts.{IsAtPaths};

    ghost Value = { SeatName };

    ghost view = { λ door. door.seat.now };

    ghost invariant = { λ door. IsAtPaths door.seat.now door.paths.now };
}

impl PipeDoor<'_> {
    /// Both pipes: the output once somebody reads there, and then the input once somebody writes there. None if one can't be opened, and if the desk
    /// ends meanwhile.
    fn open_pipes(&self) -> Option<(File, File)> {
        let output = OpenOptions::new()
            .write(true)
            .open(self.files, self.output(self.is_spare))
            .ok()?;
        if self.places.have_ended() {
            return None;
        }
        let paths = self.paths;
        let input = File::open(self.files, paths.own_input.as_str()).ok()?;
        Some((input, output))
    }

    /// The desk's own path of the first or of the second pipe to read from.
    fn output(&self, is_spare: bool) -> &str {
        let paths = self.paths;
        if is_spare {
            paths.spare.as_str()
        } else {
            paths.own_output.as_str()
        }
    }

    /// Puts the other pipe in the place of the output. If that can't be done, this one stays.
    fn change_output(&mut self)
        ensures { self.new ≡ self.old }
    {
        if !self.has_spare {
            return;
        }
        let paths = self.paths;
        let next = paths.next.as_str();
        let _ = fs::remove_file(self.files, next);
        let other = !self.is_spare;
        if fs::hard_link(self.files, self.output(other), next).is_err() {
            return;
        }
        if fs::rename(self.files, next, paths.output.as_str()).is_ok() {
            self.is_spare = other;
        }
    }
}

impl Door for PipeDoor<'_> {
    ghost use Rattle.mp_seats.specs.pipes.PipeDoors.{ComesTo, LeavesFrom, TurnsAwayFrom};

    type Input = ReadSource<File>;

    type Output = WriteSink<File>;

    ghost Comes = { ComesTo };

    ghost Leaves = { LeavesFrom };

    ghost TurnsAway = { TurnsAwayFrom };

    fn open(&mut self) -> Option<(Self::Input, Self::Output)> {
        if self.places.have_ended() {
            return None;
        }
        let (input, output) = self.open_pipes()?;
        // The seat is marked as taken before the end is checked once more, so whoever opens the doors of free seats at the end leaves out no thread
        // that waits.
        self.seat.set_taken(true);
        if self.places.have_ended() {
            self.seat.set_taken(false);
            return None;
        }
        Some((ReadSource::new(input), WriteSink::new(output)))
    }

    fn close(&mut self, output: Self::Output) {
        self.change_output();
        drop(output);
    }

    fn free(&mut self, _ended: Ended) {
        self.seat.set_taken(false);
    }

    fn leave(&mut self, _ended: Ended, output: Self::Output) {
        // the output is closed before the seat is free: a seat that is called free was left by the desk too
        self.change_output();
        drop(output);
        self.seat.set_taken(false);
    }

    fn turn_away(&mut self) {
        self.seat.set_taken(false);
    }
}
