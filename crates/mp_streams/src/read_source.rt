//! A reader as a source.
ghost use Rattle.std.specs.Prelude.{◌≡◌};

use crate::failed::Failed;
use crate::source::Source;
use std::io::Read;
use std::marker::Model;

/// A reader as a source. Its bytes are known if those of the reader are. Any error of a read is a fault.
#[derive(Drop)]
pub struct ReadSource<R> {
    reader: R,
    faults: u64,
}

impl<R> Model for ReadSource<R> {
    ghost use Rattle.mp_streams.specs.StreamFaults.{Counted};

    ghost Value = { Counted R };

    ghost view = { λ source. record { device = source.reader; faults = source.faults } };
}

impl<R: Read> ReadSource<R> {
    /// The reader as a source, with no faults yet.
    pub fn new(reader: R) -> Self
        ensures device { result.device ≡ reader }
        ensures faults { result.faults ≡ 0 }
    {
        ReadSource { reader, faults: 0 }
    }
}

impl<R: Read> Source for ReadSource<R> {
    ghost left = { λ source. R.remaining source.device };

    ghost fault_count = { λ source. source.faults };

    fn take(&mut self, room: &mut [u8]) -> Result<usize, Failed> {
        match self.reader.read(room) {
            Ok(count) => Ok(count),
            Err(_) => {
                self.faults = self.faults.saturating_add(1);
                Err(Failed)
            }
        }
    }

    fn faults(&self) -> u64 {
        self.faults
    }
}
