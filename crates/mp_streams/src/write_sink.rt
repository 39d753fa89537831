//! A writer as a sink.
ghost use Rattle.std.specs.Prelude.{◌≡◌};

use crate::failed::Failed;
use crate::sink::Sink;
use std::io::Write;
use std::marker::Model;

/// A writer as a sink. Its bytes are known if those of the writer are. A write that takes no byte is a fault.
#[derive(Drop)]
pub struct WriteSink<W> {
    writer: W,
    faults: u64,
}

impl<W> Model for WriteSink<W> {
    ghost use Rattle.mp_streams.specs.StreamFaults.{Counted};

    ghost Value = { Counted W };

    ghost view = { λ sink. record { device = sink.writer; faults = sink.faults } };
}

impl<W: Write> WriteSink<W> {
    /// The writer as a sink, with no faults yet.
    pub fn new(writer: W) -> Self
        ensures device { result.device ≡ writer }
        ensures faults { result.faults ≡ 0 }
    {
        WriteSink { writer, faults: 0 }
    }

    /// The writer.
    pub fn into_inner(self) -> W
        ensures { result ≡ self.device }
    {
        let WriteSink { writer, .. } = self;
        writer
    }
}

impl<W: Write> Sink for WriteSink<W> {
    ghost taken = { λ sink. W.contents sink.device };

    ghost fault_count = { λ sink. sink.faults };

    fn put(&mut self, bytes: &[u8]) -> Result<usize, Failed> {
        match self.writer.write(bytes) {
            Ok(count) if count > 0 => Ok(count),
            _ => {
                self.faults = self.faults.saturating_add(1);
                Err(Failed)
            }
        }
    }

    fn faults(&self) -> u64 {
        self.faults
    }
}
