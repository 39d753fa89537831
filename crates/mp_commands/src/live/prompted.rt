//! A source that asks for its bytes.
use mp_streams::{Failed, Sink, Source, put_all};

/// What is written before each line that somebody types.
const PROMPT: &[u8] = b"> ";

/// A source that writes a prompt to a sink before it takes bytes. A prompt that can't be written is left out; the write of the answer after it then
/// fails.
#[derive(Drop)]
pub struct Prompted<S: Source, T: Sink> {
    source: S,
    sink: T,
}

impl<S: Source, T: Sink> Prompted<S, T> {
    ghost use Rattle.std.specs.Prelude.{◌≡◌};

    /// The source, of which nothing was taken.
    pub fn new(source: S, sink: T) -> Self
        ensures source { result.source ≡ source }
        ensures sink { result.sink ≡ sink }
    {
        Prompted { source, sink }
    }
}

impl<S: Source, T: Sink> Source for Prompted<S, T> {
    ghost left = { λ prompted. S.left prompted.source };

    ghost fault_count = { λ prompted. S.fault_count prompted.source };

    fn take(&mut self, room: &mut [u8]) -> Result<usize, Failed> {
        let _ = put_all(&mut self.sink, PROMPT);
        self.source.take(room)
    }

    fn faults(&self) -> u64 {
        self.source.faults()
    }
}
