//! A list of bytes as a sink.
ghost use Rattle.std.specs.Prelude.{Some};

use mp_streams::{Failed, Sink};

/// A list of bytes as a sink, which takes no more bytes than its limit.
#[derive(Drop)]
pub(crate) struct Limited {
    pub(crate) bytes: Vec<u8>,
    pub(crate) limit: usize,
    pub(crate) faults: u64,
}

impl Sink for Limited {
    ghost taken = { λ sink. Some sink.bytes.items };

    ghost fault_count = { λ sink. sink.faults };

    fn put(&mut self, bytes: &[u8]) -> Result<usize, Failed> {
        if bytes.len() <= self.limit.saturating_sub(self.bytes.len())
            && self.bytes.extend_from_slice(bytes).is_ok()
        {
            return Ok(bytes.len());
        }
        self.faults = self.faults.saturating_add(1);
        Err(Failed)
    }

    fn faults(&self) -> u64 {
        self.faults
    }
}
