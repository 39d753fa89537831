//! The times and values of a new stimulus.
ghost use Rattle.std.specs.List.{flat_map};
ghost use Rattle.mp_text.specs.lexing.WaveLines.{change_text};

use mp_streams::{Failed, Out, Sink, Text};

/// Times with the value from then on, each pair after a space.
#[derive(Clone, Copy)]
pub(crate) struct Pairs<'a> {
    pub pairs: &'a [(u64, u64)],
}

impl<'a> Text for Pairs<'a> {
    ghost text = { λ changes. flat_map change_text changes.pairs.now };

    fn put_to<S: Sink>(&self, out: &mut Out<S>) -> Result<(), Failed> {
        for pair in self.pairs {
            (" ", pair.0, ("=", pair.1)).put_to(out)?;
        }
        Ok(())
    }
}
