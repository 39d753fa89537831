//! Changes of waves.
ghost use Rattle.mp_text.specs.lexing.Clauses.{changes_text};

use crate::lexing::change_text::ChangeText;
use mp_streams::{Failed, Out, Sink, Text};

/// Changes of a wave, each written as ` T=V`.
#[derive(Clone, Copy)]
pub struct ChangeTexts<'a> {
    pub changes: &'a [(u32, u64)],
}

impl<'a> Text for ChangeTexts<'a> {
    ghost text = { λ wave. changes_text wave.changes.now };

    fn put_to<S: Sink>(&self, out: &mut Out<S>) -> Result<(), Failed> {
        for &(time, value) in self.changes {
            out.put_piece(&ChangeText { time, value })?;
        }
        Ok(())
    }
}

/// Changes of a wave whose levels are below 2^32, each written as ` T=V`.
#[derive(Clone, Copy)]
pub struct ShortChanges<'a> {
    pub changes: &'a [(u32, u32)],
}

impl<'a> Text for ShortChanges<'a> {
    ghost text = { λ wave. changes_text wave.changes.now };

    fn put_to<S: Sink>(&self, out: &mut Out<S>) -> Result<(), Failed> {
        for &(time, value) in self.changes {
            let value = value as u64;
            out.put_piece(&ChangeText { time, value })?;
        }
        Ok(())
    }
}
