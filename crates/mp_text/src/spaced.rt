//! Lines of words.
ghost use Rattle.std.specs.Prelude.{◌≡◌, ◌∷◌};
ghost use Rattle.mp_text.specs.Clauses.{flat_map};

use mp_streams::{Failed, Out, Sink, Text};

/// Texts, each after a space.
#[derive(Clone, Copy)]
pub struct Spaced<'a, T> {
    pub items: &'a [T],
}

impl<'a, T: Text> Text for Spaced<'a, T> {
    ghost text = { λ spaced. flat_map (λ item. 32 ∷ T.text item) spaced.items.now };

    fn put_to<S: Sink>(&self, out: &mut Out<S>) -> Result<(), Failed> {
        for item in self.items {
            (" ", item).put_to(out)?;
        }
        Ok(())
    }
}
