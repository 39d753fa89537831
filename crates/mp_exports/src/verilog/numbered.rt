//! Texts by number.
ghost use Rattle.std.specs.Prelude.{ℕ, List};
ghost use Rattle.std.specs.List.{flat_map, range_with_len};
ghost use Rattle.mp_streams.specs.Outgoing.{Writes};

use mp_streams::{Failed, Out, Sink, Text};

/// What has a text for each number.
pub(crate) trait Numbered {
    // The text of a number.
    ghost item: { Self → ℕ → List ℕ };

    /// Writes the text of this number. `Failed` comes as in `Out::put_bytes`.
    fn put_item<S: Sink>(&self, out: &mut Out<S>, number: u32) -> Result<(), Failed>
        ensures { Writes result out.old out.new (item self.now number) };
}

/// The texts of the numbers below a count.
#[derive(Clone, Copy)]
pub(crate) struct Each<T> {
    pub(crate) items: T,
    pub(crate) count: u32,
}

impl<T: Numbered> Text for Each<T> {
    ghost text = { λ each. flat_map (T.item each.items) (range_with_len 0 each.count) };

    fn put_to<S: Sink>(&self, out: &mut Out<S>) -> Result<(), Failed> {
        for number in 0..self.count {
            self.items.put_item(out, number)?;
        }
        Ok(())
    }
}
