//! Texts by number, with a comma between.
ghost use Rattle.std.specs.Prelude.{◌≡◌, ℕ, List, ◌&&◌, not, cond};
ghost use Rattle.std.specs.List.{flat_map, range_with_len};
ghost use Rattle.mp_streams.specs.Outgoing.{Writes};
ghost use Rattle.mp_exports.specs.verilog.Lists.{has_some, without_first};

use mp_streams::{Failed, Out, Sink, Text};

/// What has an item for some numbers, that begins with a comma.
pub(crate) trait Listed {
    // The item of a number, empty if it has none.
    ghost item: { Self → ℕ → List ℕ };

    /// Whether it has an item for this number.
    fn has_item(&self, number: u32) -> bool
        ensures { result ≡ has_some (item self.now number) };

    /// Writes the item of this number, without its comma if it is the first. `Failed` comes as in `Out::put_bytes`.
    fn put_item<S: Sink>(&self, out: &mut Out<S>, number: u32, is_first: bool) -> Result<(), Failed>
        ensures { Writes result out.old out.new (cond is_first (without_first (item self.now number)) (item self.now number)) };
}

/// The items of the numbers below a count.
#[derive(Clone, Copy)]
pub(crate) struct Separated<T> {
    pub(crate) items: T,
    pub(crate) count: u32,
}

impl<T: Listed> Text for Separated<T> {
    ghost text = { λ list. without_first (flat_map (T.item list.items) (range_with_len 0 list.count)) };

    fn put_to<S: Sink>(&self, out: &mut Out<S>) -> Result<(), Failed> {
        let mut is_first = true;
        for number in 0..self.count {
            let has_item = self.items.has_item(number);
            self.items.put_item(out, number, is_first)?;
            is_first = is_still_first(is_first, has_item);
        }
        Ok(())
    }
}

/// Whether there is still no item after one more number.
fn is_still_first(is_first: bool, has_item: bool) -> bool
    ensures { result ≡ (is_first && not has_item) }
{
    is_first && !has_item
}
