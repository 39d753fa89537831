//! The least of delays.
ghost use Rattle.std.specs.Prelude.{◌≡◌, ◌↔◌, IsTrue, fold};
ghost use Rattle.mp_modules.specs.Delays.{lesser};
ghost use Rattle.mp_netlist.specs.Delays.{delays_of};
ghost use Rattle.mp_netlist.specs.Least.{GoesUp, IsAfter, lesser_of};

use mp_modules::lesser_delay;
use mp_records::Output;

/// The least delay of modules, if there is one, and a module that has it.
#[derive(Clone, Copy, Drop)]
pub(crate) struct LeastDelay {
    pub(crate) delay: Option<u32>,
    pub(crate) module: u32,
}

impl LeastDelay {
    ghost use Rattle.std.specs.Prelude.{◌≡◌, None};

    /// No delay.
    pub(crate) fn none() -> LeastDelay
        ensures { result.delay ≡ None }
    {
        LeastDelay {
            delay: None,
            module: 0,
        }
    }

    /// The delay, which this module has if it is another.
    pub(crate) fn or_that(self, delay: Option<u32>, module: u32) -> LeastDelay
        ensures { result.delay ≡ delay }
    {
        if delay == self.delay {
            self
        } else {
            LeastDelay { delay, module }
        }
    }
}

/// The least of a delay, if there is one, and the delays of the outputs.
pub(crate) fn least_in(known: Option<u32>, outputs: &[Output]) -> Option<u32>
    ensures { result ≡ fold lesser known (delays_of outputs.now) }
{
    let mut least = known;
    for output in outputs {
        if output.wire.is_some() {
            least = lesser_delay(least, output.delay);
        }
    }
    least
}

/// The lesser of two delays, if there are any.
pub(crate) fn lesser_of(one: Option<u32>, other: Option<u32>) -> Option<u32>
    ensures { result ≡ lesser_of one other }
{
    match other {
        Some(delay) => lesser_delay(one, delay),
        None => one,
    }
}

/// Whether what had the least delay has none now, or a greater one.
pub(crate) fn goes_up(least: Option<u32>, before: Option<u32>, after: Option<u32>) -> bool
    ensures { IsTrue result ↔ GoesUp least before after }
{
    before == least && is_after(least, after)
}

/// Whether there is a least delay, and no other or a greater one.
fn is_after(least: Option<u32>, after: Option<u32>) -> bool
    ensures { IsTrue result ↔ IsAfter least after }
{
    match (least, after) {
        (Some(least), Some(after)) => least < after,
        (Some(_), None) => true,
        (None, _) => false,
    }
}
