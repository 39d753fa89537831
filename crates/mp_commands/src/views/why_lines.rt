//! Why a wire has its level at a time.
ghost use Rattle.mp_commands.specs.views.Chains.{why_of};

use crate::views::evaluated::Evaluated;
use mp_netlist::Name;
use mp_questions::{Moment, put_why};
use mp_streams::{Out, Sink, WriteError};
use mp_text::MAX_STEPS;
use std::alloc::Global;

/// The chain of causes of the level that the wire of this name has at a time, in at most `steps` lines. The time is in units from 0, and may be at or
/// above the horizon.
#[derive(Clone, Copy)]
pub struct WhyLines<'a> {
    pub wire: &'a Name,
    pub time: u64,
    pub steps: u32,
}

impl<'a> WhyLines<'a> {
    ghost use Rattle.std.specs.Prelude.{◌≡◌, ◌&&◌, nat_le, is_some, IfSome};
    ghost use Rattle.mp_text.specs.Limits.{max_steps};

    /// This chain, if `steps` is 1 to `MAX_STEPS`.
    pub fn new(wire: &'a Name, time: u64, steps: u32) -> Option<WhyLines<'a>>
        ensures valid { is_some result ≡ (nat_le 1 steps && nat_le steps max_steps) }
        ensures wire { IfSome result (λ lines. lines.wire.now ≡ wire.now) }
        ensures numbers { IfSome result (λ lines. (lines.time ≡ time) × (lines.steps ≡ steps)) }
    {
        if steps == 0 || steps > MAX_STEPS {
            return None;
        }
        Some(WhyLines { wire, time, steps })
    }
}

impl<'a> WhyLines<'a> {
    ghost use Rattle.mp_streams.specs.WriteErrors.{Writes};

    /// Writes its text; nothing if the wire doesn't exist.
    pub(crate) fn put<T: Sink>(
        &self,
        alloc: Global,
        out: &mut Out<T>,
        of: &Evaluated<'_>,
    ) -> Result<(), WriteError>
        ensures { Writes result out.old out.new (why_of of.now.netlist.now self.now.wire.now self.now.time self.now.steps) }
    {
        let Some(wire) = of.netlist.wire_named(self.wire.as_str()) else {
            return Ok(());
        };
        let moment = Moment {
            wire,
            time: self.time,
        };
        put_why(alloc, out, of.netlist, of.waves, moment, self.steps)
    }
}
