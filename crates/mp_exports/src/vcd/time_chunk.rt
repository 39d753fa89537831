//! The part of a dump that is about some times.
ghost use Rattle.std.specs.Prelude.{◌<◌, ◌≤◌};

use crate::vcd::first_places::first_places;
use crate::vcd::recorded::Recorded;
use crate::vcd::units::put_agenda;
use crate::vcd::wave_changes::agenda_of;
use mp_streams::{Out, Sink, WriteError};
use std::alloc::Global;

/// The times from one to before another.
#[derive(Clone, Copy)]
pub(crate) struct TimeChunk<'a> {
    pub(crate) of: Recorded<'a>,
    pub(crate) from: u32,
    pub(crate) to: u32,
    ghost some: { 0 < from },
    ghost order: { from ≤ to },
    ghost within: { to ≤ of.netlist.now.horizon },
}

impl<'a> TimeChunk<'a> {
    ghost use Rattle.mp_streams.specs.WriteErrors.{Writes};
    ghost use Rattle.mp_exports.specs.vcd.Clauses.{passage_text};

    /// Writes the changes of each of its times, portion by portion.
    #[tactic(auto, using(mp_streams::proofs::LeftLemmas::left_none, crate::proofs::lemmas::vcd::StandingLemmas::times_end, crate::proofs::lemmas::vcd::StandingLemmas::unmade))]
    pub(crate) fn put<S: Sink>(&self, alloc: Global, out: &mut Out<S>) -> Result<(), WriteError>
        ensures { Writes result out.old out.new (passage_text self.now) }
    {
        let of = self.of;
        let mut places = first_places(alloc, of, self.from)?;
        let mut from = self.from;
        while from < self.to {
            let to = from.saturating_add(of.portion.units).min(self.to);
            let agenda = agenda_of(alloc, of, places.as_mut_slice(), from, to)?;
            put_agenda(out, of, &agenda, to)?;
            from = to;
        }
        Ok(())
    }
}
