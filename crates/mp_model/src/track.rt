//! A wire as time passes.
ghost use Rattle.std.specs.Prelude.{◌≡◌, ◌≤◌, ◌-◌, ◌^◌, ◌<◌, IfOk, OnOk, IfSome, ◌+◌};

use mp_netlist::WireRecord;
use mp_wave::{Wave, WaveBuilder};
use std::alloc::{AllocError, Global};
use std::marker::Model;

/// A wire's wave as far as it is known, the number of its changes that are past, its present level, and whether that is an event.
#[derive(Drop)]
pub(crate) struct Track {
    builder: WaveBuilder,
    past: usize,
    present: u64,
    event: bool,
}

impl Model for Track {
    ghost use Rattle.std.specs.Prelude.{◌≤◌, length, drop};
    ghost use Rattle.mp_model.specs.Tracks.{Progress};

    ghost Value = { Progress };

    ghost view = { λ track. record { wave = track.builder.wave; next = track.builder.next; present = track.present; event = track.event; ahead = drop track.past track.builder.wave.changes } };

    ghost invariant = { λ track. track.past ≤ length track.builder.wave.changes };
}

impl Track {
    ghost use Rattle.std.specs.Prelude.{not, ◌==◌};
    ghost use Rattle.mp_wave.specs.Waveform.{level_of};
    ghost use Rattle.mp_model.specs.Tracks.{AreTimesIn, first_progress, advanced, expecting, level_before, event_before};

    /// The track of a wire at time 0. Its stimulus, if any, is known in advance.
    pub(crate) fn new(alloc: Global, wire: &WireRecord) -> Result<Self, AllocError>
        requires { IfSome wire.now.stimulus (AreTimesIn 1 (2 ^ 32 - 1)) }
        ensures { IfOk result (λ track. track ≡ first_progress wire.now) }
    {
        let mut builder = WaveBuilder::new(alloc, wire.initial);
        if let Some(stimulus) = &wire.stimulus {
            hold_all(&mut builder, stimulus.as_slice())?;
        }
        Ok(Track {
            builder,
            past: 0,
            present: wire.initial,
            event: false,
        })
    }

    /// The level `delay` units before this time, or at time 0 if that is earlier.
    #[inline(always)]
    pub(crate) fn level_before(&self, time: u32, delay: u32) -> u64
        ensures { result ≡ level_before time delay self.now }
    {
        if delay == 0 {
            self.present
        } else {
            self.level_at(time.saturating_sub(delay))
        }
    }

    /// Whether the level differs from the one a unit before; false at time 0.
    #[inline(always)]
    pub(crate) fn has_event(&self) -> bool
        ensures { result ≡ self.now.event }
    {
        self.event
    }

    /// Whether the level `delay` units before this time differs from the one a unit before that; false at time 0.
    #[inline(always)]
    pub(crate) fn has_event_before(&self, time: u32, delay: u32) -> bool
        ensures { result ≡ event_before time delay self.now }
    {
        if delay == 0 {
            self.event
        } else {
            self.changed_at(time, delay)
        }
    }

    // Few inputs have delays. The search is a function of its own, so that the others are read as fast as if there were none.
    #[inline(never)]
    #[cold]
    fn changed_at(&self, time: u32, delay: u32) -> bool
        ensures { result ≡ not (level_of self.now.wave (time - delay) == level_of self.now.wave (time - 1 - delay)) }
    {
        let late = time.saturating_sub(1);
        self.level_at(time.saturating_sub(delay)) != self.level_at(late.saturating_sub(delay))
    }

    /// The level of the wave, as far as it is known, at a time.
    #[inline(never)]
    #[cold]
    fn level_at(&self, time: u32) -> u64
        ensures { result ≡ level_of self.now.wave time }
    {
        self.builder.level_at(time)
    }

    /// Steps to the next unit, which is this time.
    pub(crate) fn advance(&mut self, time: u32)
        ensures { self.new ≡ advanced time self.old }
    {
        let changes = self.builder.wave().changes();
        let past = self.past;
        if past < changes.len() && changes.time_at(past) == time {
            self.present = changes.level_at(past);
            self.past = past + 1;
            self.event = true;
        } else {
            self.event = false;
        }
    }

    /// Schedules this level from a time on, which isn't earlier than the first time whose level is still open.
    pub(crate) fn expect(&mut self, time: u32, level: u64) -> Result<(), AllocError>
        requires later { self.old.next ≤ time }
        requires last { time < 2 ^ 32 - 1 }
        ensures { OnOk result (self.new ≡ expecting time level self.old) }
    {
        self.builder.push_level(time, level)
    }

    /// The wave as far as it is known.
    pub(crate) fn finish(self) -> Wave
        ensures { result ≡ self.wave }
    {
        self.builder.finish()
    }
}

ghost use Rattle.mp_model.specs.Tracks.{AreTimesIn, held_all};

/// Holds the level of each change from its time on.
fn hold_all(builder: &mut WaveBuilder, changes: &[(u32, u64)]) -> Result<(), AllocError>
    requires { AreTimesIn builder.old.next (2 ^ 32 - 1) changes.now }
    ensures { OnOk result (builder.new ≡ held_all builder.old changes.now) }
{
    let mut rest = changes;
    while let Some((change, later)) = rest.split_first() {
        builder.push_level(change.0, change.1)?;
        rest = later;
    }
    Ok(())
}
