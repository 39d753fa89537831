//! The waves of wires of width 1 during a simulation.
ghost use Rattle.std.specs.Prelude.{◌≡◌, ℕ, [], IfOk, OnOk, slice_index_or};
ghost use Rattle.mp_kernel.specs.events.WaveTables.{AreAllLate, waves_by};

use crate::events::late_toggles::{LateToggle, LateToggles};
use mp_wave::ToggleWave;
use std::alloc::{AllocError, Global};
use std::marker::Model;

/// The number of wires of a share, whose numbers are consecutive. What is read of their waves fits into a cache.
const SHARE: usize = 16_384;

/// The waves of wires of width 1, by their numbers, while they grow. Contracts see the waves with all their toggles. With many wires each toggle
/// would cost two cache misses. So there toggles wait in the list of their wire's share, and those of a share are put into their waves together.
#[derive(Drop)]
pub struct WaveTable {
    waves: Vec<ToggleWave>,
    late: Vec<LateToggles>,
}

impl Model for WaveTable {
    ghost use Rattle.std.specs.Prelude.{List};
    ghost use Rattle.mp_wave.specs.Waveform.{Waveform};
    ghost use Rattle.mp_kernel.specs.events.WaveTables.{AreAllLate, waves_by};

    ghost Value = { List Waveform };

    ghost view = { λ table. waves_by table.late.items table.waves.items };

    ghost invariant = { λ table. AreAllLate table.waves.items table.late.items };
}

impl WaveTable {
    ghost use Rattle.std.specs.Prelude.{◌≡◌, ◌<◌, ◌∷◌, [], All, IfOk, OnOk, length, slice_set};
    ghost use Rattle.mp_wave.specs.Waveform.{last_time};
    ghost use Rattle.mp_kernel.specs.events.Toggling.{wave_at, CanToggle, AreToggled};

    /// The table of these waves.
    pub fn from_waves(alloc: Global, waves: Vec<ToggleWave>) -> Result<WaveTable, AllocError>
        ensures { IfOk result (λ table. table ≡ waves.items) }
    {
        let late = empty_lists(alloc, waves.len())?;
        Ok(WaveTable { waves, late })
    }

    /// The number of waves.
    #[inline(always)]
    pub fn len(&self) -> usize
        ensures { result ≡ length self.now }
    {
        self.waves.len()
    }

    /// The number of toggles so far.
    pub fn count_toggles(&self) -> usize {
        let mut count = 0usize;
        for wave in &self.waves {
            count = count.saturating_add(wave.times().len());
        }
        for late in &self.late {
            count = count.saturating_add(late.len());
        }
        count
    }

    /// Adds a toggle of each of these wires at a time.
    #[inline(always)]
    pub fn toggle(&mut self, wires: &[u32], time: u32) -> Result<(), AllocError>
        requires waves { All (λ w. w < length self.old) wires.now }
        requires over { CanToggle self.old wires.now time }
        ensures { OnOk result (AreToggled self.old self.new wires.now time) }
    {
        for wire in wires {
            self.toggle_wire(*wire, time)?;
        }
        Ok(())
    }

    /// Adds a toggle of a wire at a time.
    #[inline(always)]
    fn toggle_wire(&mut self, wire: u32, time: u32) -> Result<(), AllocError>
        requires wave { wire < length self.old }
        requires over { last_time 0 (wave_at self.old wire).changes < time }
        ensures { OnOk result (AreToggled self.old self.new (wire ∷ []) time) }
    {
        let Some(late) = self.late.get_mut(wire as usize / SHARE) else {
            self.waves[wire as usize].toggle(time)?;
            return Ok(());
        };
        late.push(&mut self.waves, LateToggle { wire, time })?;
        Ok(())
    }

    /// Sets the wave of a wire.
    pub fn set(&mut self, wire: u32, wave: ToggleWave) -> Result<(), AllocError>
        requires { wire < length self.old }
        ensures { OnOk result (self.new ≡ slice_set self.old wire wave) }
    {
        settle(&mut self.waves, &mut self.late)?;
        self.waves[wire as usize] = wave;
        Ok(())
    }

    /// The waves.
    pub fn into_waves(self) -> Result<Vec<ToggleWave>, AllocError>
        ensures { IfOk result (λ waves. waves.items ≡ self) }
    {
        let WaveTable {
            mut waves,
            mut late,
        } = self;
        settle(&mut waves, &mut late)?;
        Ok(waves)
    }
}

/// An empty list for each share of this number of wires; no list if they are fewer than a share.
fn empty_lists(alloc: Global, wires: usize) -> Result<Vec<LateToggles>, AllocError>
    ensures { IfOk result (λ late. (k : ℕ) → slice_index_or late.items k [] ≡ []) }
{
    let mut late = Vec::new(alloc);
    if wires < SHARE {
        return Ok(late);
    }
    for _share in 0..wires / SHARE + 1 {
        late.push(LateToggles::new(alloc))?;
    }
    Ok(late)
}

/// Puts all toggles into their waves and drops the lists, so that from then on none waits.
fn settle(waves: &mut Vec<ToggleWave>, late: &mut Vec<LateToggles>) -> Result<(), AllocError>
    requires { AreAllLate waves.old.items late.old.items }
    ensures none { late.new.items ≡ [] }
    ensures settled { OnOk result (waves.new.items ≡ waves_by late.old.items waves.old.items) }
{
    let put = put_shares(waves, late);
    late.clear();
    put
}

/// Puts the toggles of all shares into their waves.
fn put_shares(waves: &mut Vec<ToggleWave>, late: &mut [LateToggles]) -> Result<(), AllocError>
    requires { AreAllLate waves.old.items late.old }
    ensures { OnOk result (waves.new.items ≡ waves_by late.old waves.old.items) }
{
    for share in 0..late.len() {
        late[share].put_into(waves)?;
    }
    Ok(())
}
