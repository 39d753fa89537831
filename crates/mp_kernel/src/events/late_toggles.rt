//! Toggles that wait to be put into waves.
ghost use Rattle.std.specs.Prelude.{◌≡◌, ℕ, [], OnOk, length};
ghost use Rattle.mp_kernel.specs.events.Toggling.{wave_at};
ghost use Rattle.mp_kernel.specs.events.WaveTables.{AreLate, late_times, whole_wave};

use mp_wave::ToggleWave;
use std::alloc::{AllocError, Global};
use std::marker::Model;

/// The greatest number of toggles of a share that wait: four for each wire, if all toggle equally often.
const MOST: usize = 65_536;

/// A toggle of a wire at a time.
#[derive(Clone, Copy)]
pub(crate) struct LateToggle {
    pub wire: u32,
    pub time: u32,
}

/// Toggles of wires that aren't in their waves yet, in the order in which they came. Contracts see the list.
#[derive(Drop)]
pub(crate) struct LateToggles {
    toggles: Vec<LateToggle>,
}

impl Model for LateToggles {
    ghost use Rattle.std.specs.Prelude.{List};
    ghost use Rattle.mp_kernel.specs.declared.events.late_toggles.LateToggle.{LateToggle};

    ghost Value = { List LateToggle };

    ghost view = { λ late. late.toggles.items };
}

impl LateToggles {
    ghost use Rattle.std.specs.Prelude.{◌≡◌, ◌≢◌, ◌/◌, ◌==◌, ℕ, [], OnOk, length, if◌then◌else◌};
    ghost use Rattle.mp_wave.specs.ToggleWaves.{toggled_at};
    ghost use Rattle.mp_kernel.specs.events.Toggling.{wave_at};
    ghost use Rattle.mp_kernel.specs.events.WaveTables.{AreLate, CanWait, late_times, whole_wave};

    /// No toggles. It takes no memory.
    pub(crate) fn new(alloc: Global) -> LateToggles
        ensures { result ≡ [] }
    {
        LateToggles {
            toggles: Vec::new(alloc),
        }
    }

    /// The number of toggles.
    pub(crate) fn len(&self) -> usize
        ensures { result ≡ length self.now }
    {
        self.toggles.len()
    }

    /// Adds a toggle later than those of its wire. If the list is full, its toggles are put into their waves first. If memory runs out, some may be
    /// lost, but waves of other shares stay.
    #[inline(always)]
    pub(crate) fn push(
        &mut self,
        waves: &mut Vec<ToggleWave>,
        toggle: LateToggle,
    ) -> Result<(), AllocError>
        requires { CanWait waves.old.items self.old toggle }
        ensures kept { AreLate waves.new.items (toggle.wire / 16384) self.new }
        ensures places { length waves.new.items ≡ length waves.old.items }
        ensures others { (w : ℕ) → w / 16384 ≢ toggle.wire / 16384 → wave_at waves.new.items w ≡ wave_at waves.old.items w }
        ensures pushed { OnOk result ((w : ℕ) → whole_wave waves.new.items self.new w ≡
            (if toggle.wire == w then toggled_at (whole_wave waves.old.items self.old w) toggle.time else whole_wave waves.old.items self.old w)) }
    {
        self.make_room(waves)?;
        self.toggles.push(toggle)?;
        Ok(())
    }

    /// Puts the toggles into their waves if the list is full. If memory runs out, some are lost, but waves of other shares stay.
    #[inline(always)]
    fn make_room(&mut self, waves: &mut Vec<ToggleWave>) -> Result<(), AllocError>
        requires { (share : ℕ) × AreLate waves.old.items share self.old }
        ensures kept { (share : ℕ) → AreLate waves.old.items share self.old → AreLate waves.new.items share self.new }
        ensures places { length waves.new.items ≡ length waves.old.items }
        ensures others { (share w : ℕ) → AreLate waves.old.items share self.old → w / 16384 ≢ share → wave_at waves.new.items w ≡ wave_at waves.old.items w }
        ensures whole { OnOk result ((w : ℕ) → whole_wave waves.new.items self.new w ≡ whole_wave waves.old.items self.old w) }
    {
        if self.toggles.len() < MOST {
            return Ok(());
        }
        self.put_into(waves)?;
        Ok(())
    }

    /// Puts all toggles into their waves and empties the list. If memory runs out, some are lost, but waves of other wires stay.
    pub(crate) fn put_into(&mut self, waves: &mut Vec<ToggleWave>) -> Result<(), AllocError>
        requires { (share : ℕ) × AreLate waves.old.items share self.old }
        ensures none { self.new ≡ [] }
        ensures places { length waves.new.items ≡ length waves.old.items }
        ensures others { (w : ℕ) → late_times w self.old ≡ [] → wave_at waves.new.items w ≡ wave_at waves.old.items w }
        ensures put { OnOk result ((w : ℕ) → wave_at waves.new.items w ≡ whole_wave waves.old.items self.old w) }
    {
        let put = put_all(waves, self.toggles.as_slice());
        self.toggles.clear();
        put
    }
}

/// Puts these toggles into their waves.
fn put_all(waves: &mut Vec<ToggleWave>, toggles: &[LateToggle]) -> Result<(), AllocError>
    requires { (share : ℕ) × AreLate waves.old.items share toggles.now }
    ensures places { length waves.new.items ≡ length waves.old.items }
    ensures others { (w : ℕ) → late_times w toggles.now ≡ [] → wave_at waves.new.items w ≡ wave_at waves.old.items w }
    ensures put { OnOk result ((w : ℕ) → wave_at waves.new.items w ≡ whole_wave waves.old.items toggles.now w) }
{
    for each in toggles {
        waves[each.wire as usize].toggle(each.time)?;
    }
    Ok(())
}
