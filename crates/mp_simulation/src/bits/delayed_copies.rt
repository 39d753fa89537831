//! Delayed copies of wires.

use mp_kernel::{EventSlot, EventWheel, OutputPort, schedule_copies};
use std::alloc::AllocError;

/// The delayed copies of wires, which inputs with a delay read. Each number, of a wire or of a copy, has the next copy after it, if any, and
/// the units by which that one is later. The wheel has the copies that toggle in the units to come; those that toggle in the present unit are
/// kept beside it.
#[derive(Drop)]
pub struct DelayedCopies {
    pub next: Vec<OutputPort>,
    pub wheel: EventWheel,
    pub present: EventSlot,
}

impl DelayedCopies {
    ghost use Rattle.std.specs.Prelude.{◌≡◌, ℕ, ◌+◌, ◌<◌, ◌++◌, ◌∷◌, [], Option, OnOk, All, drop, length, slice_index_or};
    ghost use Rattle.mp_netlist.specs.Circuit.{Circuit};
    ghost use Rattle.mp_kernel.specs.events.Firing.{HasSlot};
    ghost use Rattle.mp_simulation.specs.bits.Simulations.{IsFrom};
    ghost use Rattle.mp_simulation.specs.bits.Simulators.{IsBelow};
    ghost use Rattle.mp_simulation.specs.bits.Copies.{AreChained, HaveCopies, HaveLaterCopies, AreOriginals, AreListedBelow};

    /// The next unit begins: the copies that toggle in it are the present ones.
    #[inline(always)]
    pub fn begin_unit(&mut self)
        requires { 0 < length self.old.wheel }
        ensures present { self.new.present ≡ slice_index_or self.old.wheel 0 [] }
        ensures wheel { self.new.wheel ≡ drop 1 self.old.wheel ++ [] ∷ [] }
        ensures same { self.new.next.items ≡ self.old.next.items }
    {
        self.wheel.turn(&mut self.present);
    }

    /// Schedules the next copies after the present copies and these wires, all of which have toggled in the present unit. The numbers of copies are
    /// behind those of so many wires, and if there are no more numbers, nothing is to be done.
    pub fn advance(&mut self, wires: &[u32], count: usize) -> Result<(), AllocError>
        requires present { All (λ x. x < length self.old.next.items) self.old.present }
        requires wires { All (λ w. w < length self.old.next.items) wires.now }
        requires within { All (HasSlot (length self.old.wheel)) self.old.next.items }
        requires below { All (IsBelow (length self.old.next.items)) self.old.next.items }
        requires behind { All (IsFrom count) self.old.next.items }
        ensures next { OnOk result ((n : Circuit) (source : ℕ → ℕ × ℕ) (before : ℕ → Option ℕ) (t : ℕ) → AreChained source before self.old.next.items →
            HaveLaterCopies n source before self.old.next.items t self.old.wheel → AreOriginals n source before (self.old.present ++ wires.now) (t + 1) →
            HaveCopies n source before self.old.next.items (t + 1) self.new.wheel) }
        ensures same { OnOk result (self.new.next.items ≡ self.old.next.items) }
        ensures places { OnOk result (length self.new.wheel ≡ length self.old.wheel) }
        ensures low { OnOk result ((bound : ℕ) → All (IsBelow bound) self.old.next.items → AreListedBelow bound self.old.wheel → AreListedBelow bound self.new.wheel) }
    {
        if self.next.len() <= count {
            return Ok(());
        }
        schedule_copies(
            self.next.as_slice(),
            &mut self.wheel,
            self.present.as_slice(),
        )?;
        schedule_copies(self.next.as_slice(), &mut self.wheel, wires)?;
        Ok(())
    }
}
