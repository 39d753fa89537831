//! The levels of numbers: of wires, and of their delayed copies.
ghost use Rattle.std.specs.Prelude.{◌≡◌, ◌<◌, All, length};
ghost use Rattle.mp_kernel.specs.datapath.Levels.{toggled, changed};

use crate::datapath::level_change::LevelChange;

/// Toggles the levels of these numbers of width 1.
pub fn toggle_levels(levels: &mut Vec<u64>, numbers: &[u32])
    requires { All (λ x. x < length levels.old.items) numbers.now }
    ensures { levels.new.items ≡ toggled levels.old.items numbers.now }
{
    for number in numbers {
        let n = *number as usize;
        levels[n] = 1u64.saturating_sub(levels[n]);
    }
}

/// Sets the levels of these numbers.
pub fn set_levels(levels: &mut Vec<u64>, changes: &[LevelChange])
    requires { All (λ c. c.number < length levels.old.items) changes.now }
    ensures { levels.new.items ≡ changed levels.old.items changes.now }
{
    for change in changes {
        levels[change.number as usize] = change.level;
    }
}
