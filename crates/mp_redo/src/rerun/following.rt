//! Changes to come that no active module makes.
ghost use Rattle.std.specs.Prelude.{◌≡◌, ◌++◌, drop, OnOk, IfOk};
ghost use Rattle.mp_simulation.specs.run.Stimuli.{bits_of, levels_of, bits_at, levels_at, changes_after};

use mp_active::SetWires;
use mp_kernel::LevelChange;
use mp_simulation::StimulusChange;
use std::alloc::AllocError;

/// Lists the changes at a time, from a place on, and returns the place after them.
pub(crate) fn list_due(
    list: &[StimulusChange],
    from: usize,
    time: u32,
    set: &mut SetWires,
) -> Result<usize, AllocError>
    ensures bits { OnOk result (set.new.bits.items ≡ set.old.bits.items ++ bits_at time (drop from list.now)) }
    ensures levels { OnOk result (set.new.levels.items ≡ set.old.levels.items ++ levels_at time (drop from list.now)) }
    ensures left { IfOk result (λ place. drop place list.now ≡ changes_after time (drop from list.now)) }
{
    let mut place = from;
    while place < list.len() && list[place].time == time {
        list_change(list[place], set)?;
        place += 1;
    }
    Ok(place)
}

/// Lists a change, by whether its wire has data.
fn list_change(change: StimulusChange, set: &mut SetWires) -> Result<(), AllocError>
    ensures bits { OnOk result (set.new.bits.items ≡ set.old.bits.items ++ bits_of change) }
    ensures levels { OnOk result (set.new.levels.items ≡ set.old.levels.items ++ levels_of change) }
{
    if change.has_data {
        set.levels.push(LevelChange {
            number: change.wire,
            level: change.level,
        })?;
        return Ok(());
    }
    set.bits.push(change.wire)?;
    Ok(())
}
