//! Schedules levels.
ghost use Rattle.std.specs.Prelude.{◌≡◌, ◌<◌, OnOk, All, length};
ghost use Rattle.mp_kernel.specs.events.Firing.{HasSlot};
ghost use Rattle.mp_kernel.specs.datapath.LevelWheels.{scheduled, entry_if, copied_from};

use crate::datapath::LevelWheel;
use crate::datapath::level_change::LevelChange;
use crate::events::OutputPort;
use std::alloc::AllocError;

/// If an output for data changes, schedules the level of its wire after the delay.
#[inline(always)]
pub fn schedule_level_if(
    changes: bool,
    port: OutputPort,
    level: u64,
    wheel: &mut LevelWheel,
) -> Result<(), AllocError>
    requires { HasSlot (length wheel.old) port }
    ensures scheduled { OnOk result (wheel.new ≡ scheduled wheel.old (entry_if changes port level)) }
    ensures places { OnOk result (length wheel.new ≡ length wheel.old) }
{
    match port.wire {
        Some(wire) if changes => wheel.schedule(
            port.delay as usize,
            LevelChange {
                number: wire,
                level,
            },
        ),
        _ => Ok(()),
    }
}

/// Schedules the levels of delayed copies after these numbers have changed: the next copy of each, if there is one, gets the level after its delay.
pub fn schedule_level_copies(
    copies: &[OutputPort],
    wheel: &mut LevelWheel,
    changes: &[LevelChange],
) -> Result<(), AllocError>
    requires copies { All (λ c. c.number < length copies.now) changes.now }
    requires within { All (HasSlot (length wheel.old)) copies.now }
    ensures scheduled { OnOk result (wheel.new ≡ scheduled wheel.old (copied_from copies.now changes.now)) }
    ensures places { OnOk result (length wheel.new ≡ length wheel.old) }
{
    for change in changes {
        schedule_level_if(true, copies[change.number as usize], change.level, wheel)?;
    }
    Ok(())
}
