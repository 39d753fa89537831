//! Checkpoints.
ghost use Rattle.std.specs.Prelude.{◌≡◌, ◌<◌, ◌≤◌};
ghost use Rattle.mp_netlist.specs.Limits.{checkpoint_units};

use crate::format::Format;

/// The distance of checkpoints in a run up to this horizon, in units: the states of modules are kept at each multiple of it.
pub fn checkpoint_units(horizon: u32) -> u32
    ensures value { result ≡ checkpoint_units horizon }
    ensures some { 0 < result }
    ensures most { result ≤ 1048576 }
{
    if u64::from(horizon) <= Format::Standard.max_horizon() {
        1024
    } else {
        1_048_576
    }
}
