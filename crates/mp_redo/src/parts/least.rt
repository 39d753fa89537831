//! Which parts of a netlist have an output of a delay.
ghost use Rattle.std.specs.Prelude.{◌≡◌, ℕ, ◌<◌, true};
ghost use Rattle.mp_redo.specs.parts.Drivers.{DrivesAfter, HasDelay, HasOutput, IsAfter};

use mp_netlist::{ModuleId, Netlist, Output};
use mp_partition::partition_of;

/// Whether in each part an output drives a wire after this delay.
pub(crate) fn have_delay(netlist: &Netlist, homes: &[u32], parts: u32, delay: u32) -> bool
    ensures { result ≡ true → (k : ℕ) → k < parts → HasDelay netlist.now homes.now k delay }
{
    for part in 0..parts {
        if !has_delay(netlist, homes, part, delay) {
            return false;
        }
    }
    true
}

fn has_delay(netlist: &Netlist, homes: &[u32], part: u32, delay: u32) -> bool
    ensures { result ≡ true → HasDelay netlist.now homes.now part delay }
{
    for m in 0..netlist.module_slots() {
        if partition_of(homes, m) == part && drives_after(netlist, ModuleId(m), delay) {
            return true;
        }
    }
    false
}

/// Whether an output of a module drives a wire after this delay.
fn drives_after(netlist: &Netlist, id: ModuleId, delay: u32) -> bool
    ensures { result ≡ true → DrivesAfter netlist.now id.0 delay }
{
    match netlist.module(id) {
        Some(found) => has_output(found.outputs.as_slice(), delay),
        None => false,
    }
}

fn has_output(outputs: &[Output], delay: u32) -> bool
    ensures { result ≡ true → HasOutput outputs.now delay }
{
    for output in outputs {
        if is_after(*output, delay) {
            return true;
        }
    }
    false
}

/// Whether an output drives a wire after this delay.
fn is_after(output: Output, delay: u32) -> bool
    ensures { result ≡ true → IsAfter output delay }
{
    match output.wire {
        Some(_) => output.delay == delay,
        None => false,
    }
}
