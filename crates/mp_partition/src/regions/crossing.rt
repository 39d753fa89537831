//! The time that changes take from one partition to another.
ghost use Rattle.std.specs.Prelude.{◌≡◌, ◌≤◌, ℕ, true, All, Some};
ghost use Rattle.mp_records.specs.declared.ports.Output.{Output as Port};
ghost use Rattle.mp_records.specs.Outputs.{delay_of};
ghost use Rattle.mp_netlist.specs.Circuit.{Drives};
ghost use Rattle.mp_partition.specs.runs.Marks.{is_marked};
ghost use Rattle.mp_partition.specs.regions.Divisions.{heard_by, IsCrossing, IsLateFor};

use crate::regions::inbound_wires::{InboundWires, is_heard};
use mp_netlist::{ModuleId, Netlist, Output, WireId};

/// The least delay of a port that drives an inbound wire of a partition; the horizon if that is less.
pub fn crossing_delay(netlist: &Netlist, heards: &[InboundWires]) -> u32
    ensures { IsCrossing netlist.now heards.now result }
{
    let mut delay = netlist.horizon();
    for m in 0..netlist.module_slots() {
        delay = delay.min(module_delay(netlist, heards, ModuleId(m)));
    }
    delay.max(netlist.least_delay())
}

/// The shortest of a module.
fn module_delay(netlist: &Netlist, heards: &[InboundWires], id: ModuleId) -> u32
    ensures { (k p w : ℕ) (drives : Drives netlist.now id.0 p w) → is_marked (heard_by heards.now k) w ≡ true → result ≤ delay_of drives.part p }
{
    match netlist.module(id) {
        Some(found) => shortest_delay(heards, found.outputs.as_slice()),
        None => u32::MAX,
    }
}

fn shortest_delay(heards: &[InboundWires], outputs: &[Output]) -> u32
    ensures { All (λ (output : Port). IsLateFor heards.now output result) outputs.now }
{
    let mut delay = u32::MAX;
    for output in outputs {
        delay = delay.min(heard_delay(heards, *output));
    }
    delay
}

/// The delay of an output if its wire is an inbound wire of a partition.
fn heard_delay(heards: &[InboundWires], output: Output) -> u32
    ensures { IsLateFor heards.now output result }
{
    match output.wire {
        Some(wire) => {
            if is_heard_anywhere(heards, wire) {
                output.delay
            } else {
                u32::MAX
            }
        }
        None => u32::MAX,
    }
}

fn is_heard_anywhere(heards: &[InboundWires], wire: WireId) -> bool
    ensures { (k : ℕ) → is_marked (heard_by heards.now k) wire.0 ≡ true → result ≡ true }
{
    for heard in heards {
        if is_heard(heard.as_slice(), wire) {
            return true;
        }
    }
    false
}
