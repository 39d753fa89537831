//! A module that has the least delay of a netlist, where nothing that is reached has it.
ghost use Rattle.std.specs.Prelude.{◌≡◌, ◌<◌, IfSome, length};

use crate::reach::Reached;
use mp_netlist::{ModuleId, Netlist, Output};

impl Reached {
    ghost use Rattle.mp_depend.specs.work.Revisions.{IsRevision};
    ghost use Rattle.mp_near.specs.reach.Reach.{HasReach, IsWholeReach};

    /// Marks a module that has this delay, with the wires that it drives, if modules are marked and none of them has it.
    pub(crate) fn add_witness(&mut self, old: &Netlist, new: &Netlist, delay: u32)
        requires revision { IsRevision old.now new.now }
        requires whole { IsWholeReach old.now new.now self.old.modules.items self.old.wires.items }
        ensures { HasReach old.now new.now self.new.modules.items self.new.wires.items }
    {
        if let Some(id) = find_witness(new, self.modules.as_slice(), delay) {
            self.add(old, new, id);
        }
    }
}

/// A module that has this delay. `None` if a marked one has it, or if none is marked.
fn find_witness(netlist: &Netlist, marks: &[bool], delay: u32) -> Option<ModuleId>
    requires { length marks.now ≡ length netlist.now.modules }
    ensures { IfSome result (λ id. id.0 < length netlist.now.modules) }
{
    if lack_delay(netlist, marks, delay) {
        one_with(netlist, delay)
    } else {
        None
    }
}

/// Whether modules are marked and none of them has this delay.
fn lack_delay(netlist: &Netlist, marks: &[bool], delay: u32) -> bool
    requires { length marks.now ≡ length netlist.now.modules }
{
    let mut is_any_marked = false;
    for m in 0..netlist.module_slots() {
        if marks[m as usize] {
            if has_delay(netlist, ModuleId(m), delay) {
                return false;
            }
            is_any_marked = true;
        }
    }
    is_any_marked
}

/// The module that the netlist names as one of the least delay, if it has this delay, and otherwise the first that has it.
fn one_with(netlist: &Netlist, delay: u32) -> Option<ModuleId>
    ensures { IfSome result (λ id. id.0 < length netlist.now.modules) }
{
    let named = netlist.fastest();
    if named.0 < netlist.module_slots() && has_delay(netlist, named, delay) {
        Some(named)
    } else {
        first_with(netlist, delay)
    }
}

fn first_with(netlist: &Netlist, delay: u32) -> Option<ModuleId>
    ensures { IfSome result (λ id. id.0 < length netlist.now.modules) }
{
    for m in 0..netlist.module_slots() {
        if has_delay(netlist, ModuleId(m), delay) {
            return Some(ModuleId(m));
        }
    }
    None
}

/// Whether the module has this delay at an output with a wire.
fn has_delay(netlist: &Netlist, id: ModuleId, delay: u32) -> bool {
    match netlist.module(id) {
        Some(found) => is_any_delay(found.outputs.as_slice(), delay),
        None => false,
    }
}

fn is_any_delay(outputs: &[Output], delay: u32) -> bool {
    outputs
        .iter()
        .any(|output| output.wire.is_some() && output.delay == delay)
}
