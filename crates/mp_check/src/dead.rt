//! Ports whose wires never change again.
ghost use Rattle.std.specs.Prelude.{◌≡◌, ◌<◌, ◌&&◌, ℕ, Bool, true, IfOk, Some, length};
ghost use Rattle.std.specs.List.{list_any};
ghost use Rattle.mp_holding.specs.declared.sets.needs.Shape.TheVariants.{Pairs};
ghost use Rattle.mp_modules.specs.Kinds.{output_count};
ghost use Rattle.mp_records.specs.Outputs.{delay_of, output_at};
ghost use Rattle.mp_model.specs.Waves.{state};
ghost use Rattle.mp_questions.specs.timing.Waits.{given};
ghost use Rattle.mp_holding.specs.sets.Needs.{are_met, is_met};
ghost use Rattle.mp_check.specs.Dead.{AreDead, are_still, is_kept, is_kept_at, is_quiet, last_unit};
ghost use Rattle.mp_holding.specs.Holding.{holding_sets};
ghost use Rattle.mp_holding.specs.InputSets.{set_list};

use crate::held_memory::held_sets;
use crate::module_end::{ModuleEnd, PORTS, output_at, port_slots};
use crate::quiet::is_quiet;
use crate::run_end::RunEnd;
use mp_holding::InputSet;
use mp_holding::sets::{Need, Needs, Shape, greatest_closed_set};
use mp_netlist::{ModuleId, WireId};
use std::alloc::{AllocError, Global};

/// The needs of what no set keeps.
pub(crate) const NEVER: Needs = Needs {
    first: Need::Never,
    second: Need::Never,
    third: Need::Never,
    fourth: Need::Never,
};

/// A mark for each port by number: whether it is dead.
pub(crate) fn dead_ports(alloc: Global, end: &RunEnd<'_>) -> Result<Vec<bool>, AllocError>
    ensures { IfOk result (λ marks. AreDead end.now.at.netlist.now marks.items) }
{
    // Its contract says that the netlist is well formed.
    let _horizon = end.at.netlist.horizon();
    let count = port_slots(end);
    let mut needs = Vec::with_capacity(alloc, count as usize)?;
    for number in 0..count {
        needs.push(needs_of(end, number))?;
    }
    greatest_closed_set(alloc, Shape::Pairs, needs.as_slice())
}

/// What a port needs to be dead.
fn needs_of(end: &RunEnd<'_>, number: u32) -> Needs
    ensures { (set : ℕ → Bool) → are_met Pairs set result ≡ is_kept end.now.at.netlist.now set number }
{
    let id = ModuleId(number / PORTS);
    match end.at.netlist.module(id) {
        Some(part) => {
            let of = ModuleEnd {
                end: *end,
                id,
                part,
            };
            port_needs(&of, number % PORTS)
        }
        None => NEVER,
    }
}

/// What a port of a module needs.
fn port_needs(of: &ModuleEnd<'_>, port: u32) -> Needs
    requires { port < 3 }
    ensures { (set : ℕ → Bool) → are_met Pairs set result ≡ is_kept_at of.now.end.at.netlist.now set of.now.id.0 port (Some of.now.part.now) }
{
    // Its contract says that the netlist is well formed.
    let _horizon = of.end.at.netlist.horizon();
    match output_at(of.part, port).wire {
        Some(wire) => {
            if is_quiet(of, port, wire) {
                return held_needs(of, port, given_level(of, port, wire));
            }
            NEVER
        }
        None => NEVER,
    }
}

/// What a quiet port gives: the level of its wire.
pub(crate) fn given_level(of: &ModuleEnd<'_>, port: u32, wire: WireId) -> u64
    requires wire { (output_at of.now.part.now port).wire ≡ Some wire }
    requires quiet { is_quiet of.now.end.at.netlist.now of.now.id.0 port (delay_of of.now.part.now port) ≡ true }
    ensures { result ≡ given of.now.end.at.netlist.now of.now.id.0 port (last_unit of.now.end.at.netlist.now) }
{
    // Its contract says that the netlist is well formed.
    let _horizon = of.end.at.netlist.horizon();
    of.end.at.prompt(wire).level_at(of.end.at.time)
}

/// The sets of inputs that hold a port.
fn held_needs(of: &ModuleEnd<'_>, port: u32, level: u64) -> Needs
    requires port { port < output_count of.now.part.now.kind }
    requires level { level ≡ given of.now.end.at.netlist.now of.now.id.0 port (last_unit of.now.end.at.netlist.now) }
    ensures { (set : ℕ → Bool) → are_met Pairs set result ≡ list_any (are_still of.now.end.at.netlist.now set of.now.part.now) (holding_sets of.now.part.now.kind of.now.part.now.params (state of.now.end.at.netlist.now of.now.id.0 (last_unit of.now.end.at.netlist.now)) port) }
{
    let sets = held_sets(of, port, level);
    let (first, second) = set_needs(of, sets.first);
    let (third, fourth) = set_needs(of, sets.second);
    Needs {
        first,
        second,
        third,
        fourth,
    }
}

/// What all inputs of a set need to stay as they are.
fn set_needs(of: &ModuleEnd<'_>, set: InputSet) -> (Need, Need)
    ensures { (dead : ℕ → Bool) → (is_met dead result.0 && is_met dead result.1) ≡ list_any (are_still of.now.end.at.netlist.now dead of.now.part.now) (set_list set) }
{
    match set {
        InputSet::None => (Need::Never, Need::Never),
        InputSet::One(port) => (of.need(port), Need::Always),
        InputSet::Two(port, other) => (of.need(port), of.need(other)),
    }
}
