//! Which inputs a dead port may wait for.
ghost use Rattle.std.specs.Prelude.{◌≡◌, ◌<◌, ◌++◌, true, Some, slice_get};
ghost use Rattle.std.specs.Option.{option_to_list};
ghost use Rattle.mp_modules.specs.Kinds.{output_count};
ghost use Rattle.mp_records.specs.Outputs.{delay_of, output_at};
ghost use Rattle.mp_model.specs.Waves.{state};
ghost use Rattle.mp_questions.specs.timing.Waits.{given};
ghost use Rattle.mp_check.specs.Awaited.{inputs_list, inputs_of};
ghost use Rattle.mp_check.specs.Dead.{AreDead, are_still, dead, is_quiet, is_still_in, last_unit, port_number};
ghost use Rattle.mp_holding.specs.InputSets.{set_list, sets_list};
ghost use Rattle.mp_check.specs.Waiting.{awaited, held_by, waiting_sets};

use crate::dead::given_level;
use crate::held_memory::held_sets;
use crate::module_end::{ModuleEnd, output_at};
use mp_holding::sets::{Need, is_marked};
use mp_holding::{InputSet, InputSets};
use mp_modules::Kind;
use mp_netlist::WireId;

/// Inputs of a module in an order, at most four.
#[derive(Clone, Copy)]
pub(crate) struct AwaitedInputs {
    pub(crate) first: Option<usize>,
    pub(crate) second: Option<usize>,
    pub(crate) third: Option<usize>,
    pub(crate) fourth: Option<usize>,
}

/// The inputs that a dead port may wait for, given marks of the dead ports.
pub(crate) fn awaited(of: &ModuleEnd<'_>, marks: &[bool], port: u32) -> AwaitedInputs
    requires marks { AreDead of.now.end.at.netlist.now marks.now }
    requires port { port < 3 }
    requires dead { dead of.now.end.at.netlist.now (port_number of.now.id.0 port) ≡ true }
    ensures { inputs_list result ≡ awaited of.now.end.at.netlist.now of.now.part.now (state of.now.end.at.netlist.now of.now.id.0 (last_unit of.now.end.at.netlist.now)) port }
{
    match output_at(of.part, port).wire {
        Some(wire) => awaited_at(of, marks, port, wire),
        None => AwaitedInputs {
            first: None,
            second: None,
            third: None,
            fourth: None,
        },
    }
}

/// The same for a port on a wire.
fn awaited_at(of: &ModuleEnd<'_>, marks: &[bool], port: u32, wire: WireId) -> AwaitedInputs
    requires marks { AreDead of.now.end.at.netlist.now marks.now }
    requires wire { (output_at of.now.part.now port).wire ≡ Some wire }
    requires quiet { is_quiet of.now.end.at.netlist.now of.now.id.0 port (delay_of of.now.part.now port) ≡ true }
    ensures { inputs_list result ≡ awaited of.now.end.at.netlist.now of.now.part.now (state of.now.end.at.netlist.now of.now.id.0 (last_unit of.now.end.at.netlist.now)) port }
{
    // Its contract says that the netlist is well formed.
    let _horizon = of.end.at.netlist.horizon();
    let sets = waiting_sets(of, marks, port, given_level(of, port, wire));
    let (first, second) = still_inputs(of, marks, sets.first);
    let (third, fourth) = still_inputs(of, marks, sets.second);
    AwaitedInputs {
        first,
        second,
        third,
        fourth,
    }
}

/// The sets of inputs that it may wait for. The data of a REG that is open wait for its data where nobody can open or close it.
fn waiting_sets(of: &ModuleEnd<'_>, marks: &[bool], port: u32, level: u64) -> InputSets
    requires port { port < output_count of.now.part.now.kind }
    requires marks { AreDead of.now.end.at.netlist.now marks.now }
    requires level { level ≡ given of.now.end.at.netlist.now of.now.id.0 port (last_unit of.now.end.at.netlist.now) }
    ensures { sets_list result ≡ waiting_sets of.now.end.at.netlist.now of.now.part.now (state of.now.end.at.netlist.now of.now.id.0 (last_unit of.now.end.at.netlist.now)) of.now.part.now.kind port }
{
    if of.part.kind != Kind::Reg || port != 0 {
        return held_sets(of, port, level);
    }
    if of.heard(1) != of.heard(2) {
        return InputSets::one(InputSet::Two(1, 2));
    }
    let is_held = are_still(of, marks, InputSet::Two(1, 2)) && of.heard(0) == level;
    InputSets::one(InputSet::One(0).if_so(is_held))
}

/// The inputs of a set, if all of them stay as they are.
fn still_inputs(of: &ModuleEnd<'_>, marks: &[bool], set: InputSet) -> (Option<usize>, Option<usize>)
    requires { AreDead of.now.end.at.netlist.now marks.now }
    ensures { (option_to_list result.0 ++ option_to_list result.1) ≡ held_by of.now.end.at.netlist.now of.now.part.now (set_list set) }
{
    if !are_still(of, marks, set) {
        return (None, None);
    }
    match set {
        InputSet::None => (None, None),
        InputSet::One(port) => (Some(port), None),
        InputSet::Two(port, other) => (Some(port), Some(other)),
    }
}

/// Whether the inputs of a set stay as they are, while the dead ports do.
fn are_still(of: &ModuleEnd<'_>, marks: &[bool], set: InputSet) -> bool
    requires { AreDead of.now.end.at.netlist.now marks.now }
    ensures { result ≡ are_still of.now.end.at.netlist.now (dead of.now.end.at.netlist.now) of.now.part.now (inputs_of set) }
{
    match set {
        InputSet::None => true,
        InputSet::One(port) => is_still(of, marks, port),
        InputSet::Two(port, other) => is_still(of, marks, port) && is_still(of, marks, other),
    }
}

fn is_still(of: &ModuleEnd<'_>, marks: &[bool], port: usize) -> bool
    requires { AreDead of.now.end.at.netlist.now marks.now }
    ensures { result ≡ is_still_in of.now.end.at.netlist.now (dead of.now.end.at.netlist.now) (slice_get of.now.part.now.inputs port) }
{
    match of.need(port) {
        Need::Always => true,
        Need::Never => false,
        Need::Member(number) => is_marked(marks, number),
    }
}
