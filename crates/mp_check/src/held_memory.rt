//! States by which outputs are held.
ghost use Rattle.std.specs.Prelude.{◌≡◌, ◌<◌};
ghost use Rattle.mp_modules.specs.Kinds.{output_count};
ghost use Rattle.mp_model.specs.Waves.{state};
ghost use Rattle.mp_questions.specs.timing.Waits.{given};
ghost use Rattle.mp_check.specs.Dead.{last_unit};
ghost use Rattle.mp_holding.specs.Holding.{holding_sets};
ghost use Rattle.mp_holding.specs.InputSets.{sets_list};

use crate::module_end::ModuleEnd;
use mp_holding::{InputSets, holding_sets};
use mp_modules::{Kind, Memory};

/// The sets of inputs that hold an output at the end of the run, given what the output gives. A CALL or an ARBITER is followed through the whole run.
pub(crate) fn held_sets(of: &ModuleEnd<'_>, port: u32, level: u64) -> InputSets
    requires port { port < output_count of.now.part.now.kind }
    requires level { level ≡ given of.now.end.at.netlist.now of.now.id.0 port (last_unit of.now.end.at.netlist.now) }
    ensures { sets_list result ≡ holding_sets of.now.part.now.kind of.now.part.now.params (state of.now.end.at.netlist.now of.now.id.0 (last_unit of.now.end.at.netlist.now)) port }
{
    let memory = held_memory(of, port, level);
    holding_sets(of.part.kind, of.part.params.as_slice(), &memory, port)
}

/// A state with all by which an output of the module is held: its inputs and this output, and of a CALL or an ARBITER whom it serves and who waits.
fn held_memory(of: &ModuleEnd<'_>, port: u32, level: u64) -> Memory
    requires port { port < output_count of.now.part.now.kind }
    requires level { level ≡ given of.now.end.at.netlist.now of.now.id.0 port (last_unit of.now.end.at.netlist.now) }
    ensures { holding_sets of.now.part.now.kind of.now.part.now.params result port ≡ holding_sets of.now.part.now.kind of.now.part.now.params (state of.now.end.at.netlist.now of.now.id.0 (last_unit of.now.end.at.netlist.now)) port }
{
    match of.part.kind {
        Kind::Call | Kind::Arbiter => of.memory(),
        _ => {
            let levels = [of.heard(0), of.heard(1), of.heard(2)];
            Memory::with_one_output(&levels, level)
        }
    }
}
