//! Which input of a C hasn't come.
ghost use Rattle.std.specs.Prelude.{◌≡◌, ◌<◌, ℕ, suc, Some, IfSome, if◌then◌else◌};
ghost use Rattle.mp_modules.specs.CElement.{bubbled};
ghost use Rattle.mp_modules.specs.declared.kind.Kind.TheVariants as kinds;
ghost use Rattle.mp_netlist.specs.Circuit.{IsModule, module_at};
ghost use Rattle.mp_questions.specs.timing.Hearing.{HearsPort};
ghost use Rattle.mp_questions.specs.timing.Waits.{missing_input};

use crate::timing::apart::apart_since;
use crate::timing::delayed_input::level_at;
use crate::timing::input_ports::InputPorts;
use crate::timing::wait_moment::WaitMoment;
use mp_modules::Rendezvous;
use mp_netlist::ModuleRecord;

/// The input of a C whose event is missing, if that of the other one has come: the input that agrees, behind its bubble, with the output.
pub(crate) fn missing_input(at: &WaitMoment<'_>, found: &ModuleRecord) -> Option<usize>
    requires form { IsModule at.now.netlist.now found.now }
    requires kind { found.now.kind ≡ kinds.C }
    ensures value { (m : ℕ) → module_at at.now.netlist.now m ≡ Some found.now → result ≡ missing_input at.now.netlist.now m found.now at.now.time }
    ensures within { IfSome result (λ port. port < 2) }
{
    let _horizon = at.netlist.horizon();
    let ears = InputPorts::of(at, found);
    let bubbles = Rendezvous::from_params(found.params.as_slice());
    let a = bubbled(bubbles.bubble_a, level_at(ears.first, at.time));
    let b = bubbled(bubbles.bubble_b, level_at(ears.second, at.time));
    if a == b {
        return None;
    }
    let since_apart = apart_since(ears.first, ears.second, at.time);
    let output = joined_before(ears, bubbles, since_apart);
    if a == output {
        return Some(0);
    }
    Some(1)
}

/// The output of a C whose inputs differ since a time: the level of both before that, or its first output if that is 0.
fn joined_before(ears: InputPorts<'_>, bubbles: Rendezvous, since: u32) -> u64
    ensures first { since ≡ 0 → result ≡ (if bubbles.initial then 1 else 0) }
    ensures later { (f : ℕ → ℕ) (end e : ℕ) → HearsPort f end ears.entry.first → since ≡ suc e → e < end → result ≡ bubbled bubbles.bubble_a (f e) }
{
    if since == 0 {
        return u64::from(bubbles.initial);
    }
    bubbled(bubbles.bubble_a, level_at(ears.first, since - 1))
}

/// The level behind a bubble, if there is one.
fn bubbled(bubble: bool, level: u64) -> u64
    ensures { result ≡ bubbled bubble level }
{
    if bubble {
        1u64.saturating_sub(level)
    } else {
        level
    }
}
