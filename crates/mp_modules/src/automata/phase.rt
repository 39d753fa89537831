//! Phases: what modules of width 1 keep from unit to unit.
ghost use Rattle.std.specs.Prelude.{◌≡◌, ◌<◌};
ghost use Rattle.mp_modules.specs.declared.memory.Client.{Client as AnyClient};
ghost use Rattle.mp_modules.specs.automata.Phases.{core_phase, function_phase, waits_at};
ghost use Rattle.mp_modules.specs.automata.Codes.{client_code};

use crate::{AnyModule, Client, CoreModule, Function, Memory, Waiting};

/// The number of phases: three for who is served, times four for who waits.
pub(crate) const PHASES: u16 = 12;

/// What a module of width 1 keeps from unit to unit, as far as its answers depend on it. CALL and ARBITER serve clients, who may wait. In a C an
/// input "waits" if it differs, behind its bubble, from the output. In a TOGGLE the first "waits" if the next event goes to the second output, and in
/// a SELECT if the second input is 1. In a REG the first "waits" if the data are held, and the second if the data differ from what is held. In an AND
/// an input "waits" if it is 1, in an OR if it is 0, in a LESS the first if it is 0 and the second if it is 1. In a MUX the first "waits" if the second
/// input is chosen, and the second if the two differ.
#[derive(Clone, Copy)]
pub struct Phase {
    pub served: Client,
    pub waiting: Waiting,
}

impl Phase {
    ghost use Rattle.std.specs.Prelude.{◌≡◌, ◌<◌};
    ghost use Rattle.mp_modules.specs.declared.automata.phase.Phase.{Phase as AnyPhase};
    ghost use Rattle.mp_modules.specs.automata.Phases.{unserved, phase_of};
    ghost use Rattle.mp_modules.specs.automata.Codes.{phase_code};

    /// The phase in which nobody is served and these wait.
    pub fn unserved(first: bool, second: bool) -> Phase
        ensures { result ≡ unserved first second }
    {
        Phase {
            served: Client::Nobody,
            waiting: Waiting { first, second },
        }
    }

    /// The phase of a module in a state.
    pub fn of(part: &AnyModule, memory: &Memory) -> Phase
        ensures { result ≡ phase_of part.now memory.now }
    {
        match part {
            AnyModule::Core(part) => core_phase(*part, memory),
            AnyModule::Reg(_) => Phase::unserved(
                memory.inputs[1] != memory.inputs[2],
                memory.inputs[0] != memory.outputs[0],
            ),
            AnyModule::Function(part) => function_phase(part.function, memory),
        }
    }

    /// The number of the phase, from 0.
    pub(crate) fn code(self) -> u16
        ensures value { result ≡ phase_code self }
        ensures low { result < 12 }
    {
        client_code(self.served) * 4
            + u16::from(self.waiting.first) * 2
            + u16::from(self.waiting.second)
    }

    /// The phase with this number.
    pub(crate) fn from_code(code: u16) -> Phase
        ensures { (k : AnyPhase) → code ≡ phase_code k → result ≡ k }
    {
        Phase {
            served: client_from_code(code / 4),
            waiting: Waiting {
                first: code / 2 % 2 == 1,
                second: code % 2 == 1,
            },
        }
    }
}

fn core_phase(part: CoreModule, memory: &Memory) -> Phase
    ensures { result ≡ core_phase part memory.now }
{
    match part {
        CoreModule::C(c) => Phase::unserved(
            waits_at(c.bubble_a, memory.inputs[0], memory.outputs[0]),
            waits_at(c.bubble_b, memory.inputs[1], memory.outputs[0]),
        ),
        CoreModule::Toggle => Phase::unserved(memory.outputs[0] != memory.outputs[1], false),
        CoreModule::Select => Phase::unserved(memory.inputs[1] == 1, false),
        CoreModule::Call | CoreModule::Arbiter => Phase {
            served: memory.served,
            waiting: memory.waiting,
        },
    }
}

fn function_phase(function: Function, memory: &Memory) -> Phase
    ensures { result ≡ function_phase function memory.now }
{
    let [a, b, s, _] = memory.inputs;
    match function {
        Function::And => Phase::unserved(a == 1, b == 1),
        Function::Or => Phase::unserved(a == 0, b == 0),
        Function::Less => Phase::unserved(a == 0, b == 1),
        Function::Mux => Phase::unserved(s == 1, a != b),
        _ => Phase::unserved(false, false),
    }
}

/// Whether an input, behind its bubble, differs from the output.
fn waits_at(bubble: bool, input: u64, output: u64) -> bool
    ensures { result ≡ waits_at bubble input output }
{
    let level = if bubble {
        1u64.saturating_sub(input)
    } else {
        input
    };
    level != output
}

fn client_code(client: Client) -> u16
    ensures value { result ≡ client_code client }
    ensures low { result < 3 }
{
    match client {
        Client::Nobody => 0,
        Client::First => 1,
        Client::Second => 2,
    }
}

fn client_from_code(code: u16) -> Client
    ensures { (c : AnyClient) → code ≡ client_code c → result ≡ c }
{
    match code {
        0 => Client::Nobody,
        1 => Client::First,
        _ => Client::Second,
    }
}
