//! Which inputs hold an output.
ghost use Rattle.std.specs.Prelude.{◌≡◌, [], ◌∷◌};
ghost use Rattle.mp_modules.specs.CElement.{bubbled};
ghost use Rattle.mp_holding.specs.Holding.{call_sets, calling_sets, client_at, function_set, granting_sets, holding_sets, joining_sets, owning_sets, register_sets, returning_sets};
ghost use Rattle.mp_holding.specs.InputSets.{set_list, sets_list};

use crate::input_set::{InputSet, InputSets};
use mp_modules::{Client, Function, Kind, Memory, Rendezvous};

/// The sets of inputs of which each holds an output of a module, given its state: as long as all inputs of a set keep their levels, the output keeps its
/// level.
pub fn holding_sets(kind: Kind, params: &[u64], memory: &Memory, port: u32) -> InputSets
    ensures { sets_list result ≡ holding_sets kind params.now memory.now port }
{
    match kind {
        Kind::Toggle | Kind::Select => InputSets::one(InputSet::One(0)),
        Kind::C => joining_sets(Rendezvous::from_params(params), memory),
        Kind::Call => call_sets(memory, port),
        Kind::Arbiter => granting_sets(memory, port),
        Kind::Reg => register_sets(memory, port),
        Kind::Function(function) => InputSets::one(function_set(function, memory)),
    }
}

/// All inputs of a function; of a MUX the input that it chooses, and the one by which it does.
fn function_set(function: Function, memory: &Memory) -> InputSet
    ensures { set_list result ≡ function_set function memory.now.inputs ∷ [] }
{
    match function {
        Function::Mux if memory.inputs[2] == 0 => InputSet::Two(0, 2),
        Function::Mux => InputSet::Two(1, 2),
        _ if function.shape().inputs == 1 => InputSet::One(0),
        _ => InputSet::Two(0, 1),
    }
}

/// An input of a C that has the level of the output, behind its bubble.
fn joining_sets(bubbles: Rendezvous, memory: &Memory) -> InputSets
    ensures { sets_list result ≡ joining_sets bubbles memory.now }
{
    let output = memory.output(0);
    let first = bubbled(bubbles.bubble_a, memory.inputs[0]) == output;
    let second = bubbled(bubbles.bubble_b, memory.inputs[1]) == output;
    InputSets {
        first: InputSet::One(0).if_so(first),
        second: InputSet::One(1).if_so(second),
    }
}

/// The level behind a bubble, if there is one.
fn bubbled(bubble: bool, level: u64) -> u64
    ensures { result ≡ bubbled bubble level }
{
    if bubble {
        1u64.saturating_sub(level)
    } else {
        level
    }
}

/// What holds an output of a CALL.
fn call_sets(memory: &Memory, port: u32) -> InputSets
    ensures { sets_list result ≡ call_sets memory.now port }
{
    if port == 0 {
        return calling_sets(memory);
    }
    let request = port - 1;
    returning_sets(client_at(request), request, memory.served)
}

/// Done while a client is served, and both requests.
fn calling_sets(memory: &Memory) -> InputSets
    ensures { sets_list result ≡ calling_sets memory.now }
{
    InputSets {
        first: InputSet::One(2).if_so(memory.served != Client::Nobody),
        second: InputSet::Two(0, 1),
    }
}

/// Done, and the request of a client that isn't served.
fn returning_sets(client: Client, request: u32, served: Client) -> InputSets
    ensures { sets_list result ≡ returning_sets client request served }
{
    let request = InputSet::One(request as usize);
    let done = InputSet::One(2);
    if served == Client::Nobody {
        return InputSets {
            first: request,
            second: done,
        };
    }
    InputSets {
        first: done,
        second: request.if_so(client != served),
    }
}

/// The done of an ARBITER's owner, and the request of a client that doesn't wait.
fn granting_sets(memory: &Memory, port: u32) -> InputSets
    ensures { sets_list result ≡ granting_sets (client_at port) port memory.now }
{
    let is_waiting = if port == 0 {
        memory.waiting.first
    } else {
        memory.waiting.second
    };
    InputSets {
        first: owning_set(memory.served),
        second: InputSet::One(port as usize).if_so(!is_waiting),
    }
}

fn owning_set(owner: Client) -> InputSet
    ensures { set_list result ≡ owning_sets owner }
{
    match owner {
        Client::Nobody => InputSet::None,
        Client::First => InputSet::One(2),
        Client::Second => InputSet::One(3),
    }
}

/// Capture and pass while they hold the data, and the data if they are what is held; of the other outputs their inputs.
fn register_sets(memory: &Memory, port: u32) -> InputSets
    ensures { sets_list result ≡ register_sets memory.now port }
{
    if port > 0 {
        return InputSets::one(InputSet::One(port as usize));
    }
    let [data, capture, pass, _] = memory.inputs;
    InputSets {
        first: InputSet::Two(1, 2).if_so(capture != pass),
        second: InputSet::One(0).if_so(data == memory.output(0)),
    }
}

/// The client whose port this is.
fn client_at(port: u32) -> Client
    ensures { result ≡ client_at port }
{
    if port == 0 {
        Client::First
    } else {
        Client::Second
    }
}
