//! CALL: two clients share one procedure, one at a time.
ghost use Rattle.std.specs.Prelude.{◌≡◌};
ghost use Rattle.mp_modules.specs.Call.{returned, ended, called, is_call_ignored, before_calls, after_first_call, call_step, is_done_without_call, is_overlap};

use crate::memory::{Client, Memory};

/// The state after a unit with these input levels.
pub(crate) fn call_step(memory: Memory, levels: &[u64]) -> Memory
    ensures { result ≡ call_step memory levels.now }
{
    let first = after_first_call(memory, levels);
    called(first, Client::Second, memory.is_event(levels, 1)).seen(levels)
}

/// The state after a done event, if any.
fn before_calls(memory: Memory, levels: &[u64]) -> Memory
    ensures { result ≡ before_calls memory levels.now }
{
    ended(memory, memory.is_event(levels, 2))
}

/// The state after a done event and a request of the first client, if any.
fn after_first_call(memory: Memory, levels: &[u64]) -> Memory
    ensures { result ≡ after_first_call memory levels.now }
{
    let ready = before_calls(memory, levels);
    called(ready, Client::First, memory.is_event(levels, 0))
}

/// The state after the client's done output has changed; nobody is served then.
fn returned(memory: Memory, client: Client) -> Memory
    ensures { result ≡ returned client memory }
{
    match client {
        Client::Nobody => memory,
        Client::First => memory.flipped(1).serving(Client::Nobody),
        Client::Second => memory.flipped(2).serving(Client::Nobody),
    }
}

/// The state after a done event, if there is one: it is passed to the client that is served, if any.
fn ended(memory: Memory, event: bool) -> Memory
    ensures { result ≡ ended event memory }
{
    if event {
        returned(memory, memory.served)
    } else {
        memory
    }
}

/// The state after a request event, if there is one: the client is served if nobody else is.
fn called(memory: Memory, client: Client, event: bool) -> Memory
    ensures { result ≡ called client event memory }
{
    if event && memory.served.is_free() {
        memory.flipped(0).serving(client)
    } else {
        memory
    }
}

fn is_call_ignored(memory: Memory, event: bool) -> bool
    ensures { result ≡ is_call_ignored event memory }
{
    event && !memory.served.is_free()
}

/// Whether a done event is ignored.
pub(crate) fn is_done_without_call(memory: Memory, levels: &[u64]) -> bool
    ensures { result ≡ is_done_without_call memory levels.now }
{
    memory.is_event(levels, 2) && memory.served.is_free()
}

/// Whether a request event is ignored.
pub(crate) fn is_overlap(memory: Memory, levels: &[u64]) -> bool
    ensures { result ≡ is_overlap memory levels.now }
{
    let ready = before_calls(memory, levels);
    let first = after_first_call(memory, levels);
    is_call_ignored(ready, memory.is_event(levels, 0))
        || is_call_ignored(first, memory.is_event(levels, 1))
}
