//! ARBITER: grants ownership to one of two ports at a time.
ghost use Rattle.std.specs.Prelude.{◌≡◌};
ghost use Rattle.mp_modules.specs.Arbiter.{is_owner_done, released, owning, granted, promoted, made_wait, is_engaged, requested, is_request_ignored, before_requests, after_first_request, arbiter_step, is_done_without_grant, is_repeat_request};

use crate::memory::{Client, Memory};

/// The state after a unit with these input levels.
pub(crate) fn arbiter_step(memory: Memory, levels: &[u64]) -> Memory
    ensures { result ≡ arbiter_step memory levels.now }
{
    let first = after_first_request(memory, levels);
    requested(first, Client::Second, memory.is_event(levels, 1)).seen(levels)
}

/// The state after the done events and a grant to a port that waited, if any.
fn before_requests(memory: Memory, levels: &[u64]) -> Memory
    ensures { result ≡ before_requests memory levels.now }
{
    promoted(released(
        memory,
        memory.is_event(levels, 2),
        memory.is_event(levels, 3),
    ))
}

/// The state after these and a request of the first port, if any.
fn after_first_request(memory: Memory, levels: &[u64]) -> Memory
    ensures { result ≡ after_first_request memory levels.now }
{
    let ready = before_requests(memory, levels);
    requested(ready, Client::First, memory.is_event(levels, 0))
}

/// Whether one of the done events is the owner's.
fn is_owner_done(owner: Client, first: bool, second: bool) -> bool
    ensures { result ≡ is_owner_done owner first second }
{
    match owner {
        Client::Nobody => false,
        Client::First => first,
        Client::Second => second,
    }
}

/// The state after these done events: that of the owner ends its ownership.
fn released(memory: Memory, first: bool, second: bool) -> Memory
    ensures { result ≡ released first second memory }
{
    if is_owner_done(memory.served, first, second) {
        memory.serving(Client::Nobody)
    } else {
        memory
    }
}

/// The state in which the port owns and no longer waits.
fn owning(mut memory: Memory, client: Client) -> Memory
    ensures { result ≡ owning client memory }
{
    memory.served = client;
    memory.waiting = memory.waiting.with(client, false);
    memory
}

/// The state after a grant to the port: its grant output changes, and it owns.
fn granted(memory: Memory, client: Client) -> Memory
    ensures { result ≡ granted client memory }
{
    match client {
        Client::Nobody => memory,
        Client::First => owning(memory.flipped(0), Client::First),
        Client::Second => owning(memory.flipped(1), Client::Second),
    }
}

/// The state after a grant to a port that waits, if nobody owns.
fn promoted(memory: Memory) -> Memory
    ensures { result ≡ promoted memory }
{
    if !memory.served.is_free() {
        return memory;
    }
    if memory.waiting.first {
        granted(memory, Client::First)
    } else if memory.waiting.second {
        granted(memory, Client::Second)
    } else {
        memory
    }
}

fn made_wait(mut memory: Memory, client: Client) -> Memory
    ensures { result ≡ made_wait client memory }
{
    memory.waiting = memory.waiting.with(client, true);
    memory
}

/// Whether the port owns or waits.
fn is_engaged(memory: Memory, client: Client) -> bool
    ensures { result ≡ is_engaged client memory }
{
    client.is_same(memory.served) || memory.waiting.has(client)
}

/// The state after a request event of the port, if there is one: it is ignored if the port owns or waits; otherwise the port is granted if nobody
/// owns, and waits if somebody does.
fn requested(memory: Memory, client: Client, event: bool) -> Memory
    ensures { result ≡ requested client event memory }
{
    if !event || is_engaged(memory, client) {
        memory
    } else if memory.served.is_free() {
        granted(memory, client)
    } else {
        made_wait(memory, client)
    }
}

fn is_request_ignored(memory: Memory, client: Client, event: bool) -> bool
    ensures { result ≡ is_request_ignored client event memory }
{
    event && is_engaged(memory, client)
}

/// Whether a done event is ignored.
pub(crate) fn is_done_without_grant(memory: Memory, levels: &[u64]) -> bool
    ensures { result ≡ is_done_without_grant memory levels.now }
{
    let first = memory.is_event(levels, 2);
    let second = memory.is_event(levels, 3);
    match memory.served {
        Client::Nobody => first || second,
        Client::First => second,
        Client::Second => first,
    }
}

/// Whether a request event is ignored.
pub(crate) fn is_repeat_request(memory: Memory, levels: &[u64]) -> bool
    ensures { result ≡ is_repeat_request memory levels.now }
{
    let ready = before_requests(memory, levels);
    let first = after_first_request(memory, levels);
    is_request_ignored(ready, Client::First, memory.is_event(levels, 0))
        || is_request_ignored(first, Client::Second, memory.is_event(levels, 1))
}
