//! The rules of CALL and ARBITER, which serve clients.
ghost use Rattle.std.specs.Prelude.{◌≡◌};
ghost use Rattle.mp_modules.specs.automata.Reactions.{serve, grant, is_free, end_call, request_call, release, grant_to, promote, is_engaged, request_grant};

use crate::Client;
use crate::automata::events::Events;
use crate::automata::phase::Phase;
use crate::automata::reaction::Reaction;

/// A unit of a CALL: it ends a call, and then takes a request, that of the first client before that of the second.
pub(crate) fn serve(events: Events, reaction: Reaction) -> Reaction
    ensures { result ≡ serve events reaction }
{
    let ready = end_call(events.third, reaction);
    let first = request_call(Client::First, events.first, ready);
    request_call(Client::Second, events.second, first)
}

/// A unit of an ARBITER: its owner releases it, a client that waits becomes the owner, and then it takes requests, that of the first client before
/// that of the second.
pub(crate) fn grant(events: Events, reaction: Reaction) -> Reaction
    ensures { result ≡ grant events reaction }
{
    let ready = promote(release(events.third, events.fourth, reaction));
    let first = request_grant(Client::First, events.first, ready);
    request_grant(Client::Second, events.second, first)
}

fn is_free(client: Client) -> bool
    ensures { result ≡ is_free client }
{
    matches!(client, Client::Nobody)
}

/// Passes a done event to the client that is served, if any.
fn end_call(event: bool, reaction: Reaction) -> Reaction
    ensures { result ≡ end_call event reaction }
{
    if !event {
        return reaction;
    }
    match reaction.phase.served {
        Client::Nobody => reaction,
        Client::First => reaction.toggle_second().with_served(Client::Nobody),
        Client::Second => reaction.toggle_third().with_served(Client::Nobody),
    }
}

/// Serves a request event if nobody is served.
fn request_call(client: Client, event: bool, reaction: Reaction) -> Reaction
    ensures { result ≡ request_call client event reaction }
{
    if event && is_free(reaction.phase.served) {
        reaction.toggle_first().with_served(client)
    } else {
        reaction
    }
}

/// Ends the ownership if the owner has a done event.
fn release(first: bool, second: bool, reaction: Reaction) -> Reaction
    ensures { result ≡ release first second reaction }
{
    let is_done = match reaction.phase.served {
        Client::Nobody => false,
        Client::First => first,
        Client::Second => second,
    };
    if is_done {
        reaction.with_served(Client::Nobody)
    } else {
        reaction
    }
}

/// Toggles the grant output of the client, which then owns and no longer waits.
fn grant_to(client: Client, reaction: Reaction) -> Reaction
    ensures { result ≡ grant_to client reaction }
{
    match client {
        Client::Nobody => reaction,
        Client::First => reaction
            .toggle_first()
            .with_served(Client::First)
            .with_waiting(Client::First, false),
        Client::Second => reaction
            .toggle_second()
            .with_served(Client::Second)
            .with_waiting(Client::Second, false),
    }
}

/// Grants a client that waits, if nobody owns.
fn promote(reaction: Reaction) -> Reaction
    ensures { result ≡ promote reaction }
{
    if !is_free(reaction.phase.served) {
        return reaction;
    }
    if reaction.phase.waiting.first {
        grant_to(Client::First, reaction)
    } else if reaction.phase.waiting.second {
        grant_to(Client::Second, reaction)
    } else {
        reaction
    }
}

/// Whether the client owns or waits.
fn is_engaged(client: Client, phase: Phase) -> bool
    ensures { result ≡ is_engaged client phase }
{
    match client {
        Client::Nobody => is_free(phase.served),
        Client::First => matches!(phase.served, Client::First) || phase.waiting.first,
        Client::Second => matches!(phase.served, Client::Second) || phase.waiting.second,
    }
}

/// Takes a request event of a client that neither owns nor waits: it owns from now on if nobody else does, and otherwise waits.
fn request_grant(client: Client, event: bool, reaction: Reaction) -> Reaction
    ensures { result ≡ request_grant client event reaction }
{
    if !event || is_engaged(client, reaction.phase) {
        return reaction;
    }
    if is_free(reaction.phase.served) {
        grant_to(client, reaction)
    } else {
        reaction.with_waiting(client, true)
    }
}
