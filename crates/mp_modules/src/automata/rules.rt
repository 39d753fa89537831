//! The rules of C, TOGGLE, SELECT, REG, and of the functions that go by their levels.
ghost use Rattle.std.specs.Prelude.{◌≡◌};
ghost use Rattle.mp_modules.specs.automata.Reactions.{differ, join, alternate, choose, hold, meet, pick};

use crate::automata::events::Events;
use crate::automata::phase::Phase;
use crate::automata::reaction::Reaction;

/// Whether exactly one of the two is true.
pub(crate) fn differ(one: bool, other: bool) -> bool
    ensures { result ≡ differ one other }
{
    if one { !other } else { other }
}

/// A unit of a C: the output toggles if both inputs then wait.
pub(crate) fn join(phase: Phase, events: Events) -> Reaction
    ensures { result ≡ join phase events }
{
    let first = differ(phase.waiting.first, events.first);
    let second = differ(phase.waiting.second, events.second);
    if first && second {
        Reaction::quiet(Phase::unserved(false, false)).toggle_first()
    } else {
        Reaction::quiet(Phase::unserved(first, second))
    }
}

/// A unit of a TOGGLE: an event goes to the two outputs in turn.
pub(crate) fn alternate(is_second_next: bool, event: bool) -> Reaction
    ensures { result ≡ alternate is_second_next event }
{
    let quiet = Reaction::quiet(Phase::unserved(differ(is_second_next, event), false));
    if !event {
        quiet
    } else if is_second_next {
        quiet.toggle_second()
    } else {
        quiet.toggle_first()
    }
}

/// A unit of a SELECT: an event goes to the first output if the second input is 1, and otherwise to the second output.
pub(crate) fn choose(is_first_chosen: bool, event: bool) -> Reaction
    ensures { result ≡ choose is_first_chosen event }
{
    let quiet = Reaction::quiet(Phase::unserved(is_first_chosen, false));
    if !event {
        quiet
    } else if is_first_chosen {
        quiet.toggle_first()
    } else {
        quiet.toggle_second()
    }
}

/// A unit of a REG: if it is open then, data that differ from what it held pass. Its two controls pass through.
pub(crate) fn hold(phase: Phase, events: Events) -> Reaction
    ensures { result ≡ hold phase events }
{
    let is_held = differ(phase.waiting.first, differ(events.second, events.third));
    let differs = differ(phase.waiting.second, events.first);
    Reaction::quiet(Phase::unserved(is_held, is_held && differs))
        .toggle_first_if(!is_held && differs)
        .toggle_second_if(events.second)
        .toggle_third_if(events.third)
}

/// A unit of an AND, an OR or a LESS: the output toggles when both inputs come to have the levels that they wait for, or no longer have them.
pub(crate) fn meet(phase: Phase, events: Events) -> Reaction
    ensures { result ≡ meet phase events }
{
    let first = differ(phase.waiting.first, events.first);
    let second = differ(phase.waiting.second, events.second);
    let met = phase.waiting.first && phase.waiting.second;
    Reaction::quiet(Phase::unserved(first, second)).toggle_first_if(differ(met, first && second))
}

/// A unit of a MUX: an event of the input that is chosen then passes, and another choice does if the inputs differed.
pub(crate) fn pick(phase: Phase, events: Events) -> Reaction
    ensures { result ≡ pick phase events }
{
    let is_second = differ(phase.waiting.first, events.third);
    let are_apart = differ(phase.waiting.second, differ(events.first, events.second));
    let passes = if is_second {
        events.second
    } else {
        events.first
    };
    let moves = events.third && phase.waiting.second;
    Reaction::quiet(Phase::unserved(is_second, are_apart)).toggle_first_if(differ(moves, passes))
}
