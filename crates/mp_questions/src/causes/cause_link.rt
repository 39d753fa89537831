//! From causes to effects.
ghost use Rattle.std.specs.Prelude.{◌≡◌, ◌<◌, ◌++◌, Some, IfOk, OnOk, map};
ghost use Rattle.std.specs.List.{flat_map};
ghost use Rattle.mp_netlist.specs.Circuit.{IsCircuit};
ghost use Rattle.mp_model.specs.Waves.{AreWavesOf};
ghost use Rattle.mp_questions.specs.causes.Causes.{cause_seen};
ghost use Rattle.mp_questions.specs.causes.Chains.{chain_from};
ghost use Rattle.mp_questions.specs.causes.Links.{link_to, links_by, links_to, links};

use crate::causes::cause::Cause;
use crate::causes::input_event::InputEvent;
use crate::causes::levels::Levels;
use crate::causes::moment::Moment;
use crate::causes::tracer::Tracer;
use crate::causes::wire_change::WireChange;
use mp_model::Waves;
use mp_netlist::Netlist;
use std::alloc::{AllocError, Global};

/// An event of an input, and the change of the module's output that it led to.
#[derive(Clone, Copy, PartialEq, Eq)]
pub struct CauseLink {
    pub cause: WireChange,
    pub effect: WireChange,
}

/// The links of the whole chain of causes of a wire's level at a time: for each of its steps, the last first, one for each event of the cause, by
/// port. There are none for a wire that didn't change, or if there is none. `AllocError` comes if memory runs out: it takes memory for the drivers of
/// wires and for the links.
pub fn links(
    alloc: Global,
    netlist: &Netlist,
    waves: &Waves,
    moment: Moment,
) -> Result<Vec<CauseLink>, AllocError>
    requires { AreWavesOf netlist.now waves.now }
    ensures { IfOk result (λ found. found.items ≡ links netlist.now moment) }
{
    let levels = Levels::new(netlist, waves);
    let Some(last) = levels.last_change(moment) else {
        return Ok(Vec::new(alloc));
    };
    let mut tracer = Tracer::new(alloc, levels)?;
    links_from(alloc, &mut tracer, last)
}

/// The links of the chain of a change.
fn links_from(
    alloc: Global,
    tracer: &mut Tracer<'_>,
    last: WireChange,
) -> Result<Vec<CauseLink>, AllocError>
    requires form { IsCircuit tracer.old.levels.netlist.now }
    requires from { 0 < last.time }
    requires within { last.time < tracer.old.levels.netlist.now.horizon }
    ensures { IfOk result (λ found. found.items ≡ flat_map (links_to tracer.old.levels.netlist.now) (chain_from tracer.old.levels.netlist.now last.time (Some last))) }
{
    let mut links = Vec::new(alloc);
    let mut next = Some(last);
    while let Some(change) = next {
        let cause = tracer.cause_of(change);
        push_links(&mut links, change, &cause)?;
        next = cause.followed();
    }
    Ok(links)
}

/// Appends the links from a cause to its effect.
fn push_links(
    links: &mut Vec<CauseLink>,
    effect: WireChange,
    cause: &Cause<'_>,
) -> Result<(), AllocError>
    ensures { OnOk result (links.new.items ≡ links.old.items ++ links_by effect (cause_seen cause.now)) }
{
    match cause {
        Cause::Outside | Cause::Start(_) => Ok(()),
        Cause::Events(_, events) => push_events(links, effect, events.as_slice()),
    }
}

fn push_events(
    links: &mut Vec<CauseLink>,
    effect: WireChange,
    events: &[InputEvent],
) -> Result<(), AllocError>
    ensures { OnOk result (links.new.items ≡ links.old.items ++ map (link_to effect) events.now) }
{
    for &event in events {
        links.push(CauseLink {
            cause: event.change,
            effect,
        })?;
    }
    Ok(())
}
