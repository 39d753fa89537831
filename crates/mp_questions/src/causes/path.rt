//! How the time of a chain of causes divides among modules.
ghost use Rattle.std.specs.Prelude.{◌≡◌, ◌++◌};
ghost use Rattle.std.specs.List.{flat_map};
ghost use Rattle.mp_streams.specs.Outgoing.{Writes as WritesTo};
ghost use Rattle.mp_streams.specs.WriteErrors.{Writes};
ghost use Rattle.mp_model.specs.Waves.{AreWavesOf};
ghost use Rattle.mp_questions.specs.causes.Paths.{before_line, path_since, path_text, share_line};

use crate::causes::levels::Levels;
use crate::causes::module_share::ModuleShare;
use crate::causes::moment::Moment;
use crate::causes::shares::{by_units, shares_above};
use crate::causes::tracer::Tracer;
use crate::timing::read_time;
use mp_model::Waves;
use mp_netlist::Netlist;
use mp_streams::{Failed, Out, Sink, Text, WriteError};
use std::alloc::Global;

/// Writes how the time up to a wire's level divides among modules: a line `MODULE UNITS STEPS` for each module of the whole chain of causes, with the
/// units that passed in it and the number of steps. The most units come first, and of equal ones the lesser number. Nothing is written for a wire
/// that didn't change, or if there is none.
///
/// `WriteFailed` comes if the sink fails; then the sink has a beginning of what was held and of the text, and nothing is held. `OutOfMemory` comes if
/// memory runs out; then nothing is written. It takes memory for the drivers of wires and for two numbers of each module. A step of the chain takes
/// searches in the waves of one module's inputs.
pub fn put_path<S: Sink>(
    alloc: Global,
    out: &mut Out<S>,
    netlist: &Netlist,
    waves: &Waves,
    moment: Moment,
) -> Result<(), WriteError>
    requires { AreWavesOf netlist.now waves.now }
    ensures { Writes result out.old out.new (path_text netlist.now moment) }
{
    // Its contract says that the netlist is well formed.
    let _horizon = netlist.horizon();
    put_path_since(alloc, out, netlist, waves, moment, 0)
}

/// Writes the same of the part of the chain above a time: units and steps count above it, and of a step that goes over it the units behind it. A last
/// line `- FROM UNITS` has the units from the beginning of the chain to that time; it is left out if the chain begins then or later. A time at or above
/// the horizon is read as the horizon's last unit.
///
/// The errors come as in `put_path`, and it takes as much memory.
pub fn put_path_since<S: Sink>(
    alloc: Global,
    out: &mut Out<S>,
    netlist: &Netlist,
    waves: &Waves,
    moment: Moment,
    from: u64,
) -> Result<(), WriteError>
    requires { AreWavesOf netlist.now waves.now }
    ensures { Writes result out.old out.new (path_since netlist.now moment from) }
{
    let levels = Levels::new(netlist, waves);
    let Some(last) = levels.last_change(moment) else {
        return Ok(());
    };
    let since = read_time(netlist.horizon(), from);
    let mut tracer = Tracer::new(alloc, levels)?;
    let found = shares_above(alloc, &mut tracer, last, since)?;
    let begin = found.begin;
    let shares = by_units(found.shares);
    put_above(out, netlist, shares.as_slice(), since, begin)?;
    Ok(())
}

/// Writes a line for each share above a time, and one for what lies before.
fn put_above<S: Sink>(
    out: &mut Out<S>,
    netlist: &Netlist,
    shares: &[ModuleShare],
    from: u32,
    begin: u32,
) -> Result<(), Failed>
    ensures { WritesTo result out.old out.new (flat_map (share_line netlist.now) shares.now ++ before_line from begin) }
{
    put_shares(out, netlist, shares)?;
    put_before(out, from, begin)
}

/// Writes how long a chain had been on its way at a time, if it began before.
fn put_before<S: Sink>(out: &mut Out<S>, from: u32, begin: u32) -> Result<(), Failed>
    ensures { WritesTo result out.old out.new (before_line from begin) }
{
    if begin >= from {
        return Ok(());
    }
    ("- ", from, " ", (from - begin, "\n")).put_to(out)
}

/// Writes a line for each share.
fn put_shares<S: Sink>(
    out: &mut Out<S>,
    netlist: &Netlist,
    shares: &[ModuleShare],
) -> Result<(), Failed>
    ensures { WritesTo result out.old out.new (flat_map (share_line netlist.now) shares.now) }
{
    for &share in shares {
        put_share(out, netlist, share)?;
    }
    Ok(())
}

/// Writes the line of a share, as in `put_path`. `Failed` comes as there.
pub fn put_share<S: Sink>(
    out: &mut Out<S>,
    netlist: &Netlist,
    share: ModuleShare,
) -> Result<(), Failed>
    ensures { WritesTo result out.old out.new (share_line netlist.now share) }
{
    match netlist.module(share.id) {
        Some(part) => {
            let (name, units, steps) = (part.name.as_str(), share.units, share.steps);
            (name, " ", units, (" ", steps, "\n")).put_to(out)
        }
        None => Ok(()),
    }
}
