//! The events and gaps of some wires over a range of times.
ghost use Rattle.std.specs.Prelude.{◌≡◌, ◌<◌, ◌≤◌, [], bytes_eq, if◌then◌else◌, length, slice_index_or, take};
ghost use Rattle.std.specs.List.{list_any};
ghost use Rattle.mp_streams.specs.Outgoing.{Writes};
ghost use Rattle.mp_netlist.specs.Circuit.{IsCircuit};
ghost use Rattle.mp_model.specs.Waves.{AreWavesOf};
ghost use Rattle.mp_questions.specs.timing.Measures.{named_measure, wire_measures};

use crate::timing::measure::put_wire;
use crate::timing::range::{TimeRange, Units};
use mp_model::Waves;
use mp_netlist::{Name, Netlist};
use mp_streams::{Failed, Out, Sink};

/// Writes the line of `put_measure` for each wire with one of these names, given the waves of the netlist: in the order of the names, each once. A name
/// that no wire has has no line.
///
/// `Failed` comes if the sink fails; then the sink has a beginning of what was held and of the lines, and nothing is held. It takes no memory, and
/// reads the wave of each of these wires once.
pub fn put_wire_measures<S: Sink>(
    out: &mut Out<S>,
    netlist: &Netlist,
    waves: &Waves,
    range: TimeRange,
    names: &[Name],
) -> Result<(), Failed>
    requires { AreWavesOf netlist.now waves.now }
    ensures { Writes result out.old out.new (wire_measures netlist.now range.from range.to names.now) }
{
    let units = range.read(netlist.horizon());
    for place in 0..names.len() {
        put_at(out, netlist, waves, units, names, place)?;
    }
    Ok(())
}

/// Writes the line of the wire with the name at a place, unless a name before it is the same.
fn put_at<S: Sink>(
    out: &mut Out<S>,
    netlist: &Netlist,
    waves: &Waves,
    units: Units,
    names: &[Name],
    place: usize,
) -> Result<(), Failed>
    requires form { IsCircuit netlist.now }
    requires waves { AreWavesOf netlist.now waves.now }
    requires units { units.to ≤ netlist.now.horizon }
    requires place { place < length names.now }
    ensures { Writes result out.old out.new (if list_any (λ before. bytes_eq before (slice_index_or names.now place [])) (take place names.now) then [] else named_measure netlist.now units.from units.to (slice_index_or names.now place [])) }
{
    let name = names[place].as_str();
    if has_name(&names[..place], name) {
        return Ok(());
    }
    put_named(out, netlist, waves, units, name)
}

fn has_name(names: &[Name], name: &str) -> bool
    ensures { result ≡ list_any (λ other. bytes_eq other name.now) names.now }
{
    names.iter().any(|other| other.as_str() == name)
}

/// Writes the line of the wire with a name; nothing if there is none.
fn put_named<S: Sink>(
    out: &mut Out<S>,
    netlist: &Netlist,
    waves: &Waves,
    units: Units,
    name: &str,
) -> Result<(), Failed>
    requires form { IsCircuit netlist.now }
    requires waves { AreWavesOf netlist.now waves.now }
    requires within { units.to ≤ netlist.now.horizon }
    ensures { Writes result out.old out.new (named_measure netlist.now units.from units.to name.now) }
{
    match netlist.wire_named(name) {
        Some(wire) => put_wire(out, netlist, waves, units, wire),
        None => Ok(()),
    }
}
