//! The WaveJSON of a picture.
ghost use Rattle.std.specs.Prelude.{◌≡◌, ◌≤◌, ◌&&◌, IfOk, not};
ghost use Rattle.std.specs.List.{flat_map};
ghost use Rattle.mp_streams.specs.WriteErrors.{Writes};
ghost use Rattle.mp_streams.specs.Outgoing.{Writes as WritesText};
ghost use Rattle.mp_model.specs.Waves.{AreWavesOf};
ghost use Rattle.mp_picture.specs.wave_json.WaveJson.{ending, has_some, item_at, signal_item, signal_line, wave_json, without_first};

use crate::columns::Columns;
use crate::wave_json::signal::Signal;
use crate::{Picture, cells};
use mp_netlist::WireId;
use mp_streams::{Failed, Out, Sink, Text, WriteError};
use std::alloc::Global;

const ENDING: &str = "\n],\n\"head\": {\"text\": \"time in units of ";

/// Writes the waves of a picture as WaveJSON (https://github.com/wavedrom/schema/blob/master/WaveJSON.md), which WaveDrom draws: a signal for each wire,
/// with a character for each column, and above a column its first unit, in units of a column. It has nothing of what the report finds.
///
/// `WriteFailed` comes if the sink fails; then the sink has a beginning of what was held and of the text, and nothing is held. `OutOfMemory` comes if
/// memory runs out; then a beginning of the text is written. It takes memory for the cells of one wire.
pub fn put_wave_json<S: Sink>(
    alloc: Global,
    out: &mut Out<S>,
    picture: &Picture,
) -> Result<(), WriteError>
    requires waves { AreWavesOf picture.now.netlist.now picture.now.waves.now }
    requires within { picture.now.columns.to ≤ picture.now.netlist.now.horizon }
    ensures { Writes result out.old out.new (wave_json picture.now.netlist.now picture.now.columns picture.now.numerals picture.now.wires.now) }
{
    out.put_text("{\"signal\": [")?;
    put_signals(alloc, out, picture)?;
    put_end(out, picture.columns)?;
    Ok(())
}

/// Writes the signals, with a comma between.
fn put_signals<S: Sink>(
    alloc: Global,
    out: &mut Out<S>,
    picture: &Picture,
) -> Result<(), WriteError>
    requires waves { AreWavesOf picture.now.netlist.now picture.now.waves.now }
    requires within { picture.now.columns.to ≤ picture.now.netlist.now.horizon }
    ensures { Writes result out.old out.new (without_first (flat_map (signal_item picture.now.netlist.now picture.now.columns picture.now.numerals) picture.now.wires.now)) }
{
    let mut is_first = true;
    for &wire in picture.wires {
        is_first = put_signal(alloc, out, picture, wire, is_first)?;
    }
    Ok(())
}

/// Writes the signal of a wire, without its comma if it is the first, and nothing if there is no wire. Returns whether the next one is the first.
fn put_signal<S: Sink>(
    alloc: Global,
    out: &mut Out<S>,
    picture: &Picture,
    wire: WireId,
    is_first: bool,
) -> Result<bool, WriteError>
    requires waves { AreWavesOf picture.now.netlist.now picture.now.waves.now }
    requires within { picture.now.columns.to ≤ picture.now.netlist.now.horizon }
    ensures written { Writes result out.old out.new (item_at is_first (signal_item picture.now.netlist.now picture.now.columns picture.now.numerals wire)) }
    ensures first { IfOk result (λ next. next ≡ (is_first && not (has_some (signal_item picture.now.netlist.now picture.now.columns picture.now.numerals wire)))) }
{
    let (Some(found), Some(wave)) = (picture.netlist.wire(wire), picture.waves.of(wire)) else {
        return Ok(is_first);
    };
    let cells = cells(alloc, wave, picture.columns)?;
    let signal = Signal {
        numerals: picture.numerals,
        wire: found,
        cells: cells.as_slice(),
    };
    put_line(out, signal, is_first)?;
    Ok(false)
}

/// Writes a signal on a line of its own, behind a comma if it isn't the first.
fn put_line<S: Sink>(out: &mut Out<S>, signal: Signal<'_>, is_first: bool) -> Result<(), Failed>
    ensures { WritesText result out.old out.new (item_at is_first (signal_line signal.entry.numerals signal.entry.wire.now signal.entry.cells.now)) }
{
    if is_first {
        ("\n", signal).put_to(out)
    } else {
        (",\n", signal).put_to(out)
    }
}

/// Writes what is behind the signals.
fn put_end<S: Sink>(out: &mut Out<S>, columns: Columns) -> Result<(), Failed>
    ensures { WritesText result out.old out.new (ending columns) }
{
    let tick = columns.from / columns.units;
    (ENDING, columns.units, "\", \"tick\": ", (tick, "}}\n")).put_to(out)
}
