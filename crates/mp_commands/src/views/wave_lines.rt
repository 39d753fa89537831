//! The lines of a netlist's waves.
ghost use Rattle.std.specs.Prelude.{◌≡◌};
ghost use Rattle.mp_netlist.specs.Circuit.{wire_at};
ghost use Rattle.mp_model.specs.Waves.{wave};
ghost use Rattle.mp_streams.specs.Outgoing.{Writes};
ghost use Rattle.mp_commands.specs.views.Outputs.{slot_line, waves_text};

use crate::views::evaluated::Evaluated;
use mp_netlist::WireId;
use mp_streams::{Failed, Out, Sink, Text};
use mp_text::{ChangeTexts, ShortChanges, ToggleTexts};
use mp_wave::WaveChanges;

/// Changes of a wave, each written as ` T=V`.
#[derive(Clone, Copy)]
struct WrittenChanges<'a> {
    changes: WaveChanges<'a>,
}

impl<'a> Text for WrittenChanges<'a> {
    ghost use Rattle.mp_wave.specs.WaveChanges.{changes_in};
    ghost use Rattle.mp_text.specs.lexing.WaveLines.{changes_text};

    ghost text = { λ written. changes_text (changes_in written.changes) };

    fn put_to<S: Sink>(&self, out: &mut Out<S>) -> Result<(), Failed> {
        match self.changes {
            WaveChanges::Toggles { level, times } => ToggleTexts { level, times }.put_to(out),
            WaveChanges::ShortPairs(changes) => ShortChanges { changes }.put_to(out),
            WaveChanges::Pairs(changes) => ChangeTexts { changes }.put_to(out),
        }
    }
}

/// Writes the line of each wire that stands, by number.
pub fn put_wave_lines<T: Sink>(out: &mut Out<T>, of: &Evaluated<'_>) -> Result<(), Failed>
    ensures { Writes result out.old out.new (waves_text of.now.netlist.now) }
{
    for number in 0..of.netlist.wire_slots() {
        put_wave_line(out, of, WireId(number))?;
    }
    Ok(())
}

/// Writes the line of the wire of this number; nothing if there is none.
pub fn put_wave_line<T: Sink>(
    out: &mut Out<T>,
    of: &Evaluated<'_>,
    id: WireId,
) -> Result<(), Failed>
    ensures { Writes result out.old out.new (slot_line (wire_at of.now.netlist.now id.0) (wave of.now.netlist.now id.0)) }
{
    let Some(wire) = of.netlist.wire(id) else {
        return Ok(());
    };
    let Some(wave) = of.waves.of(id) else {
        return Ok(());
    };
    let changes = WrittenChanges {
        changes: wave.changes(),
    };
    (wire.name.as_str(), " ", wave.initial(), (changes, "\n")).put_to(out)
}
