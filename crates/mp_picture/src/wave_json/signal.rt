//! A wire as a signal.
use crate::wave_json::wave_characters::WaveCharacters;
use crate::wave_json::wave_values::WaveValues;
use crate::{ColumnCell, Numerals};
use mp_netlist::WireRecord;
use mp_streams::{Failed, Out, Sink, Text};

/// The signal of a wire that does this in each column, with levels in these numerals.
#[derive(Clone, Copy)]
pub(crate) struct Signal<'a> {
    pub(crate) numerals: Numerals,
    pub(crate) wire: &'a WireRecord,
    pub(crate) cells: &'a [ColumnCell],
}

impl<'a> Text for Signal<'a> {
    ghost use Rattle.mp_picture.specs.wave_json.Signals.{signal};

    ghost text = { λ it. signal it.numerals it.wire.now it.cells.now };

    fn put_to<S: Sink>(&self, out: &mut Out<S>) -> Result<(), Failed> {
        let (width, cells) = (self.wire.width, self.cells);
        let name = self.wire.name.as_str();
        let wave = WaveCharacters { width, cells };
        let values = ValuesMember {
            width,
            numerals: self.numerals,
            cells,
        };
        let end = (wave, "\"", values, "}");
        ("{\"name\": \"", name, "\", \"wave\": \"", end).put_to(out)
    }
}

/// The values of a wire of this width, in these numerals; nothing if it is 1.
#[derive(Clone, Copy)]
struct ValuesMember<'a> {
    width: u32,
    numerals: Numerals,
    cells: &'a [ColumnCell],
}

impl<'a> Text for ValuesMember<'a> {
    ghost use Rattle.mp_picture.specs.wave_json.Signals.{values_member};

    ghost text = { λ it. values_member it.width it.numerals it.cells.now };

    fn put_to<S: Sink>(&self, out: &mut Out<S>) -> Result<(), Failed> {
        if self.width == 1 {
            return Ok(());
        }
        let values = WaveValues {
            numerals: self.numerals,
            cells: self.cells,
        };
        (", \"data\": [", values, "]").put_to(out)
    }
}
