//! The values of a wider wire.
ghost use Rattle.std.specs.Prelude.{◌<◌, length};
ghost use Rattle.mp_streams.specs.Outgoing.{Writes};
ghost use Rattle.mp_picture.specs.wave_json.Signals.{value_item};

use crate::level_text::LevelText;
use crate::wave_json::wave_characters::has_value;
use crate::{ColumnCell, Numerals};
use mp_streams::{Failed, Out, Sink, Text};

/// The values of a wire that does this in each column, in these numerals.
#[derive(Clone, Copy)]
pub(crate) struct WaveValues<'a> {
    pub(crate) numerals: Numerals,
    pub(crate) cells: &'a [ColumnCell],
}

impl<'a> Text for WaveValues<'a> {
    ghost use Rattle.mp_picture.specs.wave_json.Signals.{values};

    ghost text = { λ wire. values wire.numerals wire.cells.now };

    fn put_to<S: Sink>(&self, out: &mut Out<S>) -> Result<(), Failed> {
        for column in 0..self.cells.len() {
            put_value(out, self.numerals, self.cells, column)?;
        }
        Ok(())
    }
}

/// Writes the value that begins in a column, if one does, with a comma before it behind others.
fn put_value<S: Sink>(
    out: &mut Out<S>,
    numerals: Numerals,
    cells: &[ColumnCell],
    column: usize,
) -> Result<(), Failed>
    requires { column < length cells.now }
    ensures { Writes result out.old out.new (value_item numerals cells.now column) }
{
    if !has_value(cells, column) {
        return Ok(());
    }
    let start = if column == 0 { "\"" } else { ", \"" };
    let level = LevelText::new(numerals, cells[column].level);
    (start, level, "\"").put_to(out)
}
