//! The wave of a wire, a character for each column.
ghost use Rattle.std.specs.Prelude.{◌≡◌, ◌<◌, ◌∷◌, [], length};
ghost use Rattle.mp_streams.specs.Outgoing.{Writes};
ghost use Rattle.mp_picture.specs.wave_json.Waves.{bit_at, bit_character, bit_digit, bit_symbol, character, has_value, word_character};

use crate::{ColumnCell, ColumnEvents, is_still};
use mp_streams::{Failed, Out, Sink, Text};

/// The wave of a wire of this width that does this in each column.
#[derive(Clone, Copy)]
pub(crate) struct WaveCharacters<'a> {
    pub(crate) width: u32,
    pub(crate) cells: &'a [ColumnCell],
}

impl<'a> Text for WaveCharacters<'a> {
    ghost use Rattle.mp_picture.specs.wave_json.Waves.{wave};

    ghost text = { λ wire. wave wire.width wire.cells.now };

    fn put_to<S: Sink>(&self, out: &mut Out<S>) -> Result<(), Failed> {
        for column in 0..self.cells.len() {
            put_character(out, self.width, self.cells, column)?;
        }
        Ok(())
    }
}

/// Writes the character of a column.
fn put_character<S: Sink>(
    out: &mut Out<S>,
    width: u32,
    cells: &[ColumnCell],
    column: usize,
) -> Result<(), Failed>
    requires { column < length cells.now }
    ensures { Writes result out.old out.new (character width cells.now column ∷ []) }
{
    out.put_bytes(&[character(width, cells, column)])
}

/// The character of a column.
fn character(width: u32, cells: &[ColumnCell], column: usize) -> u8
    requires { column < length cells.now }
    ensures { result ≡ character width cells.now column }
{
    if width == 1 {
        bit_character(cells, column)
    } else {
        word_character(cells, column)
    }
}

/// The character of a column of a wire of width 1: its symbol, or `.` if the column before has the same.
fn bit_character(cells: &[ColumnCell], column: usize) -> u8
    requires { column < length cells.now }
    ensures { result ≡ bit_character cells.now column }
{
    let symbol = bit_symbol(cells[column]);
    if column > 0 && bit_symbol(cells[column - 1]) == symbol {
        b'.'
    } else {
        symbol
    }
}

/// The level of a wire of width 1 at the end of a column, or `x` if it has several events in it.
fn bit_symbol(cell: ColumnCell) -> u8
    ensures { result ≡ bit_symbol cell.events cell.level }
{
    match cell.events {
        ColumnEvents::None | ColumnEvents::One => bit_digit(cell.level),
        ColumnEvents::More => b'x',
    }
}

fn bit_digit(level: u64) -> u8
    ensures { result ≡ bit_digit level }
{
    if level == 0 { b'0' } else { b'1' }
}

/// The character of a column of a wider wire: `=` if a value begins in it.
fn word_character(cells: &[ColumnCell], column: usize) -> u8
    requires { column < length cells.now }
    ensures { result ≡ word_character cells.now column }
{
    if has_value(cells, column) { b'=' } else { b'.' }
}

/// Whether a value begins in a column: in the first one, and in each with an event.
pub(crate) fn has_value(cells: &[ColumnCell], column: usize) -> bool
    requires { column < length cells.now }
    ensures { result ≡ has_value cells.now column }
{
    column == 0 || !is_still(cells[column])
}
