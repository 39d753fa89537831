//! The row of a wire.
ghost use Rattle.std.specs.Prelude.{◌≡◌, ◌≤◌, ◌++◌, length, OnOk};
ghost use Rattle.std.specs.List.{prefix_len};
ghost use Rattle.mp_model.specs.Waves.{AreWavesOf};
ghost use Rattle.mp_wave.specs.Waveform.{level_of};
ghost use Rattle.mp_picture.specs.Cells.{cells};
ghost use Rattle.mp_picture.specs.Diagrams.{wire_line};
ghost use Rattle.mp_picture.specs.Rows.{is_still, narrow_text, wide_text, run_text, row_text, wire_row};

use crate::cell::{ColumnCell, ColumnEvents, cells};
use crate::layout::DiagramLayout;
use crate::level_text::LevelText;
use crate::mark::{Charset, Mark};
use crate::repeated::{push_padded, push_repeated};
use mp_model::Waves;
use mp_netlist::{Netlist, WireId, WireRecord};
use mp_wave::Wave;
use std::alloc::AllocError;

/// Puts the row of a wire behind the text, given the waves of its netlist, and nothing if there is no wire: its name, filled with blanks to the width
/// of the names, a character a column, and a line feed.
pub fn push_wire_line(
    row: &mut Vec<u8>,
    netlist: &Netlist,
    waves: &Waves,
    layout: DiagramLayout,
    wire: WireId,
) -> Result<(), AllocError>
    requires waves { AreWavesOf netlist.now waves.now }
    requires within { layout.columns.to ≤ netlist.now.horizon }
    ensures { OnOk result (row.new.items ≡ row.old.items ++ wire_line netlist.now layout wire) }
{
    match (netlist.wire(wire), waves.of(wire)) {
        (Some(found), Some(wave)) => push_wave_row(row, layout, found, wave),
        _ => Ok(()),
    }
}

fn push_wave_row(
    row: &mut Vec<u8>,
    layout: DiagramLayout,
    wire: &WireRecord,
    wave: &Wave,
) -> Result<(), AllocError>
    ensures { OnOk result (row.new.items ≡ row.old.items ++ wire_row layout wire.now (cells (level_of wave.now) layout.columns)) }
{
    let cells = cells(*row.allocator(), wave, layout.columns)?;
    push_padded(row, wire.name.as_str().as_bytes(), layout.margin)?;
    push_cells(row, layout, wire.width, cells.as_slice())?;
    row.push(b'\n')?;
    Ok(())
}

fn push_cells(
    row: &mut Vec<u8>,
    layout: DiagramLayout,
    width: u32,
    cells: &[ColumnCell],
) -> Result<(), AllocError>
    ensures { OnOk result (row.new.items ≡ row.old.items ++ row_text layout width cells.now) }
{
    if width == 1 {
        push_narrow(row, layout.charset, layout.columns.units, cells)
    } else {
        push_wide(row, layout, cells)
    }
}

/// Puts a mark for each column of a wire of width 1.
fn push_narrow(
    row: &mut Vec<u8>,
    charset: Charset,
    units: u32,
    cells: &[ColumnCell],
) -> Result<(), AllocError>
    ensures { OnOk result (row.new.items ≡ row.old.items ++ narrow_text charset units cells.now) }
{
    for &cell in cells {
        row.extend_from_slice(Mark::of(units, cell).text(charset))?;
    }
    Ok(())
}

/// Puts a cross for each column of a wider wire with events, and the levels between them if they fit.
fn push_wide(
    row: &mut Vec<u8>,
    layout: DiagramLayout,
    cells: &[ColumnCell],
) -> Result<(), AllocError>
    ensures { OnOk result (row.new.items ≡ row.old.items ++ wide_text layout cells.now) }
{
    let Some(first) = cells.first() else {
        return Ok(());
    };
    let room = still_count(cells);
    push_run(row, layout, first.level, room)?;
    let mut rest = cells.split_at(room).1;
    while let Some((cell, later)) = rest.split_first() {
        let room = still_count(later);
        row.extend_from_slice(Mark::Cross.text(layout.charset))?;
        push_run(row, layout, cell.level, room)?;
        rest = later.split_at(room).1;
    }
    Ok(())
}

/// The number of cells at the front that have no event.
pub fn still_count(cells: &[ColumnCell]) -> usize
    ensures value { result ≡ prefix_len is_still cells.now }
    ensures within { result ≤ length cells.now }
{
    cells.iter().take_while(|cell| is_still(**cell)).count()
}

/// Whether a cell has no event.
pub fn is_still(cell: ColumnCell) -> bool
    ensures { result ≡ is_still cell }
{
    match cell.events {
        ColumnEvents::None => true,
        ColumnEvents::One | ColumnEvents::More => false,
    }
}

/// Appends a number of columns without an event: the level if it fits, and then flat ones.
fn push_run(
    row: &mut Vec<u8>,
    layout: DiagramLayout,
    level: u64,
    room: usize,
) -> Result<(), AllocError>
    ensures { OnOk result (row.new.items ≡ row.old.items ++ run_text layout level room) }
{
    let text = LevelText::new(layout.numerals, level);
    let flat = Mark::Flat.text(layout.charset);
    if text.len() > room {
        return push_repeated(row, flat, room);
    }
    row.extend_from_slice(text.prefix().as_bytes())?;
    row.extend_from_slice(text.digits())?;
    push_repeated(row, flat, room - text.len())
}
