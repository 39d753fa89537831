//! The line of times above a picture.
ghost use Rattle.std.specs.Prelude.{◌≡◌, ◌++◌, ◌*◌, ◌<◌, ◌≤◌, OnOk};
ghost use Rattle.std.specs.Fmt.{decimal};
ghost use Rattle.mp_picture.specs.Columns.{count};
ghost use Rattle.mp_picture.specs.Rows.{ruler, padded, tick, tick_step, last_tick, touches};

use crate::columns::Columns;
use crate::layout::DiagramLayout;
use crate::repeated::{push_number, push_padded, push_repeated};
use itoa::Buffer;
use std::alloc::AllocError;

/// The distance of times, in columns; twice as much if two times would touch.
const DISTANCE: u32 = 10;

/// The least number with as many digits as there are columns from one time to the next.
const TEN_DIGITS: u32 = 1_000_000_000;

/// Appends the line of times: at each tenth column, or at each twentieth if two would touch, the time at which the column begins. There are no blanks
/// after the last one.
pub fn push_ruler(row: &mut Vec<u8>, layout: DiagramLayout) -> Result<(), AllocError>
    ensures { OnOk result (row.new.items ≡ row.old.items ++ ruler layout) }
{
    let columns = layout.columns;
    let last = last_tick(columns);
    push_repeated(row, b" ", layout.margin)?;
    for number in 0..last {
        push_tick(row, columns, number)?;
    }
    push_number(row, u64::from(tick(columns, last)))?;
    row.push(b'\n')?;
    Ok(())
}

/// Puts a time, filled up to the next.
fn push_tick(row: &mut Vec<u8>, columns: Columns, number: u32) -> Result<(), AllocError>
    requires { number ≤ last_tick columns }
    ensures { OnOk result (row.new.items ≡ row.old.items ++ padded (tick_step columns) (tick columns number)) }
{
    let mut digits = Buffer::new();
    let time = tick(columns, number);
    push_padded(
        row,
        digits.format(time).as_bytes(),
        tick_step(columns) as usize,
    )
}

/// The time of this number.
fn tick(columns: Columns, number: u32) -> u32
    requires { number ≤ last_tick columns }
    ensures { decimal result ≡ tick columns number }
{
    columns.begin(tick_step(columns) * number)
}

/// The number of columns from one time of the ruler to the next: ten, or twenty if two times would touch.
pub fn tick_step(columns: Columns) -> u32
    ensures value { result ≡ tick_step columns }
    ensures some { 0 < result }
{
    if touches(columns) {
        2 * DISTANCE
    } else {
        DISTANCE
    }
}

/// The number of the ruler's last time, counted from 0.
pub fn last_tick(columns: Columns) -> u32
    ensures value { result ≡ last_tick columns }
    ensures within { tick_step columns * result < count columns }
    ensures few { 10 * result < count columns }
{
    (columns.count() - 1) / tick_step(columns)
}

/// Whether of the times at each tenth column the last but one has ten digits, and would touch the last.
fn touches(columns: Columns) -> bool
    ensures { result ≡ touches columns }
{
    let last = (columns.count() - 1) / DISTANCE;
    last > 0 && columns.begin(DISTANCE * (last - 1)) >= TEN_DIGITS
}
