//! What a wire does in a column.
ghost use Rattle.std.specs.Prelude.{◌≡◌, ◌≤◌, IfOk, length, nat_lt};
ghost use Rattle.std.specs.List.{prefix_len};
ghost use Rattle.mp_wave.specs.Waveform.{level_of, last_from};
ghost use Rattle.mp_wave.specs.WaveChanges.{changes_in};
ghost use Rattle.mp_picture.specs.Cells.{cells, events_of};

use crate::columns::Columns;
use mp_wave::{Wave, WaveChanges};
use std::alloc::{AllocError, Global};

/// How many events a wire has in a column.
#[derive(Clone, Copy, PartialEq, Eq)]
pub enum ColumnEvents {
    None,
    One,
    More,
}

/// What a wire does in a column: its events, and its level at the column's last unit.
#[derive(Clone, Copy, PartialEq, Eq)]
pub struct ColumnCell {
    pub events: ColumnEvents,
    pub level: u64,
}

/// What a wave does in each column: a cell for each, from the first column on, by one pass over the changes in the range. An event is a difference
/// from the level one unit before. A change at the range's first unit isn't one. The error comes if memory runs out.
pub fn cells(alloc: Global, wave: &Wave, columns: Columns) -> Result<Vec<ColumnCell>, AllocError>
    ensures { IfOk result (λ list. list.items ≡ cells (level_of wave.now) columns) }
{
    let mut list = Vec::with_capacity(alloc, columns.count() as usize)?;
    let mut level = wave.level_at(columns.from);
    let mut rest = wave.changes_between(columns.from, columns.to);
    for column in 0..columns.count() {
        let count = count_before(rest, columns.end(column));
        level = last_level(level, rest.before_place(count));
        rest = rest.from_place(count);
        list.push(ColumnCell {
            events: events_of(count),
            level,
        })?;
    }
    Ok(list)
}

/// How many changes from the front on are before a time.
fn count_before(changes: WaveChanges<'_>, time: u32) -> usize
    ensures value { result ≡ prefix_len (λ change. nat_lt change.0 time) (changes_in changes.entry) }
    ensures within { result ≤ length (changes_in changes.entry) }
{
    for place in 0..changes.len() {
        if changes.time_at(place) >= time {
            return place;
        }
    }
    changes.len()
}

/// The level after some changes.
fn last_level(level: u64, changes: WaveChanges<'_>) -> u64
    ensures { result ≡ last_from level (changes_in changes.entry) }
{
    match changes.last() {
        Some(last) => last.1,
        None => level,
    }
}

fn events_of(count: usize) -> ColumnEvents
    ensures { result ≡ events_of count }
{
    match count {
        0 => ColumnEvents::None,
        1 => ColumnEvents::One,
        _ => ColumnEvents::More,
    }
}
