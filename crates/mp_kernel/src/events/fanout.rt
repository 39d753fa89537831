//! The fanout of wires.
ghost use Rattle.std.specs.Prelude.{◌≡◌, ◌-◌, ◌≤◌, ◌++◌, ◌∷◌, [], OnOk, take, drop, length};
ghost use Rattle.mp_kernel.specs.events.Fanouts.{head_of, listed_of};

use crate::events::fanout_entry::FanoutEntry;
use crate::events::fanout_row::FanoutRow;
use std::alloc::{AllocError, Global};
use std::marker::Model;

/// For each wire the inputs of modules of width 1 that read it. Most wires have one reader, which is in `heads`. The readers of all other wires are
/// in one list, wire after wire; `places` has the beginning of each wire's readers there, and the end of the last ones. The head of such a wire has
/// no event.
#[derive(Drop)]
pub struct Fanout {
    heads: Vec<FanoutEntry>,
    places: Vec<usize>,
    list: Vec<FanoutEntry>,
}

impl Model for Fanout {
    ghost use Rattle.std.specs.Prelude.{◌≡◌, ◌+◌, List, length};
    ghost use Rattle.mp_kernel.specs.declared.events.fanout_entry.FanoutEntry.{FanoutEntry};
    ghost use Rattle.mp_kernel.specs.events.Fanouts.{rows_by, rows_of, ArePlaces};

    ghost Value = { List (List FanoutEntry) };

    ghost view = { λ fanout. rows_by fanout.heads.items (rows_of fanout.places.items fanout.list.items) };

    ghost invariant = { λ fanout. (length fanout.heads.items + 1 ≡ length fanout.places.items) × ArePlaces fanout.places.items (length fanout.list.items) };
}

impl Fanout {
    ghost use Rattle.std.specs.Prelude.{◌≡◌, ◌<◌, length, IfOk};
    ghost use Rattle.mp_kernel.specs.events.Toggling.{row_at};

    /// The fanout with these rows, by wire number.
    pub fn from_rows(alloc: Global, rows: &[FanoutRow]) -> Result<Fanout, AllocError>
        ensures { IfOk result (λ fanout. fanout ≡ rows.now) }
    {
        let mut heads = Vec::with_capacity(alloc, rows.len())?;
        let mut places = Vec::with_capacity(alloc, rows.len())?;
        let mut list = Vec::new(alloc);
        places.push(0)?;
        for row in rows {
            add_row(&mut heads, &mut places, &mut list, row.as_slice())?;
        }
        Ok(Fanout {
            heads,
            places,
            list,
        })
    }

    /// Counts the wires with one reader, which brings the heads of all these wires into a cache.
    #[inline(always)]
    pub(crate) fn count_read_once(&self, wires: &[u32]) -> usize {
        let mut count = 0usize;
        for wire in wires {
            if let Some(head) = self.heads.get(*wire as usize) {
                if head.event != 0 {
                    count += 1;
                }
            }
        }
        count
    }

    /// The inputs that read a wire.
    #[inline(always)]
    pub fn of(&self, wire: u32) -> &[FanoutEntry]
        requires { wire < length self.now }
        ensures { result.now ≡ row_at self.now wire }
    {
        let w = wire as usize;
        let heads = self.heads.as_slice();
        if heads[w].event != 0 {
            return part(heads, w, w + 1);
        }
        let places = self.places.as_slice();
        part(self.list.as_slice(), places[w], places[w + 1])
    }
}

/// Adds the inputs that read one wire more.
fn add_row(
    heads: &mut Vec<FanoutEntry>,
    places: &mut Vec<usize>,
    list: &mut Vec<FanoutEntry>,
    row: &[FanoutEntry],
) -> Result<(), AllocError>
    ensures heads { OnOk result (heads.new.items ≡ heads.old.items ++ head_of row.now ∷ []) }
    ensures list { OnOk result (list.new.items ≡ list.old.items ++ listed_of row.now) }
    ensures places { OnOk result (places.new.items ≡ places.old.items ++ length list.new.items ∷ []) }
{
    heads.push(head_of(row))?;
    list.extend_from_slice(listed_of(row))?;
    places.push(list.len())?;
    Ok(())
}

#[inline(always)]
fn part(list: &[FanoutEntry], from: usize, to: usize) -> &[FanoutEntry]
    requires rise { from ≤ to }
    requires within { to ≤ length list.now }
    ensures { result.now ≡ take (to - from) (drop from list.now) }
{
    &list[from..to]
}

/// The only input of a row; if there isn't exactly one, an entry without an event.
fn head_of(row: &[FanoutEntry]) -> FanoutEntry
    ensures { result ≡ head_of row.now }
{
    match row {
        [only] => *only,
        _ => FanoutEntry {
            module: 0,
            event: 0,
        },
    }
}

/// The inputs of a row that go into the list: none if its head has the only one.
fn listed_of(row: &[FanoutEntry]) -> &[FanoutEntry]
    ensures { result.now ≡ listed_of row.now }
{
    match row {
        [only] if only.event != 0 => &[],
        _ => row,
    }
}
