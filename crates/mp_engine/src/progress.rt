//! How far a run is, for somebody who waits for it.
ghost use Rattle.std.specs.Prelude.{◌<◌, ◌≤◌};

use mp_netlist::Netlist;
use std::alloc::Global;
use std::fs::File;
use std::io::Write;
use std::sync::atomic::{AtomicU64, Ordering};

/// A thread writes at most this many lines.
const LINES: u32 = 64;

/// For a line the changes of all wires are counted. A thread looks at this many wires for all its lines, so with more than 65,536 wires it writes fewer.
const MOST_LOOKS: u32 = 4_194_304;

/// A file in which a run writes how far it is, with a line after each of some stretches of its units: `512 of 65536 units, 9000 changes`. If a line
/// can't be written, the run goes on without it. If several threads run the netlist, their units and changes are added up.
#[derive(Drop)]
pub struct Progress {
    file: File,
    units: AtomicU64,
    changes: AtomicU64,
}

impl Progress {
    /// The lines are written to this file.
    pub fn new(file: File) -> Progress {
        Progress {
            file,
            units: AtomicU64::new(0),
            changes: AtomicU64::new(0),
        }
    }

    /// Adds the units that a thread has run and the changes that it has counted in them. Returns those of all threads.
    pub(crate) fn add(&self, units: u32, changes: usize) -> (u64, u64)
        ensures { units ≤ result.0 }
    {
        let _ = self.changes.fetch_add(changes as u64, Ordering::SeqCst);
        let units = u64::from(units);
        let before = self.units.fetch_add(units, Ordering::SeqCst);
        (
            before.saturating_add(units),
            self.changes.load(Ordering::SeqCst),
        )
    }

    /// Writes that the units before a time are over, and how often wires have changed in them.
    pub(crate) fn write_line(&self, alloc: Global, time: u64, horizon: u32, changes: u64) {
        if let Ok(line) = format!(in alloc; "{time} of {horizon} units, {changes} changes\n") {
            let mut file = &self.file;
            let _ = file.write(line.as_bytes());
        }
    }
}

/// The number of units from one line to the next; all units if no lines are written.
pub(crate) fn stretch_of(progress: Option<&Progress>, netlist: &Netlist) -> u32
    ensures { 0 < result }
{
    let horizon = netlist.horizon();
    if progress.is_none() {
        return horizon;
    }
    let lines = (MOST_LOOKS / netlist.wire_slots().max(1)).clamp(1, LINES);
    (horizon / lines).saturating_add(1)
}
