//! A gate that counts who passes it for what.
use mp_depend::{Work, WorkEntries, WorkEntry};
use mp_netlist::ModuleId;
use mp_phase::Gate;
use std::alloc::{AllocError, Global};
use std::sync::Wait;
use std::sync::atomic::{AtomicU64, Ordering};

/// A gate for small netlists: of each module and each span of time it counts how often the module passes for the span. The first count is that
/// of all other passages.
#[derive(Clone, Copy, Drop)]
pub struct PassageCounter<'a> {
    horizon: u32,
    counts: &'a [AtomicU64],
}

/// The counts of a passage counter for a netlist of so many modules that runs up to a horizon.
pub fn counts(alloc: Global, modules: u32, horizon: u32) -> Result<Vec<AtomicU64>, AllocError> {
    let side = u64::from(horizon) + 1;
    let many = u64::from(modules).saturating_mul(side).saturating_mul(side);
    let mut counts = Vec::new(alloc);
    for _ in 0..many {
        counts.push(AtomicU64::new(0))?;
    }
    Ok(counts)
}

impl Gate for PassageCounter<'_> {
    ghost use Rattle.std.specs.Prelude.{true};

    ghost may = { λ gate m from to. true };

    ghost passed = { λ gate m from to. true };

    fn enter<R: Wait>(&self, _rt: &R, module: ModuleId, from: u32, to: u32) {
        let entry = WorkEntry { module, from, to };
        if let Some(count) = self.counts.get(self.place_of(&entry)) {
            count.fetch_add(1, Ordering::SeqCst);
        }
    }
}

impl<'a> PassageCounter<'a> {
    /// A counter up to a horizon, in these counts.
    pub fn new(horizon: u32, counts: &'a [AtomicU64]) -> Self {
        PassageCounter { horizon, counts }
    }

    /// All counts begin anew.
    pub fn clear(&self) {
        for count in self.counts {
            count.store(0, Ordering::SeqCst);
        }
    }

    /// How many modules work up to the horizon, if for each entry of the work its module passed just once, and nobody passed for anything else.
    /// The counts of the entries begin anew.
    pub fn last_passed(&self, work: &Work) -> Option<u32> {
        match work.entries() {
            Ok(mut entries) => {
                let found = self.take_all(&mut entries);
                drop(entries);
                if self.is_clear() { found } else { None }
            }
            Err(_) => None,
        }
    }

    fn place_of(&self, entry: &WorkEntry) -> usize {
        if entry.from > self.horizon || entry.to > self.horizon {
            return 0;
        }
        let side = u64::from(self.horizon) + 1;
        let row = u64::from(entry.module.0)
            .saturating_mul(side)
            .saturating_add(u64::from(entry.from));
        let place = row.saturating_mul(side).saturating_add(u64::from(entry.to)) as usize;
        if place < self.counts.len() { place } else { 0 }
    }

    fn take_all(&self, entries: &mut WorkEntries) -> Option<u32> {
        let mut last = 0u32;
        for _ in 0..self.counts.len() {
            let Some(entry) = entries.next() else {
                return Some(last);
            };
            if !self.takes(&entry) {
                return None;
            }
            if entry.to == self.horizon {
                last = last.saturating_add(1);
            }
        }
        None
    }

    /// Whether the entry's module passed for it just once. Its count begins anew.
    fn takes(&self, entry: &WorkEntry) -> bool {
        match self.counts.get(self.place_of(entry)) {
            Some(count) => count.swap(0, Ordering::SeqCst) == 1,
            None => false,
        }
    }

    fn is_clear(&self) -> bool {
        for count in self.counts {
            if count.load(Ordering::SeqCst) != 0 {
                return false;
            }
        }
        true
    }
}
