//! Which modules are connected by a wire.
use crate::regions::groups::put;
use crate::regions::home::{NOWHERE, partition_of};
use mp_netlist::{Input, ModuleId, Netlist};
use std::alloc::{AllocError, Global};

/// For each module those that drive what it reads, and those that read what it drives: if its part of the list begins, and the list.
#[derive(Drop)]
pub struct Neighbors {
    starts: Vec<u32>,
    list: Vec<u32>,
}

impl Neighbors {
    /// The neighbors in a netlist, of whose wires these modules are the drivers.
    pub fn of(alloc: Global, netlist: &Netlist, drivers: &[u32]) -> Result<Neighbors, AllocError> {
        let pairs = pairs_of(alloc, netlist, drivers)?;
        let starts = starts_of(alloc, netlist.module_slots(), pairs.as_slice())?;
        let list = list_of(alloc, starts.as_slice(), pairs.as_slice())?;
        Ok(Neighbors { starts, list })
    }

    /// The modules in the order in which a walk takes them. It begins with the first of these starts, and again with the next one wherever it comes
    /// to an end. Among the neighbors of the modules taken so far, it takes next the one with the fewest neighbors that aren't taken, so it leaves
    /// few of them open.
    pub fn walk(&self, alloc: Global, starts: &[u32]) -> Result<Vec<u32>, AllocError> {
        let mut walk = Walk::begin(alloc, self)?;
        walk.go_on(self, starts)?;
        Ok(walk.order)
    }

    /// The neighbors of a module.
    fn of_module(&self, m: u32) -> &[u32] {
        let first = partition_of(self.starts.as_slice(), m) as usize;
        let end = partition_of(self.starts.as_slice(), m.saturating_add(1)) as usize;
        self.list.get(first..end).unwrap_or(&[])
    }
}

/// Modules with this number of open neighbors or more wait in one list.
const MOST_OPEN: u32 = 16;

/// A walk on its way: of each module how many neighbors aren't taken, and whether it is; the modules that wait, by how many of their neighbors
/// weren't taken then; and those that are taken, in order.
#[derive(Drop)]
struct Walk {
    open: Vec<u32>,
    taken: Vec<bool>,
    waiting: Vec<Vec<u32>>,
    order: Vec<u32>,
}

impl Walk {
    fn begin(alloc: Global, neighbors: &Neighbors) -> Result<Walk, AllocError> {
        let open = open_counts(alloc, neighbors.starts.as_slice())?;
        let taken = vec![in alloc; false; open.len()]?;
        let waiting = no_lists(alloc)?;
        Ok(Walk {
            open,
            taken,
            waiting,
            order: Vec::new(alloc),
        })
    }

    /// Takes modules from these starts on until there are no more.
    fn go_on(&mut self, neighbors: &Neighbors, starts: &[u32]) -> Result<(), AllocError> {
        for start in starts {
            self.wait(*start)?;
            for _ in 0..neighbors.list.len().saturating_add(1) {
                let Some(m) = self.next() else {
                    break;
                };
                if self.take(m)? {
                    for neighbor in neighbors.of_module(m) {
                        self.close(*neighbor)?;
                    }
                }
            }
        }
        Ok(())
    }

    /// A module waits.
    fn wait(&mut self, m: u32) -> Result<(), AllocError> {
        let open = partition_of(self.open.as_slice(), m).min(MOST_OPEN - 1);
        if let Some(list) = self.waiting.get_mut(open as usize) {
            list.push(m)?;
        }
        Ok(())
    }

    /// The module that is next of those that wait.
    fn next(&mut self) -> Option<u32> {
        for list in self.waiting.iter_mut() {
            if let Some(m) = list.pop() {
                return Some(m);
            }
        }
        None
    }

    /// Takes a module if it isn't taken yet, and returns whether it did.
    fn take(&mut self, m: u32) -> Result<bool, AllocError> {
        let Some(mark) = self.taken.get_mut(m as usize) else {
            return Ok(false);
        };
        if *mark {
            return Ok(false);
        }
        *mark = true;
        self.order.push(m)?;
        Ok(true)
    }

    /// A module has a neighbor more that is taken. It waits, if it isn't taken itself.
    fn close(&mut self, m: u32) -> Result<(), AllocError> {
        let open = partition_of(self.open.as_slice(), m);
        put(&mut self.open, m, open.saturating_sub(1));
        match self.taken.get(m as usize) {
            Some(false) => self.wait(m),
            _ => Ok(()),
        }
    }
}

/// How many neighbors each module has, by where their parts of the list begin.
fn open_counts(alloc: Global, starts: &[u32]) -> Result<Vec<u32>, AllocError> {
    let mut open = Vec::new(alloc);
    for m in 1..starts.len() {
        open.push(starts[m].saturating_sub(starts[m - 1]))?;
    }
    Ok(open)
}

/// Lists in which no module waits.
fn no_lists(alloc: Global) -> Result<Vec<Vec<u32>>, AllocError> {
    let mut waiting = Vec::new(alloc);
    for _ in 0..MOST_OPEN {
        waiting.push(Vec::new(alloc))?;
    }
    Ok(waiting)
}

/// Where the part of the list begins that has a module's neighbors, for each module, and where the list ends.
fn starts_of(alloc: Global, modules: u32, pairs: &[(u32, u32)]) -> Result<Vec<u32>, AllocError> {
    let mut starts = vec![in alloc; 0u32; modules as usize + 1]?;
    for pair in pairs {
        add(&mut starts, pair.0.saturating_add(1));
        add(&mut starts, pair.1.saturating_add(1));
    }
    let mut sum = 0u32;
    for m in 0..starts.len() {
        sum = sum.saturating_add(starts[m]);
        starts[m] = sum;
    }
    Ok(starts)
}

/// The neighbors of all modules, whose parts of the list begin there.
fn list_of(alloc: Global, starts: &[u32], pairs: &[(u32, u32)]) -> Result<Vec<u32>, AllocError> {
    let sum = match starts.last() {
        Some(sum) => *sum as usize,
        None => 0,
    };
    let mut places = Vec::from_slice(alloc, starts)?;
    let mut list = vec![in alloc; 0u32; sum]?;
    for pair in pairs {
        enter(&mut places, &mut list, pair.0, pair.1);
        enter(&mut places, &mut list, pair.1, pair.0);
    }
    Ok(list)
}

/// The modules that read a wire with the module that drives it.
fn pairs_of(
    alloc: Global,
    netlist: &Netlist,
    drivers: &[u32],
) -> Result<Vec<(u32, u32)>, AllocError> {
    let mut pairs = Vec::new(alloc);
    for m in 0..netlist.module_slots() {
        if let Some(found) = netlist.module(ModuleId(m)) {
            add_pairs(&mut pairs, drivers, m, found.inputs.as_slice())?;
        }
    }
    Ok(pairs)
}

fn add_pairs(
    pairs: &mut Vec<(u32, u32)>,
    drivers: &[u32],
    m: u32,
    inputs: &[Input],
) -> Result<(), AllocError> {
    for input in inputs {
        let driver = partition_of(drivers, input.wire.0);
        if driver != NOWHERE && driver != m {
            pairs.push((m, driver))?;
        }
    }
    Ok(())
}

fn add(list: &mut Vec<u32>, place: u32) {
    let count = partition_of(list.as_slice(), place);
    put(list, place, count.saturating_add(1));
}

/// Enters a neighbor of a module at the next place of its part of the list.
fn enter(places: &mut Vec<u32>, list: &mut Vec<u32>, module: u32, neighbor: u32) {
    let place = partition_of(places.as_slice(), module);
    put(list, place, neighbor);
    put(places, module, place.saturating_add(1));
}
