//! Modules in groups that are connected by wires, and in which part each group is.
use crate::regions::division::note_outputs;
use crate::regions::home::{NOWHERE, partition_of};
use crate::regions::neighbors::Neighbors;
use mp_netlist::{Input, ModuleId, Netlist, Output};
use std::alloc::{AllocError, Global};

/// A group that is too large is cut at wires of at least so long a delay, the first of these at which it falls into pieces that fit.
const CUTS: [u32; 4] = [16, 8, 4, 2];

/// The partition of each module: at most `count` partitions, with about the same number of modules in each. Connected modules are together, except in
/// groups that are larger than a partition: there modules are together that a walk along the wires meets one after the other.
pub fn homes_of(alloc: Global, netlist: &Netlist, count: u32) -> Result<Vec<u32>, AllocError> {
    let drivers = Drivers::of(alloc, netlist)?;
    let modules = netlist.module_slots() as usize;
    let share = modules.div_ceil(count.max(1) as usize);
    let share = Share {
        parts: count,
        share,
    };
    let whole = drivers.groups(alloc, netlist, &[], u32::MAX)?;
    match share.pieces(alloc, netlist, &drivers, whole.as_slice())? {
        Some(pieces) => share.homes_along(alloc, netlist, &drivers, pieces.as_slice()),
        None => share.homes_by_number(alloc, netlist, whole.as_slice()),
    }
}

/// For each wire the module that drives it, and the delay of its port.
#[derive(Drop)]
struct Drivers {
    modules: Vec<u32>,
    delays: Vec<u32>,
}

impl Drivers {
    fn of(alloc: Global, netlist: &Netlist) -> Result<Drivers, AllocError> {
        let mut drivers = Drivers {
            modules: vec![in alloc; NOWHERE; netlist.wire_slots() as usize]?,
            delays: vec![in alloc; 0u32; netlist.wire_slots() as usize]?,
        };
        for m in 0..netlist.module_slots() {
            if let Some(found) = netlist.module(ModuleId(m)) {
                note_outputs(&mut drivers.modules, found.outputs.as_slice(), m);
                note_delays(&mut drivers.delays, found.outputs.as_slice());
            }
        }
        Ok(drivers)
    }

    /// For each module the first module of its group. Modules are in one group if a wire of a shorter delay than this connects them, and if one that
    /// is given is that of both.
    fn groups(
        &self,
        alloc: Global,
        netlist: &Netlist,
        together: &[u32],
        cut: u32,
    ) -> Result<Vec<u32>, AllocError> {
        let mut heads = Vec::new(alloc);
        for m in 0..netlist.module_slots() {
            heads.push(m)?;
        }
        for m in 0..netlist.module_slots() {
            if let Some(first) = together.get(m as usize) {
                join(&mut heads, m, *first);
            }
            if let Some(found) = netlist.module(ModuleId(m)) {
                self.join_inputs(&mut heads, m, found.inputs.as_slice(), cut);
            }
        }
        for m in 0..netlist.module_slots() {
            let head = head_of(&mut heads, m);
            put(&mut heads, m, head);
        }
        Ok(heads)
    }

    /// All modules, in the order in which a walk along the wires meets them. It begins at a module that is far from others.
    fn walk(&self, alloc: Global, netlist: &Netlist) -> Result<Vec<u32>, AllocError> {
        let neighbors = Neighbors::of(alloc, netlist, self.modules.as_slice())?;
        let far = far_modules(alloc, netlist, &neighbors)?;
        neighbors.walk(alloc, far.as_slice())
    }

    /// Joins a module's group with those of the modules that drive its inputs by shorter delays.
    fn join_inputs(&self, heads: &mut Vec<u32>, m: u32, inputs: &[Input], cut: u32) {
        for input in inputs {
            let driver = partition_of(self.modules.as_slice(), input.wire.0);
            let delay = partition_of(self.delays.as_slice(), input.wire.0);
            if delay < cut {
                join(heads, m, driver);
            }
        }
    }
}

fn note_delays(delays: &mut Vec<u32>, outputs: &[Output]) {
    for output in outputs {
        if let Some(wire) = output.wire {
            put(delays, wire.0, output.delay);
        }
    }
}

/// Joins the groups of two modules, if both are there.
fn join(heads: &mut Vec<u32>, one: u32, other: u32) {
    if other == NOWHERE {
        return;
    }
    let one = head_of(heads, one);
    let other = head_of(heads, other);
    if one < other {
        put(heads, other, one);
    } else {
        put(heads, one, other);
    }
}

/// The first module of a module's group. The way to it is made shorter.
fn head_of(heads: &mut Vec<u32>, m: u32) -> u32 {
    let mut at = m;
    for _ in 0..heads.len() {
        let next = partition_of(heads.as_slice(), at);
        if next == at {
            return at;
        }
        let behind = partition_of(heads.as_slice(), next);
        put(heads, at, behind);
        at = next;
    }
    at
}

pub fn put(list: &mut Vec<u32>, place: u32, number: u32) {
    if let Some(slot) = list.get_mut(place as usize) {
        *slot = number;
    }
}

/// For each module how many its group has, if it is the first of them.
fn sizes_of(alloc: Global, heads: &[u32]) -> Result<Vec<u32>, AllocError> {
    let mut sizes = vec![in alloc; 0u32; heads.len()]?;
    for head in heads {
        let size = partition_of(sizes.as_slice(), *head);
        put(&mut sizes, *head, size.saturating_add(1));
    }
    Ok(sizes)
}

fn largest(sizes: &[u32]) -> usize {
    let mut largest = 0u32;
    for size in sizes {
        largest = largest.max(*size);
    }
    largest as usize
}

/// For each module the first of its group, if the group fits into a part, and otherwise none.
fn groups_that_fit(
    alloc: Global,
    heads: &[u32],
    sizes: &[u32],
    share: usize,
) -> Result<Vec<u32>, AllocError> {
    let mut together = Vec::new(alloc);
    for head in heads {
        let size = partition_of(sizes, *head) as usize;
        together.push(if size <= share { *head } else { NOWHERE })?;
    }
    Ok(together)
}

/// All modules, those first that a walk from the first module on meets last.
fn far_modules(
    alloc: Global,
    netlist: &Netlist,
    neighbors: &Neighbors,
) -> Result<Vec<u32>, AllocError> {
    let numbers = by_number(alloc, netlist.module_slots())?;
    let mut far = neighbors.walk(alloc, numbers.as_slice())?;
    far.reverse();
    Ok(far)
}

/// The modules by number.
fn by_number(alloc: Global, count: u32) -> Result<Vec<u32>, AllocError> {
    let mut numbers = Vec::new(alloc);
    for m in 0..count {
        numbers.push(m)?;
    }
    Ok(numbers)
}

/// The greatest number of partitions, and the number of modules that each is to have.
#[derive(Clone, Copy)]
struct Share {
    parts: u32,
    share: usize,
}

impl Share {
    /// For each module the first of its piece, if a group is larger than a part and wires can be cut so that the pieces of the groups are small.
    fn pieces(
        self,
        alloc: Global,
        netlist: &Netlist,
        drivers: &Drivers,
        whole: &[u32],
    ) -> Result<Option<Vec<u32>>, AllocError> {
        let sizes = sizes_of(alloc, whole)?;
        if largest(sizes.as_slice()) <= self.share {
            return Ok(None);
        }
        let together = groups_that_fit(alloc, whole, sizes.as_slice(), self.share)?;
        for cut in CUTS {
            let pieces = drivers.groups(alloc, netlist, together.as_slice(), cut)?;
            if self.are_small(alloc, pieces.as_slice())? {
                return Ok(Some(pieces));
            }
        }
        Ok(None)
    }

    /// Whether no group has more than a quarter of a part.
    fn are_small(self, alloc: Global, heads: &[u32]) -> Result<bool, AllocError> {
        let sizes = sizes_of(alloc, heads)?;
        Ok(largest(sizes.as_slice()) <= self.share.div_ceil(4))
    }

    /// The partitions of modules, group by group as a walk along the wires meets them.
    fn homes_along(
        self,
        alloc: Global,
        netlist: &Netlist,
        drivers: &Drivers,
        heads: &[u32],
    ) -> Result<Vec<u32>, AllocError> {
        let order = drivers.walk(alloc, netlist)?;
        self.homes_in(alloc, heads, order.as_slice())
    }

    /// The partitions of modules, group by group in the order of their numbers.
    fn homes_by_number(
        self,
        alloc: Global,
        netlist: &Netlist,
        heads: &[u32],
    ) -> Result<Vec<u32>, AllocError> {
        let numbers = by_number(alloc, netlist.module_slots())?;
        self.homes_in(alloc, heads, numbers.as_slice())
    }

    /// The partitions of modules, group by group in the order of their first modules.
    fn homes_in(self, alloc: Global, heads: &[u32], order: &[u32]) -> Result<Vec<u32>, AllocError> {
        let parts = self.parts_of(alloc, heads, order)?;
        let mut homes = Vec::new(alloc);
        for head in heads {
            homes.push(partition_of(parts.as_slice(), *head))?;
        }
        Ok(homes)
    }

    /// The partition of each group, by the first of its modules. A new partition begins if more than half of a group doesn't fit.
    fn parts_of(self, alloc: Global, heads: &[u32], order: &[u32]) -> Result<Vec<u32>, AllocError> {
        let sizes = sizes_of(alloc, heads)?;
        let mut parts = vec![in alloc; NOWHERE; heads.len()]?;
        let mut part = 0u32;
        let mut load = 0usize;
        for m in order {
            let head = partition_of(heads, *m);
            if partition_of(parts.as_slice(), head) == NOWHERE {
                let size = partition_of(sizes.as_slice(), head) as usize;
                if self.is_too_much(load, size) && part.saturating_add(1) < self.parts {
                    part = part.saturating_add(1);
                    load = 0;
                }
                put(&mut parts, head, part);
                load = load.saturating_add(size);
            }
        }
        Ok(parts)
    }

    /// Whether more than half of a group goes beyond the share of a part with this load.
    fn is_too_much(self, load: usize, size: usize) -> bool {
        load > 0 && load.saturating_mul(2).saturating_add(size) > self.share.saturating_mul(2)
    }
}
