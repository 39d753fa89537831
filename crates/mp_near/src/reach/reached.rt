//! The modules that an edit reaches, found from wire to wire.
ghost use Rattle.std.specs.Prelude.{◌≡◌, Ok, IfOk, IfSome};
ghost use Rattle.mp_netlist.specs.Edits.{after};
ghost use Rattle.mp_depend.specs.work.Revisions.{IsRevision};
ghost use Rattle.mp_near.specs.reach.Reach.{IsWholeReach};

use crate::reach::named::{named_modules, named_wires};
use crate::reach::ports::{is_marked, mark_outputs, reads_marked};
use crate::revision::Revision;
use mp_netlist::{Edit, ModuleId, Netlist, WireId};
use std::alloc::{AllocError, Global};

/// Marks on modules, and on each wire that is another in the new netlist or that a marked module drives, before the edit or after it.
#[derive(Drop)]
pub(crate) struct Reached {
    pub modules: Vec<bool>,
    pub wires: Vec<bool>,
}

/// After so many rounds that found another module the whole netlist is evaluated again.
const MOST_ROUNDS: u32 = 8;

/// What an edit reaches, if at most so many modules are found beside those that it names, and soon.
pub(crate) fn find_reached(
    alloc: Global,
    change: &Revision<'_>,
    edit: &Edit,
    most: u32,
) -> Result<Option<Reached>, AllocError>
    requires revision { IsRevision change.now.old.now change.now.new.now }
    requires after { after change.now.old.now edit.now ≡ Ok change.now.new.now }
    ensures { IfOk result (λ found. IfSome found (λ reached. IsWholeReach change.now.old.now change.now.new.now reached.modules.items reached.wires.items)) }
{
    let mut found = Reached::first(alloc, change.old, edit, change.new)?;
    if found.spread(change.old, change.new, most) {
        Ok(Some(found))
    } else {
        drop(found);
        Ok(None)
    }
}

/// How far a pass over wires has come: how many more modules may be marked, and the number after the last wire at which one was.
#[derive(Clone, Copy)]
struct Passed {
    left: u32,
    last: u32,
}

impl Reached {
    ghost use Rattle.std.specs.Prelude.{◌≡◌, ◌<◌, ◌≤◌, ◌+◌, ◌^◌, ℕ, Ok, true, false, IfOk, IfSome, length};
    ghost use Rattle.mp_netlist.specs.Edits.{after};
    ghost use Rattle.mp_depend.specs.work.Revisions.{IsRevision};
    ghost use Rattle.mp_partition.specs.runs.Marks.{is_marked};
    ghost use Rattle.mp_near.specs.reach.Marks.{AreGrown};
    ghost use Rattle.mp_near.specs.reach.Reach.{AreReadersMarked, IsReach, IsWholeReach, IsClosedBetween, ReadsNone};

    /// What the edit may change, and the wires of modules that it may.
    fn first(
        alloc: Global,
        old: &Netlist,
        edit: &Edit,
        new: &Netlist,
    ) -> Result<Reached, AllocError>
        requires revision { IsRevision old.now new.now }
        requires after { after old.now edit.now ≡ Ok new.now }
        ensures { IfOk result (λ found. IsReach old.now new.now found.modules.items found.wires.items) }
    {
        // Their contracts say that the netlists are well formed.
        let _old_horizon = old.horizon();
        let _new_horizon = new.horizon();
        let modules = named_modules(alloc, old, edit, new)?;
        let mut wires = named_wires(alloc, old, edit, new)?;
        for m in 0..new.module_slots() {
            if modules[m as usize] {
                mark_outputs(old, ModuleId(m), &mut wires);
                mark_outputs(new, ModuleId(m), &mut wires);
            }
        }
        Ok(Reached { modules, wires })
    }

    /// Marks the modules that read marked wires, at most so many, and those that read theirs, and says whether that are all. Modules that read each
    /// other's wires mostly have wires whose numbers follow each other. So the search goes from the first wire up, and then over those below.
    fn spread(&mut self, old: &Netlist, new: &Netlist, most: u32) -> bool
        requires revision { IsRevision old.now new.now }
        requires reach { IsReach old.now new.now self.old.modules.items self.old.wires.items }
        ensures { result ≡ true → IsWholeReach old.now new.now self.new.modules.items self.new.wires.items }
    {
        let end = new.wire_slots();
        let start = self.first_marked(end);
        let mut left = most;
        'rounds: for _ in 0..MOST_ROUNDS {
            let Some(above) = self.pass(old, new, start, end, left) else {
                return false;
            };
            let Some(below) = self.pass(old, new, 0, above.last, above.left) else {
                return false;
            };
            if below.left == above.left {
                return true;
            }
            left = below.left;
        }
        false
    }

    /// The number of the first wire that is marked, or 0.
    fn first_marked(&self, count: u32) -> u32
        requires { length self.now.wires.items ≡ count }
        ensures { result ≤ count }
    {
        for w in 0..count {
            if self.wires[w as usize] {
                return w;
            }
        }
        0
    }

    /// Marks the modules that read marked wires, of those from a number on, below another. `None` if there are too many, or if it isn't known which do.
    fn pass(
        &mut self,
        old: &Netlist,
        new: &Netlist,
        from: u32,
        to: u32,
        most: u32,
    ) -> Option<Passed>
        requires revision { IsRevision old.now new.now }
        requires reach { IsReach old.now new.now self.old.modules.items self.old.wires.items }
        requires from { from ≤ to }
        requires to { to ≤ length new.now.wires }
        ensures reach { IsReach old.now new.now self.new.modules.items self.new.wires.items }
        ensures last { IfSome result (λ passed. passed.last ≤ to) }
        ensures closed { IfSome result (λ passed. IsClosedBetween new.now self.new.modules.items self.new.wires.items passed.last to) }
        ensures none { IfSome result (λ passed. passed.left ≡ most → (passed.last ≡ from) × (self.new ≡ self.old)) }
    {
        let mut passed = Passed {
            left: most,
            last: from,
        };
        for w in from..to {
            let Some(after) = self.step(old, new, WireId(w), passed) else {
                return None;
            };
            passed = after;
        }
        Some(passed)
    }

    /// Marks the modules that read the next wire, if it is marked.
    fn step(&mut self, old: &Netlist, new: &Netlist, wire: WireId, passed: Passed) -> Option<Passed>
        requires revision { IsRevision old.now new.now }
        requires reach { IsReach old.now new.now self.old.modules.items self.old.wires.items }
        requires room { wire.0 + 1 < 2 ^ 32 }
        requires last { passed.last ≤ wire.0 }
        ensures reach { IsReach old.now new.now self.new.modules.items self.new.wires.items }
        ensures last { IfSome result (λ after. after.last ≤ wire.0 + 1) }
        ensures fewer { IfSome result (λ after. after.left ≤ passed.left) }
        ensures closed { IfSome result (λ after. IsClosedBetween new.now self.old.modules.items self.old.wires.items passed.last wire.0 → IsClosedBetween new.now self.new.modules.items self.new.wires.items after.last (wire.0 + 1)) }
        ensures same { IfSome result (λ after. after.left ≡ passed.left → (after.last ≡ passed.last) × (self.new ≡ self.old)) }
    {
        if !is_marked(self.wires.as_slice(), wire.0) {
            return Some(passed);
        }
        let Some(left) = self.visit(old, new, wire, passed.left) else {
            return None;
        };
        if left == passed.left {
            return Some(passed);
        }
        Some(Passed {
            left,
            last: wire.0 + 1,
        })
    }

    /// Marks the modules that read a marked wire, and says how many more may be marked. `None` if there are too many, or if it isn't known which do.
    fn visit(&mut self, old: &Netlist, new: &Netlist, wire: WireId, most: u32) -> Option<u32>
        requires revision { IsRevision old.now new.now }
        requires reach { IsReach old.now new.now self.old.modules.items self.old.wires.items }
        requires marked { is_marked self.old.wires.items wire.0 ≡ true }
        ensures reach { IsReach old.now new.now self.new.modules.items self.new.wires.items }
        ensures fewer { IfSome result (λ left. left ≤ most) }
        ensures readers { IfSome result (λ left. AreReadersMarked new.now self.new.modules.items wire.0) }
        ensures same { IfSome result (λ left. left ≡ most → self.new ≡ self.old) }
    {
        let Some(row) = new.around(wire) else {
            return None;
        };
        let mut left = most;
        for m in row {
            if self.hears(new, ModuleId(*m)) {
                if left == 0 {
                    return None;
                }
                self.add(old, new, ModuleId(*m));
                left -= 1;
            }
        }
        Some(left)
    }

    /// Whether a module has a mark that isn't set, and reads a marked wire.
    fn hears(&self, new: &Netlist, id: ModuleId) -> bool
        ensures low { result ≡ true → id.0 < length self.now.modules.items }
        ensures none { result ≡ false → id.0 < length self.now.modules.items → is_marked self.now.modules.items id.0 ≡ false → ReadsNone new.now self.now.wires.items id.0 }
    {
        match self.modules.get(id.0 as usize) {
            Some(false) => reads_marked(new, id, self.wires.as_slice()),
            _ => false,
        }
    }

    /// Marks a module with the wires that it drives.
    pub(crate) fn add(&mut self, old: &Netlist, new: &Netlist, id: ModuleId)
        requires revision { IsRevision old.now new.now }
        requires reach { IsReach old.now new.now self.old.modules.items self.old.wires.items }
        requires low { id.0 < length self.old.modules.items }
        ensures reach { IsReach old.now new.now self.new.modules.items self.new.wires.items }
        ensures grown { AreGrown self.old.modules.items self.new.modules.items }
        ensures wires { AreGrown self.old.wires.items self.new.wires.items }
        ensures marked { is_marked self.new.modules.items id.0 ≡ true }
    {
        // Their contracts say that the netlists are well formed.
        let _old_horizon = old.horizon();
        let _new_horizon = new.horizon();
        self.modules[id.0 as usize] = true;
        mark_outputs(old, id, &mut self.wires);
        mark_outputs(new, id, &mut self.wires);
    }
}
