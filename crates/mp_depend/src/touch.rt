//! Which modules a change of a netlist has touched.
ghost use Rattle.std.specs.Prelude.{◌≡◌, ℕ, ◌↔◌, Some, None, IsTrue, false, IfOk, Contains, map};
ghost use Rattle.std.specs.List.Sorted.{IsStrictlyIncreasing};
ghost use Rattle.mp_records.specs.declared.ids.ModuleId.{ModuleId};
ghost use Rattle.mp_records.specs.declared.module_record.ModuleRecord.{ModuleRecord};
ghost use Rattle.mp_netlist.specs.Circuit.{module_at};
ghost use Rattle.mp_model.specs.Reach.{IsTouched};
ghost use Rattle.mp_depend.specs.Touched.{IsSameStanding};

use mp_netlist::{ModuleId, ModuleRecord, Netlist};
use mp_records::Same;
use std::alloc::{AllocError, Global};

/// The modules of the new netlist whose record differs from the one in the old netlist, by number. All others exist in both with the same record.
pub fn touched(alloc: Global, old: &Netlist, new: &Netlist) -> Result<Vec<ModuleId>, AllocError>
    ensures order { IfOk result (λ ids. IsStrictlyIncreasing (map (λ (id : ModuleId). id.0) ids.items)) }
    ensures touched { IfOk result (λ ids. (m : ℕ) → Contains ids.items (record { 0 = m }) ↔ IsTouched old.now new.now m) }
    ensures others { IfOk result (λ ids. (m : ℕ) (r : ModuleRecord) → module_at new.now m ≡ Some r → (Contains ids.items (record { 0 = m }) → ⊥) → module_at old.now m ≡ Some r) }
{
    let mut found = Vec::new(alloc);
    for m in 0..new.module_slots() {
        if is_touched(old, new, ModuleId(m)) {
            found.push(ModuleId(m))?;
        }
    }
    Ok(found)
}

/// Whether a module exists in the new netlist and its record differs from the one in the old netlist.
pub fn is_touched(old: &Netlist, new: &Netlist, id: ModuleId) -> bool
    ensures touched { IsTrue result ↔ IsTouched old.now new.now id.0 }
    ensures same { result ≡ false → IsSameStanding old.now new.now id.0 }
{
    match new.module(id) {
        Some(part) => !has_part(old, id, part),
        None => false,
    }
}

/// Whether the netlist has a module with this number and record.
fn has_part(netlist: &Netlist, id: ModuleId, part: &ModuleRecord) -> bool
    ensures { IsTrue result ↔ (module_at netlist.now id.0 ≡ Some part.now) }
{
    match netlist.module(id) {
        Some(found) => found.same(part),
        None => false,
    }
}
