//! Lists of waves.
ghost use Rattle.std.specs.Prelude.{◌≡◌, None, map, option_map, IfOk};
ghost use Rattle.std.specs.Option.{option_copied};
ghost use Rattle.std.specs.Arc.{arc_value};
ghost use Rattle.mp_netlist.specs.Slots.{slot_at};
ghost use Rattle.mp_records.specs.lists.Replaced.{AreApart, AreReplaced};
ghost use Rattle.mp_model.specs.WaveLists.{listed_waves};

use crate::shared_wave::SharedWave;
use mp_records::Pieces;
use mp_wave::Wave;
use std::alloc::{AllocError, Global};
use std::sync::Arc;

/// A place for each wire number, with the wave of the wire if there is one.
#[derive(Drop)]
pub(crate) enum WaveList {
    /// The waves are kept in place, and no other list has them.
    InPlace(Vec<Option<Wave>>),
    /// Each wave has a block of its own, which other lists may share.
    Shared(Vec<Option<Arc<Wave, Global>>>),
    /// Each wave has such a block, and copies of the list share its pieces until one of them writes there.
    Pieces(Pieces<SharedWave>),
}

impl WaveList {
    /// The wave at a place.
    pub(crate) fn get(&self, place: usize) -> Option<&Wave>
        ensures { option_copied result ≡ slot_at (listed_waves self.now) place }
    {
        match self {
            WaveList::InPlace(list) => wave_at(list.as_slice(), place),
            WaveList::Shared(list) => shared_at(list.as_slice(), place),
            WaveList::Pieces(list) => wave_in(list, place),
        }
    }

    /// The wave at a place, to be shared; one that is kept in place is copied.
    pub(crate) fn share_one(&self, place: usize) -> Result<Option<Arc<Wave, Global>>, AllocError>
        ensures { IfOk result (λ wave. option_map arc_value wave ≡ slot_at (listed_waves self.now) place) }
    {
        match self {
            WaveList::InPlace(list) => copied(*list.allocator(), wave_at(list.as_slice(), place)),
            WaveList::Shared(list) => match list.get(place) {
                Some(slot) => shared(slot),
                None => Ok(None),
            },
            WaveList::Pieces(list) => share_in(list, place),
        }
    }

    /// All waves, to be shared; those that are kept in place are copied.
    pub(crate) fn share_all(&self, alloc: Global) -> Result<Pieces<SharedWave>, AllocError>
        ensures { IfOk result (λ list. list ≡ listed_waves self.now) }
    {
        match self {
            WaveList::InPlace(list) => all_copied(alloc, list.as_slice()),
            WaveList::Shared(list) => all_shared(alloc, list.as_slice()),
            WaveList::Pieces(list) => list.copy(),
        }
    }

    /// Waves like these, but with wave `k` of another list at place `places[k]`, all to be shared.
    pub(crate) fn replaced(
        &self,
        alloc: Global,
        places: &[u32],
        others: &WaveList,
    ) -> Result<Pieces<SharedWave>, AllocError>
        requires { AreApart places.now }
        ensures { IfOk result (AreReplaced None (listed_waves self.now) places.now (listed_waves others.now)) }
    {
        let mut list = self.share_all(alloc)?;
        let found = others.share_all(alloc)?;
        list.replace(places, &found, &SharedWave::none())?;
        Ok(list)
    }
}

fn wave_in(list: &Pieces<SharedWave>, place: usize) -> Option<&Wave>
    ensures { option_copied result ≡ slot_at list.now place }
{
    match list.get(place) {
        Some(found) => found.get(),
        None => None,
    }
}

fn share_in(
    list: &Pieces<SharedWave>,
    place: usize,
) -> Result<Option<Arc<Wave, Global>>, AllocError>
    ensures { IfOk result (λ wave. option_map arc_value wave ≡ slot_at list.now place) }
{
    match list.get(place) {
        Some(found) => found.share(),
        None => Ok(None),
    }
}

fn wave_at(list: &[Option<Wave>], place: usize) -> Option<&Wave>
    ensures { option_copied result ≡ slot_at list.now place }
{
    match list.get(place) {
        Some(Some(wave)) => Some(wave),
        _ => None,
    }
}

fn shared_at(list: &[Option<Arc<Wave, Global>>], place: usize) -> Option<&Wave>
    ensures { option_copied result ≡ slot_at (map (option_map arc_value) list.now) place }
{
    match list.get(place) {
        Some(Some(wave)) => Some(wave),
        _ => None,
    }
}

fn all_copied(alloc: Global, waves: &[Option<Wave>]) -> Result<Pieces<SharedWave>, AllocError>
    ensures { IfOk result (λ list. list ≡ waves.now) }
{
    let mut list = Pieces::new(alloc);
    for slot in waves {
        list.push(SharedWave::of(copied(alloc, slot.as_ref())?))?;
    }
    Ok(list)
}

fn all_shared(
    alloc: Global,
    waves: &[Option<Arc<Wave, Global>>],
) -> Result<Pieces<SharedWave>, AllocError>
    ensures { IfOk result (λ list. list ≡ map (option_map arc_value) waves.now) }
{
    let mut list = Pieces::new(alloc);
    for slot in waves {
        list.push(SharedWave::of(shared(slot)?))?;
    }
    Ok(list)
}

fn copied(alloc: Global, wave: Option<&Wave>) -> Result<Option<Arc<Wave, Global>>, AllocError>
    ensures { IfOk result (λ copy. option_map arc_value copy ≡ option_copied wave.entry) }
{
    match wave {
        Some(wave) => Ok(Some(Arc::new(alloc, wave.copy()?)?)),
        None => Ok(None),
    }
}

/// A wave that has a block of its own, shared once more.
pub(crate) fn shared(
    slot: &Option<Arc<Wave, Global>>,
) -> Result<Option<Arc<Wave, Global>>, AllocError>
    ensures { IfOk result (λ shared. option_map arc_value shared ≡ option_map arc_value slot.now) }
{
    match slot {
        Some(wave) => Ok(Some(Arc::try_clone(wave)?)),
        None => Ok(None),
    }
}
