//! The waves of a netlist's wires.
ghost use Rattle.std.specs.Prelude.{◌≡◌, option_map, IfOk};
ghost use Rattle.std.specs.Arc.{arc_value};

use crate::wave_list::WaveList;
use mp_netlist::WireId;
use mp_wave::Wave;
use std::alloc::{AllocError, Global};
use std::marker::Model;
use std::sync::Arc;

/// The wave of each wire, by wire number. Two lists can share waves.
#[derive(Drop)]
pub struct Waves {
    list: WaveList,
}

impl Model for Waves {
    ghost use Rattle.std.specs.Prelude.{List, Option};
    ghost use Rattle.mp_wave.specs.Waveform.{Waveform};
    ghost use Rattle.mp_model.specs.WaveLists.{listed_waves};

    ghost Value = { List (Option Waveform) };

    ghost view = { λ waves. listed_waves waves.list };
}

impl Waves {
    ghost use Rattle.std.specs.Prelude.{◌≡◌, None, map, option_map, IfOk};
    ghost use Rattle.std.specs.Option.{option_copied};
    ghost use Rattle.std.specs.Arc.{arc_value};
    ghost use Rattle.mp_netlist.specs.Slots.{slot_at};
    ghost use Rattle.mp_records.specs.lists.Replaced.{AreApart, AreReplaced};

    /// The waves by wire number, `None` if there is no wire.
    pub fn new(list: Vec<Option<Arc<Wave, Global>>>) -> Waves
        ensures { result ≡ map (option_map arc_value) list.items }
    {
        Waves {
            list: WaveList::Shared(list),
        }
    }

    /// These waves, kept in place. They are copied when they are shared later.
    pub fn in_place(list: Vec<Option<Wave>>) -> Waves
        ensures { result ≡ list.items }
    {
        Waves {
            list: WaveList::InPlace(list),
        }
    }

    /// These waves, each to be shared.
    pub fn of_all(alloc: Global, found: Vec<Option<Wave>>) -> Result<Waves, AllocError>
        ensures { IfOk result (λ waves. waves ≡ found.items) }
    {
        let mut list = Vec::with_capacity(alloc, found.len())?;
        for wave in found {
            list.push(given(alloc, wave)?)?;
        }
        Ok(Waves::new(list))
    }

    /// The wave of a wire that exists.
    pub fn of(&self, wire: WireId) -> Option<&Wave>
        ensures { option_copied result ≡ slot_at self.now wire.0 }
    {
        self.list.get(wire.0 as usize)
    }

    /// The wave of a wire that exists, to be shared. It is copied only if these waves are kept in place.
    pub fn shared(&self, wire: WireId) -> Result<Option<Arc<Wave, Global>>, AllocError>
        ensures { IfOk result (λ wave. option_map arc_value wave ≡ slot_at self.now wire.0) }
    {
        self.list.share_one(wire.0 as usize)
    }

    /// The waves of all wires, to be shared. Waves that are kept in place are copied.
    pub fn share(&self, alloc: Global) -> Result<Waves, AllocError>
        ensures { IfOk result (λ waves. waves ≡ self.now) }
    {
        Ok(Waves {
            list: WaveList::Pieces(self.list.share_all(alloc)?),
        })
    }

    /// These waves, but with wave `k` of other waves for the wire of number `wires[k]`. All are shared; those that are kept in place are copied.
    pub fn with_part(&self, alloc: Global, wires: &[u32], part: &Waves) -> Result<Waves, AllocError>
        requires { AreApart wires.now }
        ensures { IfOk result (AreReplaced None self.now wires.now part.now) }
    {
        let list = self.list.replaced(alloc, wires, &part.list)?;
        Ok(Waves {
            list: WaveList::Pieces(list),
        })
    }
}

fn given(alloc: Global, wave: Option<Wave>) -> Result<Option<Arc<Wave, Global>>, AllocError>
    ensures { IfOk result (λ given. option_map arc_value given ≡ wave) }
{
    match wave {
        Some(wave) => Ok(Some(Arc::new(alloc, wave)?)),
        None => Ok(None),
    }
}
