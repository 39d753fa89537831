//! A netlist after some accepted edits.
ghost use Rattle.std.specs.Prelude.{◌≡◌};

use crate::history::History;
use mp_model::Waves;
use mp_netlist::{Edit, Netlist, WireId};
use mp_wave::Wave;
use std::alloc::{AllocError, Global};
use std::marker::Model;
use std::sync::Arc;

/// A netlist with its waves, and how it came about: the netlist that a session was opened with, and the edits that were accepted since.
/// Versions of one session share the first netlist, the edits, and waves that stay the same.
#[derive(Drop)]
pub struct Version {
    base: Arc<Netlist, Global>,
    edits: History,
    netlist: Arc<Netlist, Global>,
    waves: Waves,
}

impl Model for Version {
    ghost use Rattle.std.specs.Arc.{arc_value};
    ghost use Rattle.mp_version.specs.Stories.{Story};

    ghost Value = { Story };

    ghost use Rattle.mp_version.specs.Versions.{IsVersion};

    ghost view = { λ version. record { base = arc_value version.base; edits = version.edits } };

    ghost invariant = { λ version. IsVersion (record { base = arc_value version.base; edits = version.edits }) (arc_value version.netlist) version.waves };
}

impl Version {
    ghost use Rattle.std.specs.Prelude.{◌≡◌, ◌<◌, ◌≤◌, Ok, IfOk, length};
    ghost use Rattle.std.specs.Option.{option_copied};
    ghost use Rattle.std.specs.Arc.{arc_value};
    ghost use Rattle.mp_netlist.specs.Circuit.{wire_at};
    ghost use Rattle.mp_netlist.specs.Edits.{after};
    ghost use Rattle.mp_netlist.specs.Replays.{replay};
    ghost use Rattle.mp_model.specs.Waves.{slot_wave, AreWavesOf};
    ghost use Rattle.mp_version.specs.Limits.{max_edits};
    ghost use Rattle.mp_version.specs.Stories.{opening, one_more, present};

    /// The version of a netlist before the first edit.
    pub fn opening(alloc: Global, netlist: Netlist, waves: Waves) -> Result<Self, AllocError>
        requires { AreWavesOf netlist waves }
        ensures { IfOk result (λ version. version ≡ opening netlist) }
    {
        let base = Arc::new(alloc, netlist)?;
        Ok(Version {
            netlist: Arc::try_clone(&base)?,
            base,
            edits: History::new(alloc),
            waves,
        })
    }

    /// The version after one more edit, which leads to this netlist.
    pub fn next(
        &self,
        alloc: Global,
        edit: Arc<Edit, Global>,
        netlist: Netlist,
        waves: Waves,
    ) -> Result<Self, AllocError>
        requires accepted { after (present self.now) (arc_value edit) ≡ Ok netlist }
        requires room { length self.now.edits < max_edits }
        requires waves { AreWavesOf netlist waves }
        ensures story { IfOk result (λ version. version ≡ one_more self.now (arc_value edit)) }
        ensures now { IfOk result (λ version. present version ≡ netlist) }
    {
        let netlist = Arc::new(alloc, netlist)?;
        let base = Arc::try_clone(&self.base)?;
        let edits = self.edits.with(alloc, edit)?;
        Ok(Version {
            base,
            edits,
            netlist,
            waves,
        })
    }

    /// The netlist that the session was opened with.
    pub fn base(&self) -> &Netlist
        ensures { result.now ≡ self.now.base }
    {
        &self.base
    }

    /// The edits that were accepted since, in order.
    pub fn edits(&self) -> &History
        ensures { result.now ≡ self.now.edits }
    {
        &self.edits
    }

    /// The netlist after these edits.
    pub fn now(&self) -> &Netlist
        ensures value { result.now ≡ present self.now }
        ensures replayed { replay self.now.base self.now.edits ≡ Ok result.now }
    {
        &self.netlist
    }

    /// How many edits were accepted, at most `MAX_EDITS`.
    pub fn number(&self) -> u32
        ensures value { result ≡ length self.now.edits }
        ensures few { result ≤ max_edits }
    {
        self.edits.len()
    }

    /// The wave of a wire that exists in the netlist after the edits.
    pub fn wave(&self, wire: WireId) -> Option<&Wave>
        ensures { option_copied result ≡ slot_wave (present self.now) wire.0 (wire_at (present self.now) wire.0) }
    {
        self.waves.of(wire)
    }

    /// The waves of the netlist after the edits.
    pub fn waves(&self) -> &Waves
        ensures { AreWavesOf (present self.now) result.now }
    {
        &self.waves
    }
}
