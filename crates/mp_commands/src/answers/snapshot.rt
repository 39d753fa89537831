//! What questions are asked of.
ghost use Rattle.std.specs.Prelude.{◌≡◌};

use crate::views::Evaluated;
use mp_depend::Work;
use mp_netlist::Netlist;
use mp_phase::Crew;
use mp_version::Version;
use std::marker::Model;

/// A version of a netlist that is edited, what was evaluated for its last edit, and the crew that looks at them. Questions are asked of it.
#[derive(Drop)]
pub struct Snapshot<'a> {
    pub version: &'a Version,
    pub work: &'a Work,
    pub crew: Crew,
}

impl<'a> Model for Snapshot<'a> {
    ghost use Rattle.mp_commands.specs.answers.Kept.{Kept, kept_at};

    ghost Value = { Kept };

    ghost view = { λ snapshot. kept_at snapshot.version.now snapshot.work.now };
}

impl<'a> Snapshot<'a> {
    /// The netlist of the version.
    pub(crate) fn netlist(&self) -> &'a Netlist
        ensures { result.now ≡ self.now.netlist }
    {
        self.version.now()
    }

    /// That netlist with its waves, and the crew.
    pub(crate) fn evaluated(&self) -> Evaluated<'a>
        ensures { result.netlist.now ≡ self.now.netlist }
    {
        Evaluated {
            netlist: self.version.now(),
            waves: self.version.waves(),
            crew: self.crew,
        }
    }
}
