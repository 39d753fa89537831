//! Where the time of a chain of causes went.
ghost use Rattle.mp_commands.specs.views.Chains.{path_of};

use crate::views::evaluated::Evaluated;
use mp_netlist::Name;
use mp_questions::{Moment, put_path_since};
use mp_streams::{Out, Sink, WriteError};
use std::alloc::Global;

/// How the time of a chain of causes from `from` on divides among the modules: the chain of the level that the wire of this name has at `time`. Times
/// are in units from 0, and may be at or above the horizon.
#[derive(Clone, Copy)]
pub struct PathLines<'a> {
    pub wire: &'a Name,
    pub time: u64,
    pub from: u64,
}

impl<'a> PathLines<'a> {
    ghost use Rattle.std.specs.Prelude.{◌≡◌, is_some, unwrap_or, IfSome};
    ghost use Rattle.mp_commands.specs.views.Chains.{is_begin};

    /// The chain from `from` on, if that is below `time`; without `from` the whole chain.
    pub fn new(wire: &'a Name, time: u64, from: Option<u64>) -> Option<PathLines<'a>>
        ensures valid { is_some result ≡ is_begin from time }
        ensures wire { IfSome result (λ lines. lines.wire.now ≡ wire.now) }
        ensures times { IfSome result (λ lines. (lines.time ≡ time) × (lines.from ≡ unwrap_or from 0)) }
    {
        match from {
            None => Some(PathLines {
                wire,
                time,
                from: 0,
            }),
            Some(from) if from < time => Some(PathLines { wire, time, from }),
            Some(_) => None,
        }
    }
}

impl<'a> PathLines<'a> {
    ghost use Rattle.mp_streams.specs.WriteErrors.{Writes};

    /// Writes its text; nothing if the wire doesn't exist.
    pub(crate) fn put<T: Sink>(
        &self,
        alloc: Global,
        out: &mut Out<T>,
        of: &Evaluated<'_>,
    ) -> Result<(), WriteError>
        ensures { Writes result out.old out.new (path_of of.now.netlist.now self.now.wire.now self.now.time self.now.from) }
    {
        let Some(wire) = of.netlist.wire_named(self.wire.as_str()) else {
            return Ok(());
        };
        let moment = Moment {
            wire,
            time: self.time,
        };
        put_path_since(alloc, out, of.netlist, of.waves, moment, self.from)
    }
}
