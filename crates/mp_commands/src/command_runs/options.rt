//! How a run is made.
ghost use Rattle.std.specs.Prelude.{◌≡◌};

use mp_engine::Progress;
use mp_phase::Crew;
use std::hash::RandomState;

/// What a run is given: by which keys it hashes names, numbers, and where it writes how far it is. Any number may be asked for.
#[derive(Clone, Copy)]
pub struct Options<'a> {
    /// The keys by which the netlist hashes names.
    pub keys: RandomState,
    /// The number of threads: 1 to 16 are valid.
    pub workers: u32,
    /// The least number of modules for which several threads are used: 1 to 4,096 are valid.
    pub least: u32,
    /// The number of viewers of a desk. Other commands don't read it.
    pub viewers: u32,
    /// Where the evaluation of a netlist writes how far it is, if anywhere. A desk and a script don't read it.
    pub progress: Option<&'a Progress>,
}

/// Who evaluates a netlist, and where it is written how far that is.
#[derive(Clone, Copy)]
pub(crate) struct Finders<'a> {
    pub crew: Crew,
    pub progress: Option<&'a Progress>,
}

impl<'a> Options<'a> {
    ghost use Rattle.mp_commands.specs.command_runs.Clauses.{is_some, has_valid_crew};

    /// The crew of these numbers, if `workers` is 1 to 16 and `least` is 1 to 4,096.
    pub fn crew(&self) -> Option<Crew>
        ensures { is_some result ≡ has_valid_crew self.now }
    {
        Crew::new(self.workers, self.least).ok()
    }
}
