//! What a dump says to a reader.
ghost use Rattle.mp_exports.specs.vcd.Clauses.{IsReadBack, HaveOwnCodes, HaveKnownCodes};

/// The dump of a well-formed netlist, read strictly by the rules of IEEE Std 1364, declares how long a unit of time is and each wire that exists as
/// a variable of one scope, with the wire's name and width; it gives each at each time below the horizon the wire's level at that time, and ends at
/// the horizon with every command over.
#[tactic(auto, using(crate::proofs::lemmas::vcd::DumpReadLemmas::says_levels))]
pub fn dump_is_read()
    ensures { IsReadBack }
{}

/// No two wires have the same identifier code.
#[tactic(auto, using(crate::proofs::lemmas::vcd::CodeReadLemmas::own_codes))]
pub fn own_codes()
    ensures { HaveOwnCodes }
{}

/// Some identifier codes: that of wire 93 is `~`, that of 94 `!"`, and that of 8191 `.x`.
#[tactic(auto, unfolding(crate::specs::vcd::Codes::code))]
pub fn known_codes()
    ensures { HaveKnownCodes }
{}
