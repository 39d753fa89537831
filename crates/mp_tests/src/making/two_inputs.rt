//! A netlist in which both inputs of a module change in one unit.

/// A module of two inputs that hear later, one that reads what it makes, and one of two inputs with data.
pub const TWO_INPUTS: &str = "wire a 1 0
wire b 1 0
wire y 1 0
wire z 1 0
wire d 8 3
wire e 8 1
wire f 8 4
module x XOR : a/1 b/1 > y/2
module n NOT : y/3 > z/2
module s SUM : d e > f/2
";

/// How many modules the netlist has.
pub const MODULES_WITH_TWO: u32 = 3;

/// Both inputs of the first module change in one unit, and what it makes stays.
pub const BOTH: &str = "batch stim a 1=1 ; stim b 1=1";

/// Both inputs with data change in one unit.
pub const DATA: &str = "batch stim d 1=5 ; stim e 1=2";

/// One input of the first module changes later, and what it makes changes.
pub const LATER: &str = "stim a 3=1";
