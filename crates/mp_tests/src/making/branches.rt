//! A netlist in which a change of what is set reaches one module, half of all, or nearly all.

/// Two buffers that read one wire, each with a buffer behind it, and one that reads another wire. The netlist falls into three groups of
/// modules that no wire connects.
pub const BRANCHES: &str = "wire a 1 0
wire c 1 0
wire y1 1 0
wire y2 1 0
wire y3 1 0
wire z1 1 0
wire z2 1 0
module b1 BUF : a > y1/2
module b2 BUF : a > y2/2
module b3 BUF : c > y3/2
module b4 BUF : y1 > z1/2
module b5 BUF : y2 > z2/2
stim a 1=1
";

/// How many modules the netlist has.
pub const MODULES: u32 = 5;

/// The first two buffers hear another change so late that a netlist of 8 units ends before the buffers behind them hear of it.
pub const HALF: &str = "stim a 1=1 7=0";

/// The first two buffers hear another change, so late that a netlist of 4 units ends before the buffers behind them hear of it.
pub const SOON: &str = "stim a 1=1 3=0";

/// The third buffer alone hears a change.
pub const ONE: &str = "stim c 1=1";

/// All but the third buffer hear the change later.
pub const MOST: &str = "stim a 2=1";
