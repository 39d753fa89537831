//! Netlists that fall into two groups of modules, which no wire connects.

/// Two groups of two buffers, of which the first ones read one wire.
pub const TWO_GROUPS: &str = "wire a 1 0
wire y1 1 0
wire y2 1 0
wire z1 1 0
wire z2 1 0
module b1 BUF : a > y1/2
module b2 BUF : a > y2/2
module b3 BUF : y1 > z1/2
module b4 BUF : y2 > z2/2
";

/// How many modules there are in them.
pub const GROUPED_MODULES: u32 = 4;

/// A module of each group is another one from the beginning on.
pub const BOTH_GROUPS: &str = "batch delay b1 0 3 ; delay b2 0 3";

/// Two groups of 24 modules. Three modules read one wire, two of them in the first group, and nobody reads theirs: three are a sixteenth of all.
/// None of the three has the least delay.
pub const WIDE_GROUPS: &str = "wire a 1 0
wire s 1 0
wire p 1 0
wire q 1 0
wire u1 1 0
wire u2 1 0
wire u3 1 0
module d1 BUF : s > p/1
module x1 XOR : a p > u1/2
module x2 XOR : a p > u2/2
module f1 BUF : p > -/1
module f2 BUF : p > -/1
module f3 BUF : p > -/1
module f4 BUF : p > -/1
module f5 BUF : p > -/1
module f6 BUF : p > -/1
module f7 BUF : p > -/1
module f8 BUF : p > -/1
module f9 BUF : p > -/1
module f10 BUF : p > -/1
module f11 BUF : p > -/1
module f12 BUF : p > -/1
module f13 BUF : p > -/1
module f14 BUF : p > -/1
module f15 BUF : p > -/1
module f16 BUF : p > -/1
module f17 BUF : p > -/1
module f18 BUF : p > -/1
module f19 BUF : p > -/1
module f20 BUF : p > -/1
module f21 BUF : p > -/1
module d2 BUF : s > q/1
module x3 XOR : a q > u3/2
module g1 BUF : q > -/1
module g2 BUF : q > -/1
module g3 BUF : q > -/1
module g4 BUF : q > -/1
module g5 BUF : q > -/1
module g6 BUF : q > -/1
module g7 BUF : q > -/1
module g8 BUF : q > -/1
module g9 BUF : q > -/1
module g10 BUF : q > -/1
module g11 BUF : q > -/1
module g12 BUF : q > -/1
module g13 BUF : q > -/1
module g14 BUF : q > -/1
module g15 BUF : q > -/1
module g16 BUF : q > -/1
module g17 BUF : q > -/1
module g18 BUF : q > -/1
module g19 BUF : q > -/1
module g20 BUF : q > -/1
module g21 BUF : q > -/1
module g22 BUF : q > -/1
";
