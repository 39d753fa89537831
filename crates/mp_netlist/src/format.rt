//! The formats of netlists.

/// How large a netlist may get, and for how long it may run.
#[derive(Clone, Copy, PartialEq, Eq)]
pub enum Format {
    /// The format of texts of formats 1 and 2.
    Standard,
    /// The format of texts of format 4.
    Large,
}

impl Format {
    ghost use Rattle.std.specs.Prelude.{◌≡◌, ◌≤◌};
    ghost use Rattle.mp_netlist.specs.Limits.{max_horizon, horizon_limit, wire_limit, module_limit, bundle_limit};

    /// The greatest horizon, in units.
    pub fn max_horizon(self) -> u64
        ensures value { result ≡ horizon_limit self }
        ensures most { result ≤ max_horizon }
    {
        match self {
            Format::Standard => 1_048_576,
            Format::Large => 1_073_741_824,
        }
    }

    /// The greatest number of wires that can be added, removed ones included.
    pub fn max_wires(self) -> usize
        ensures { result ≡ wire_limit self }
    {
        match self {
            Format::Standard => 8192,
            Format::Large => 2_097_152,
        }
    }

    /// The greatest number of modules that can be added, removed ones included.
    pub fn max_modules(self) -> usize
        ensures { result ≡ module_limit self }
    {
        match self {
            Format::Standard => 4096,
            Format::Large => 1_048_576,
        }
    }

    /// The greatest number of bundles that can be added, removed ones included.
    pub fn max_bundles(self) -> usize
        ensures { result ≡ bundle_limit self }
    {
        match self {
            Format::Standard => 1024,
            Format::Large => 262_144,
        }
    }
}
