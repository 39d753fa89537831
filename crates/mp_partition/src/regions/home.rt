//! In which part of a netlist something is at home.
ghost use Rattle.std.specs.Prelude.{◌≡◌};
ghost use Rattle.mp_partition.specs.regions.Regions.{partition_of};

/// The partition of wires that no port drives.
pub const NOWHERE: u32 = u32::MAX;

/// The partition of a module, or of the driver of a wire; the first one if none is given.
pub fn partition_of(homes: &[u32], number: u32) -> u32
    ensures { result ≡ partition_of homes.now number }
{
    match homes.get(number as usize) {
        Some(home) => *home,
        None => 0,
    }
}
