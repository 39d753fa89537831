//! The numbers of wires, modules and bundles. Each sort is numbered from 0 in the order of adding, and no number is used again.

/// A wire's number.
#[derive(Clone, Copy, Default, PartialEq, Eq)]
pub struct WireId(pub u32);

/// A module's number.
#[derive(Clone, Copy, PartialEq, Eq)]
pub struct ModuleId(pub u32);

/// A bundle's number.
#[derive(Clone, Copy, PartialEq, Eq)]
pub struct BundleId(pub u32);
