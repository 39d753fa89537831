//! The picture that is asked for.
ghost use Rattle.std.specs.Prelude.{◌<◌};

use mp_netlist::Name;
use mp_text::MAX_COLUMNS;

/// The picture that is asked for: the wires of these names, or all if there are no names, from the time `from` to before the time `to`, in at most
/// `columns` columns. Times are in units from 0, and may be at or above the horizon.
#[derive(Clone, Copy)]
pub struct AskedPicture<'a> {
    pub wires: &'a [Name],
    pub from: u64,
    pub to: u64,
    pub columns: u32,
    ghost some: { 0 < columns },
}

impl<'a> AskedPicture<'a> {
    ghost use Rattle.std.specs.Prelude.{◌≡◌, ◌&&◌, nat_le, is_some, IfSome};
    ghost use Rattle.mp_text.specs.Limits.{max_columns};

    /// This picture, if `columns` is 1 to `MAX_COLUMNS`.
    pub fn new(wires: &'a [Name], from: u64, to: u64, columns: u32) -> Option<AskedPicture<'a>>
        ensures valid { is_some result ≡ (nat_le 1 columns && nat_le columns max_columns) }
        ensures columns { IfSome result (λ asked. asked.columns ≡ columns) }
        ensures wires { IfSome result (λ asked. asked.wires.now ≡ wires.now) }
        ensures range { IfSome result (λ asked. (asked.from ≡ from) × (asked.to ≡ to)) }
    {
        if columns == 0 || columns > MAX_COLUMNS {
            return None;
        }
        Some(AskedPicture {
            wires,
            from,
            to,
            columns,
        })
    }
}
