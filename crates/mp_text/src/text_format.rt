//! The formats of a netlist's text.
ghost use Rattle.std.specs.Prelude.{◌≡◌};
ghost use Rattle.mp_text.specs.Clauses.{format_of, has_kind, max_horizon_of, needs_fourth, netlist_format};

use crate::text_code::TextCode;
use mp_modules::{Function, Kind};
use mp_netlist::Format;

/// The longest horizon of a text of format 1.
pub const MAX_FIRST_HORIZON: u64 = 65_536;

/// The format of a text: how long its horizon may be, and how large its netlist may get.
#[derive(Clone, Copy)]
pub enum TextFormat {
    /// `format 1`, or a text that states no format: at most 65,536 units.
    First,
    /// `format 2`: at most 1,048,576 units.
    Second,
    /// `format 4`: at most 1,073,741,824 units, and larger netlists.
    Fourth,
}

impl TextFormat {
    /// The format of this number. `BadFormat` comes if there is none.
    pub fn of(number: u64) -> Result<TextFormat, TextCode>
        ensures { result ≡ format_of number }
    {
        match number {
            1 => Ok(TextFormat::First),
            2 => Ok(TextFormat::Second),
            4 => Ok(TextFormat::Fourth),
            _ => Err(TextCode::BadFormat),
        }
    }

    /// The longest horizon that such a text may state.
    pub fn max_horizon(self) -> u64
        ensures { result ≡ max_horizon_of self }
    {
        match self {
            TextFormat::First => MAX_FIRST_HORIZON,
            TextFormat::Second | TextFormat::Fourth => self.netlist().max_horizon(),
        }
    }

    /// The format of its netlist.
    pub fn netlist(self) -> Format
        ensures { result ≡ netlist_format self }
    {
        match self {
            TextFormat::First | TextFormat::Second => Format::Standard,
            TextFormat::Fourth => Format::Large,
        }
    }
}

/// Whether a text has this kind of module only in format 4.
pub fn needs_fourth(kind: Kind) -> bool
    ensures { result ≡ needs_fourth kind }
{
    match kind {
        Kind::Function(Function::And | Function::Or | Function::Sub) => true,
        Kind::Function(Function::Less | Function::Mux | Function::Join) => true,
        _ => false,
    }
}

/// Whether the text of a netlist of this format may have a kind of module.
pub fn has_kind(format: Format, kind: Kind) -> bool
    ensures { result ≡ has_kind format kind }
{
    match format {
        Format::Standard => !needs_fourth(kind),
        Format::Large => true,
    }
}
