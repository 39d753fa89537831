//! The state of reading a text.
use crate::text_code::TextCode;
use crate::text_error::TextError;
use crate::text_format::TextFormat;
use mp_netlist::Netlist;

/// What the lines read so far have stated.
#[derive(Drop)]
pub enum TextState {
    /// No line has had words.
    Fresh,
    /// The text has this format, and no horizon so far.
    Formatted(TextFormat),
    /// The netlist of the horizon and of the edits so far.
    Open(Netlist),
}

impl TextState {
    ghost use Rattle.std.specs.Prelude.{◌≡◌};
    ghost use Rattle.mp_text.specs.Clauses.{finished};

    /// The netlist of a text that ends here, after this number of lines. `NoHorizon` comes if there is none.
    pub fn finished(self, lines: u32) -> Result<Netlist, TextError>
        ensures { result ≡ finished lines self }
    {
        match self {
            TextState::Open(netlist) => Ok(netlist),
            TextState::Fresh | TextState::Formatted(_) => Err(TextError {
                line: lines,
                code: TextCode::NoHorizon,
            }),
        }
    }
}
