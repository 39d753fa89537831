//! What is wrong with a line of a text.
ghost use Rattle.std.specs.Prelude.{◌≡◌};
ghost use Rattle.mp_text.specs.Clauses.{Line};

use crate::lexing::LineError;
use mp_netlist::EditError;
use thiserror::Error;

/// What is wrong with a line of a netlist's text.
#[derive(Clone, Copy, Debug, PartialEq, Eq, Error)]
pub enum TextCode {
    /// What is wrong with the line by itself, or that memory ran out.
    #[error("{0}")]
    Line(LineError),
    #[error("`horizon` has to come first")]
    NoHorizon,
    #[error("a second horizon")]
    SecondHorizon,
    #[error("refused: {0}")]
    Refused(EditError),
    #[error("the text is too long")]
    TooLong,
    #[error("an unknown format, or one that isn't on the first line with words")]
    BadFormat,
}

impl From<LineError> for TextCode {
    ghost from_gives = { λ error code. code ≡ Line error };

    fn from(error: LineError) -> TextCode {
        TextCode::Line(error)
    }
}

impl TextCode {
    ghost use Rattle.mp_text.specs.TextCodes.{number_of, name_of};

    /// The number of the code, from 1 to 10.
    pub fn number(self) -> u32
        ensures { result ≡ number_of self }
    {
        match self {
            TextCode::Line(error) => error.number(),
            TextCode::NoHorizon => 5,
            TextCode::SecondHorizon => 6,
            TextCode::Refused(_) => 7,
            TextCode::TooLong => 8,
            TextCode::BadFormat => 10,
        }
    }

    /// The name of the code. A refused edit has a name of its own in its `EditError`.
    pub fn name(self) -> &'static str
        ensures { result.now ≡ name_of self }
    {
        match self {
            TextCode::Line(error) => error.name(),
            TextCode::NoHorizon => "NoHorizon",
            TextCode::SecondHorizon => "SecondHorizon",
            TextCode::Refused(_) => "Refused",
            TextCode::TooLong => "TooLong",
            TextCode::BadFormat => "BadFormat",
        }
    }
}
