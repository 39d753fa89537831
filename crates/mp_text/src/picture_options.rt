//! How a picture is drawn.
use std::marker::Model;

/// How a picture is drawn that a question asks for. Contracts see it as a `PictureForm`.
#[derive(Drop)]
pub struct PictureOptions {
    /// The greatest number of columns, 1 to `MAX_COLUMNS`.
    pub columns: u32,
    /// Whether levels are written in hexadecimal.
    pub is_hex: bool,
    /// Whether only ASCII characters are written.
    pub is_ascii: bool,
}

impl Model for PictureOptions {
    ghost use Rattle.std.specs.Prelude.{◌<◌};
    ghost use Rattle.mp_text.specs.PictureForms.{PictureForm};

    ghost Value = { PictureForm };

    ghost view = { λ options. record { columns = options.columns; is_hex = options.is_hex; is_ascii = options.is_ascii } };

    ghost invariant = { λ options. 0 < options.columns };
}
