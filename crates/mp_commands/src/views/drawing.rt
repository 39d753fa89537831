//! How a picture is drawn.
ghost use Rattle.std.specs.Prelude.{◌≡◌, ◌<◌};

use mp_picture::{Charset, MOST_COLUMNS};

/// How a picture is drawn.
#[derive(Clone, Copy)]
pub enum Drawing<'a> {
    /// As text, in these characters.
    Text(Charset),
    /// As an SVG file, which has 1,200 columns at most, with this title above the times.
    Svg(&'a str),
    /// As WaveJSON.
    Json,
}

impl<'a> Drawing<'a> {
    ghost use Rattle.mp_commands.specs.views.Pictures.{columns_drawn};

    /// The greatest number of columns of a picture in this form, if `asked` are asked for.
    pub(crate) fn columns(self, asked: u32) -> u32
        requires { 0 < asked }
        ensures value { result ≡ columns_drawn self.entry asked }
        ensures some { 0 < result }
    {
        match self {
            Drawing::Text(_) | Drawing::Json => asked,
            Drawing::Svg(_) => asked.min(MOST_COLUMNS),
        }
    }
}
