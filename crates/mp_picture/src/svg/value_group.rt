//! The values of a wider wire.
use crate::level_text::LevelText;
use crate::svg::elements::{Label, Rectangle};
use crate::svg::lane::Lane;
use mp_streams::{Failed, Out, Sink, Text};

/// A level from a point on, if it fits into a number of columns.
#[derive(Clone, Copy)]
struct Fitting {
    x: u64,
    y: u64,
    room: u64,
    text: LevelText,
}

impl Text for Fitting {
    ghost use Rattle.mp_picture.specs.Levels.{shown};
    ghost use Rattle.mp_picture.specs.svg.Columns.{fitting_text};

    ghost text = { λ value. fitting_text value.x value.y value.room (shown value.text) };

    fn put_to<S: Sink>(&self, out: &mut Out<S>) -> Result<(), Failed> {
        if self.text.len() as u64 > self.room {
            return Ok(());
        }
        Label {
            x: self.x,
            y: self.y,
            text: &self.text,
        }
        .put_to(out)
    }
}

/// The value of a column and of the columns without an event after it: a frame over them, and the level from a point on if there is room for it.
#[derive(Clone, Copy)]
pub(crate) struct ValueGroup {
    pub(crate) lane: Lane,
    pub(crate) column: u32,
    pub(crate) x: u64,
    pub(crate) room: u64,
    pub(crate) later: u32,
    pub(crate) level: u64,
}

impl Text for ValueGroup {
    ghost use Rattle.mp_picture.specs.svg.Columns.{value_group};

    ghost text = { λ value. value_group value.lane value.column value.x value.room value.later value.level };

    fn put_to<S: Sink>(&self, out: &mut Out<S>) -> Result<(), Failed> {
        let column = (" data-column=\"", self.column, "\"");
        let level = (" data-level=\"", self.level, "\"");
        let text = LevelText::new(self.lane.numerals, self.level);
        let title = ("<title>", &text, "</title>");
        let frame = Rectangle {
            start: "<rect",
            x: self.lane.begin(self.column),
            y: self.lane.top(),
            width: 8 * (u64::from(self.later) + 1),
        };
        let value = Fitting {
            x: self.x,
            y: self.lane.base(),
            room: self.room,
            text,
        };
        let start = ("<g class=\"value\"", column, level, ">");
        (start, title, frame, (value, "</g>")).put_to(out)
    }
}
