//! That an input has ended.
ghost use Rattle.mp_seats.specs.hosting.Endings.{HasEnded};

use mp_streams::Source;
use mp_text::LineReader;

/// A proof that the input of a seat was read to its end, or can't be read any more, and is closed. It is made only from such an input.
#[derive(Drop)]
pub struct Ended {
    closed: (),
}

impl Ended {
    /// Closes an input that is at its end or has failed.
    pub(crate) fn of<I: Source + Drop>(lines: LineReader<I>) -> Ended
        requires { HasEnded lines }
    {
        drop(lines);
        Ended { closed: () }
    }
}
