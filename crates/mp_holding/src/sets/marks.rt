//! Sets of numbers as marks.
ghost use Rattle.std.specs.Prelude.{◌≡◌};
ghost use Rattle.mp_holding.specs.sets.Marks.{is_marked};

/// Whether a number is marked: the mark at its place, false past the end.
pub fn is_marked(marks: &[bool], number: u32) -> bool
    ensures { result ≡ is_marked marks.now number }
{
    match marks.get(number as usize) {
        Some(mark) => *mark,
        None => false,
    }
}
