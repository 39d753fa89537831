//! What holds of every text, and of the words of a picture.
ghost use Rattle.mp_laws.specs.RefusedTexts.{TextsAreRefusedByLines};
ghost use Rattle.mp_laws.specs.SaidPictures.{PicturesAreSaid};

/// A text of at most 4,194,304 bytes that is not read lacks only a horizon, or it is refused at one
/// of its lines. Then the lines before that one are read or lack only a horizon, and each text that
/// begins with the lines up to there is refused at the same line for the same reason.
pub fn texts_are_refused_by_lines()
    ensures { TextsAreRefusedByLines }
{}

/// A question `show` that is written out, with two times, names of wires, the number of columns, and the other options if they hold, is read as the
/// question for this picture.
pub fn pictures_are_said()
    ensures { PicturesAreSaid }
{}
