//! What a wave says to a reader.
ghost use Rattle.mp_picture.specs.wave_json.Laws.{HasCharacters, ShowsBits, ShowsWords, TicksAreTimes};

/// A wave has as many characters as the picture has columns.
#[tactic(auto, using(crate::proofs::lemmas::wave_json::WaveJsonLemmas::has_characters))]
pub fn has_characters()
    ensures { HasCharacters }
{}

/// The wave of a wire of width 1, read with each `.` as the character before, has the symbol of each column: its level at the end, or `x`.
#[tactic(auto, using(crate::proofs::lemmas::wave_json::WaveJsonLemmas::shows_bits))]
pub fn shows_bits()
    ensures { ShowsBits }
{}

/// The wave of a wider wire, read with each `=` as its next value and each `.` as the value before, has the level at the end of each column.
#[tactic(auto, using(crate::proofs::lemmas::wave_json::WordWaveLemmas::shows_words))]
pub fn shows_words()
    ensures { ShowsWords }
{}

/// The number above a column, times the units of a column, is the column's first unit.
#[tactic(auto, using(crate::proofs::lemmas::wave_json::WaveJsonLemmas::ticks_are_times))]
pub fn ticks_are_times()
    ensures { TicksAreTimes }
{}
