//! The place of a word in a line, by its role.
ghost use Rattle.std.specs.Prelude.{◌≡◌, ◌≤◌, length, min};
ghost use Rattle.mp_text.specs.Names.{texts, AreAscii};
ghost use Rattle.mp_request.specs.faults.Places.{index, index_in, module_parts};

use crate::faults::module_parts::{ModuleParts, module_parts};

/// The place of a word. The place after the last parameter, input or output is the mark that ends them, or the end of the line.
#[derive(Clone, Copy)]
pub(crate) enum WordPlace {
    /// The word at this index.
    Word(usize),
    /// The parameter of a module at this index.
    Param(usize),
    /// The input at this index.
    Input(usize),
    /// The output at this index.
    Output(usize),
}

impl WordPlace {
    /// The index of the word in the line; the number of words if the line has no such word.
    pub(crate) fn index(self, words: &[&[u8]]) -> usize
        requires { AreAscii words.now }
        ensures { result ≡ index (texts words.now) self }
    {
        words.len().min(self.index_in(module_parts(words)))
    }

    /// The index in a line with these parts, or `usize::MAX` if it is greater than that.
    fn index_in(self, parts: ModuleParts<'_, '_>) -> usize
        ensures { result ≡ min 18446744073709551615
            (index_in (record { params = texts parts.entry.params.now; inputs = texts parts.entry.inputs.now; outputs = texts parts.entry.outputs.now }) self) }
    {
        match self {
            WordPlace::Word(place) => place,
            WordPlace::Param(place) => place.saturating_add(3),
            WordPlace::Input(place) => place.saturating_add(4 + parts.params.len()),
            WordPlace::Output(place) => place
                .saturating_add(5 + parts.params.len())
                .saturating_add(parts.inputs.len()),
        }
    }
}
