//! The words of a module's line.
ghost use Rattle.std.specs.Prelude.{◌≡◌, ◌<◌, length, drop, IfSome};
ghost use Rattle.std.specs.List.{before_first, after_first};
ghost use Rattle.std.specs.Prelude.{position};
ghost use Rattle.mp_text.specs.Names.{texts, AreAscii};
ghost use Rattle.mp_text.specs.Statements.{is_mark};
ghost use Rattle.mp_request.specs.faults.Places.{module_parts};

/// The words after the kind of a module: its parameters, its inputs and its outputs.
#[derive(Clone, Copy)]
pub(crate) struct ModuleParts<'a, 'b> {
    pub(crate) params: &'a [&'b [u8]],
    pub(crate) inputs: &'a [&'b [u8]],
    pub(crate) outputs: &'a [&'b [u8]],
}

/// Divides the words of a module's line. The parameters end at the first `:`, and the inputs at the first `>` after it.
pub(crate) fn module_parts<'a, 'b>(words: &'a [&'b [u8]]) -> ModuleParts<'a, 'b>
    requires { AreAscii words.now }
    ensures params { texts result.params.now ≡ (module_parts (texts words.now)).params }
    ensures inputs { texts result.inputs.now ≡ (module_parts (texts words.now)).inputs }
    ensures outputs { texts result.outputs.now ≡ (module_parts (texts words.now)).outputs }
    ensures params_ascii { AreAscii result.params.now }
    ensures inputs_ascii { AreAscii result.inputs.now }
    ensures outputs_ascii { AreAscii result.outputs.now }
{
    let (params, ports) = divided(b':', behind(words, 3));
    let (inputs, outputs) = divided(b'>', ports);
    ModuleParts {
        params,
        inputs,
        outputs,
    }
}

/// The words after the first `count`, or none if there are fewer.
#[tactic(auto, using(crate::proofs::lemmas::faults::WordLemmas::behind_steps))]
pub(crate) fn behind<'a, 'b>(words: &'a [&'b [u8]], count: usize) -> &'a [&'b [u8]]
    requires { AreAscii words.now }
    ensures words { texts result.now ≡ drop count (texts words.now) }
    ensures ascii { AreAscii result.now }
{
    &words[count.min(words.len())..]
}

/// The words before and after the first word that is this byte alone; all words and none if there is no such word.
#[tactic(auto, using(crate::proofs::lemmas::faults::WordLemmas::divided_steps))]
fn divided<'a, 'b>(mark: u8, words: &'a [&'b [u8]]) -> (&'a [&'b [u8]], &'a [&'b [u8]])
    requires { AreAscii words.now }
    ensures front { texts result.0.now ≡ before_first (is_mark mark) (texts words.now) }
    ensures back { texts result.1.now ≡ after_first (is_mark mark) (texts words.now) }
    ensures front_ascii { AreAscii result.0.now }
    ensures back_ascii { AreAscii result.1.now }
{
    split_at_mark(mark, words)
}

fn split_at_mark<'a, 'b>(mark: u8, words: &'a [&'b [u8]]) -> (&'a [&'b [u8]], &'a [&'b [u8]])
    ensures front { result.0.now ≡ before_first (λ word. is_mark mark word.now) words.now }
    ensures back { result.1.now ≡ after_first (λ word. is_mark mark word.now) words.now }
{
    match place_of_mark(mark, words) {
        Some(at) => (&words[..at], &words[at + 1..]),
        None => (words, &words[words.len()..]),
    }
}

fn place_of_mark(mark: u8, words: &[&[u8]]) -> Option<usize>
    ensures place { result ≡ position (λ word. is_mark mark word.now) words.now }
    ensures within { IfSome result (λ at. at < length words.now) }
{
    words.iter().position(|word| is_mark(mark, word))
}

/// Whether the word is this byte alone.
fn is_mark(mark: u8, word: &[u8]) -> bool
    ensures { result ≡ is_mark mark word.now }
{
    word == [mark].as_slice()
}
