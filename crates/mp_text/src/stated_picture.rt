//! The words behind the times of a picture: names of wires, and then options.
ghost use Rattle.std.specs.Prelude.{◌≡◌, ◌<◌, drop};
ghost use Rattle.std.specs.List.{position_or_len};
ghost use Rattle.std.specs.Str.{bytes_eq};
ghost use Rattle.mp_text.specs.Clauses.{AreAscii, IfOk, IfSome, before_first, columns_at, columns_behind, form_of, is_option, length, option_place, options_in, position, texts, wires_in, words_taken};

use crate::lexing::{LineError, count_word, is_text};
use crate::picture_options::PictureOptions;

/// The greatest number of columns that a picture may have.
pub const MAX_COLUMNS: u32 = 10_000;

/// The greatest number of columns of a picture if none is given.
pub const USUAL_COLUMNS: u32 = 72;

/// The names of wires, before the first option, and the options.
#[tactic(auto, using(crate::proofs::PictureLemmas::parted_steps))]
pub fn wires_and_options<'a, 'b>(words: &'a [&'b [u8]]) -> (&'a [&'b [u8]], &'a [&'b [u8]])
    requires { AreAscii words.now }
    ensures wires { texts result.0.now ≡ wires_in (texts words.now) }
    ensures options { texts result.1.now ≡ options_in (texts words.now) }
    ensures ascii { AreAscii result.0.now }
{
    split_at_options(words)
}

fn split_at_options<'a, 'b>(words: &'a [&'b [u8]]) -> (&'a [&'b [u8]], &'a [&'b [u8]])
    ensures wires { result.0.now ≡ before_first (λ word. is_option word.now) words.now }
    ensures options { result.1.now ≡ drop (position_or_len (λ word. is_option word.now) words.now) words.now }
{
    match find_options(words) {
        Some(place) => (&words[..place], &words[place..]),
        None => (words, &words[words.len()..]),
    }
}

/// The place of the first option.
fn find_options(words: &[&[u8]]) -> Option<usize>
    ensures place { result ≡ position (λ word. is_option word.now) words.now }
    ensures within { IfSome result (λ place. place < length words.now) }
{
    words.iter().position(|word| is_option(word))
}

/// Whether the word begins with `--`, as options do and no name does.
fn is_option(word: &[u8]) -> bool
    ensures { result ≡ is_option word.now }
{
    match word {
        [first, second, ..] => *first == b'-' && *second == b'-',
        _ => false,
    }
}

/// What the options say, each of which stands once at most. `WordCount` comes for an option that stands twice, for a word that is none, and for
/// `--columns` without a word behind it; `BadNumber` if that word isn't a number from 1 to `MAX_COLUMNS`.
#[tactic(auto, using(crate::proofs::PictureLemmas::options_steps))]
pub fn options_of(words: &[&[u8]]) -> Result<PictureOptions, LineError>
    ensures { result ≡ form_of (texts words.now) }
{
    let place = find_option("--columns", words);
    let is_hex = find_option("--hex", words).is_some();
    let is_ascii = find_option("--ascii", words).is_some();
    if words.len() != words_taken(place.is_some(), is_hex, is_ascii) {
        return Err(LineError::WordCount);
    }
    let columns = columns_at(place, words)?;
    Ok(PictureOptions {
        columns,
        is_hex,
        is_ascii,
    })
}

/// The place of the first word that is this option.
#[tactic(auto, using(crate::proofs::PictureLemmas::place_in_texts))]
fn find_option(option: &str, words: &[&[u8]]) -> Option<usize>
    ensures place { result ≡ option_place option.now (texts words.now) }
    ensures within { IfSome result (λ place. place < length words.now) }
{
    find_word(option, words)
}

fn find_word(text: &str, words: &[&[u8]]) -> Option<usize>
    ensures place { result ≡ position (λ word. bytes_eq word.now text.now) words.now }
    ensures within { IfSome result (λ place. place < length words.now) }
{
    words.iter().position(|word| is_text(word, text))
}

/// The number of words of these options.
fn words_taken(has_columns: bool, is_hex: bool, is_ascii: bool) -> usize
    ensures { result ≡ words_taken has_columns is_hex is_ascii }
{
    // `--columns` has a number behind it
    2 * usize::from(has_columns) + usize::from(is_hex) + usize::from(is_ascii)
}

/// The number that the word behind the place of `--columns` spells; the usual one if there is no such place.
fn columns_at(place: Option<usize>, words: &[&[u8]]) -> Result<u32, LineError>
    requires { IfSome place (λ place. place < length words.now) }
    ensures columns { result ≡ columns_at place (texts words.now) }
    ensures some { IfOk result (λ columns. 0 < columns) }
{
    match place {
        Some(place) => columns_behind(&words[place + 1..]),
        None => Ok(USUAL_COLUMNS),
    }
}

/// The number that the first of these words spells.
fn columns_behind(words: &[&[u8]]) -> Result<u32, LineError>
    ensures columns { result ≡ columns_behind (texts words.now) }
    ensures some { IfOk result (λ columns. 0 < columns) }
{
    match words {
        [word, ..] => count_word(word, MAX_COLUMNS),
        [] => Err(LineError::WordCount),
    }
}
