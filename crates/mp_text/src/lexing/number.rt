//! Pairs with decimal numbers.
#![tactic(auto, unfolding(crate::specs::lexing::Numbers::time_and_value, crate::specs::lexing::Numbers::parts_at_equals, crate::specs::lexing::Numbers::name_and_number, crate::specs::lexing::Numbers::parts_at_slash))]

ghost use Rattle.std.specs.Prelude.{◌≡◌, ◌+◌};
ghost use Rattle.mp_text.specs.lexing.Clauses.{not, length, option_map, IfSome, IsAscii, suffix_len, parts_at_equals, time_and_value, is_slash, parts_at_slash, name_and_number};

use crate::lexing::word::place_of;
use mp_streams::spelled_number;

/// A time and a value, as in `5=1`.
pub fn time_and_value(word: &[u8]) -> Option<(u64, u64)>
    ensures { result ≡ time_and_value word.now }
{
    let (front, back) = at_equals(word)?;
    let time = spelled_number(front)?;
    let value = spelled_number(back)?;
    Some((time, value))
}

/// The bytes before and after the first `=`.
fn at_equals(word: &[u8]) -> Option<(&[u8], &[u8])>
    ensures { option_map (λ parts. (parts.0.now, parts.1.now)) result ≡ parts_at_equals word.now }
{
    let at = place_of(b'=', word)?;
    Some((&word[..at], &word[at + 1..]))
}

/// A name and a number, as in `y/3`.
pub fn name_and_number(word: &[u8]) -> Option<(&[u8], u64)>
    ensures pair { option_map (λ pair. (pair.0.now, pair.1)) result ≡ name_and_number word.now }
    ensures ascii { IsAscii word.now → IfSome result (λ pair. IsAscii pair.0.now) }
{
    let (name, back) = at_slash(word)?;
    let number = spelled_number(back)?;
    Some((name, number))
}

/// The bytes before and after the last `/`, if there are bytes before it.
fn at_slash(word: &[u8]) -> Option<(&[u8], &[u8])>
    ensures parts { option_map (λ parts. (parts.0.now, parts.1.now)) result ≡ parts_at_slash word.now }
    ensures ascii { IsAscii word.now → IfSome result (λ parts. IsAscii parts.0.now) }
{
    let from = behind_slash(word);
    if from < 2 {
        return None;
    }
    Some((&word[..from - 1], &word[from..]))
}

/// The index after the last `/`, 0 if there is no `/`.
fn behind_slash(word: &[u8]) -> usize
    ensures { result + suffix_len (λ byte. not (is_slash byte)) word.now ≡ length word.now }
{
    let mut from = word.len();
    while from > 0 && word[from - 1] != b'/' {
        from -= 1;
    }
    from
}
