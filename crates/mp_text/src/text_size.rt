//! The greatest length of a text.
ghost use Rattle.std.specs.Prelude.{◌≡◌, ◌≤◌, ◌+◌};
ghost use Rattle.mp_text.specs.Clauses.{take, lines_of, words_of, max_text, max_short_text, first_words, states_fourth, text_limit};

use crate::lexing::{first_line, number_word, word_at, word_count};

/// The greatest length of a text of format 1 or 2, in bytes.
pub const MAX_SHORT_TEXT: usize = 4_194_304;

/// The greatest length of a text of format 4, in bytes.
const MAX_TEXT: usize = 1_073_741_824;

/// The greatest length of this text, in bytes. It is that of format 4 if its first line with words states that format and begins within the greatest
/// length of another text, or one byte after it.
#[tactic(auto, unfolding(crate::specs::Sizes::text_limit))]
pub fn text_limit(text: &[u8]) -> usize
    ensures value { result ≡ text_limit text.now }
    ensures most { result ≤ max_text }
{
    if begins_fourth(front_of(text)) {
        MAX_TEXT
    } else {
        MAX_SHORT_TEXT
    }
}

/// The first bytes of a text: one more than a text of format 1 or 2 may have, or all.
#[tactic(auto, using(std::proofs::lemmas::List::take_min))]
fn front_of(text: &[u8]) -> &[u8]
    ensures { result.now ≡ take (max_short_text + 1) text.now }
{
    &text[..(MAX_SHORT_TEXT + 1).min(text.len())]
}

/// Whether the first line with words states `format 4`.
#[tactic(auto, using(crate::proofs::TextLemmas::first_worded, crate::proofs::TextLemmas::first_blank, crate::proofs::TextLemmas::no_words))]
fn begins_fourth(text: &[u8]) -> bool
    ensures { result ≡ states_fourth (first_words (lines_of text.now)) }
{
    let mut rest = text;
    while !rest.is_empty() {
        let (line, others) = first_line(rest);
        if word_count(line) != 0 {
            return states_fourth(line);
        }
        rest = others;
    }
    false
}

/// Whether a line states `format 4`.
#[tactic(auto, using(crate::proofs::TextLemmas::fourth_steps))]
fn states_fourth(line: &[u8]) -> bool
    ensures { result ≡ states_fourth (words_of line.now) }
{
    match (word_at(line, 0), word_at(line, 1)) {
        (Some(word), Some(number)) => {
            let formed = word == b"format".as_slice();
            let fourth = matches!(number_word(number), Ok(4));
            (word_count(line) == 2) & formed & fourth
        }
        _ => false,
    }
}
