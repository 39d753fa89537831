//! Numbers that are spelled in decimal digits.
ghost use Rattle.std.specs.Prelude.{◌≡◌};
ghost use Rattle.mp_streams.specs.Numbers.{number_from, spelled_number};

/// The greatest number of digits.
const MAX_DIGITS: usize = 20;

/// The number that a word of 1 to 20 decimal digits spells, if it is below 2^64.
#[tactic(auto, unfolding(crate::specs::Numbers::spelled_number))]
pub fn spelled_number(word: &[u8]) -> Option<u64>
    ensures { result ≡ spelled_number word.now }
{
    if word.is_empty() || word.len() > MAX_DIGITS {
        return None;
    }
    digits(word)
}

#[tactic(auto, using(crate::proofs::NumberLemmas::digit_steps))]
fn digits(word: &[u8]) -> Option<u64>
    ensures { result ≡ number_from 0 word.now }
{
    let mut value: u64 = 0;
    for byte in word {
        if !byte.is_ascii_digit() {
            return None;
        }
        let digit = u64::from(*byte - b'0');
        value = value.checked_mul(10)?.checked_add(digit)?;
    }
    Some(value)
}
