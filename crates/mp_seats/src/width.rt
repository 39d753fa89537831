//! How long a line is as the journal writes it.
ghost use Rattle.std.specs.Prelude.{◌≡◌, ◌<◌, ◌≤◌, MatchBool};
ghost use Rattle.mp_seats.specs.Widths.{bytes_of, is_bare, written_length};

use mp_text::LINE_BYTES;

/// The bytes of `-` once it is written `-/1`.
const BARE_BYTES: usize = 3;

/// Whether a line has more than 65,536 bytes once each `-` in it is written `-/1`, as the journal writes it.
pub(crate) fn is_wide(line: &[u8]) -> bool
    ensures { MatchBool result (65536 < written_length line.now) (written_length line.now ≤ 65536) }
{
    let mut room = LINE_BYTES;
    let mut rest = line;
    while let Some((first, others)) = rest.split_first() {
        let bytes = bytes_of(*first, others);
        if bytes > room {
            return true;
        }
        room -= bytes;
        rest = others;
    }
    false
}

/// How many bytes a byte takes before these.
fn bytes_of(byte: u8, rest: &[u8]) -> usize
    ensures { result ≡ bytes_of byte rest.now }
{
    if is_bare(byte, rest) { BARE_BYTES } else { 1 }
}

/// Whether a byte is a `-` that no `/` follows.
fn is_bare(byte: u8, rest: &[u8]) -> bool
    ensures { result ≡ is_bare byte rest.now }
{
    byte == b'-' && rest.first() != Some(&b'/')
}
