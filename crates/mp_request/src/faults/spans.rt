//! The places of words in a line.
ghost use Rattle.std.specs.Prelude.{◌≡◌, ◌≤◌, ◌<◌, ◌+◌, ◌==◌, length, not, position, IfSome};
ghost use Rattle.std.specs.List.{before_first, position_or_len};
ghost use Rattle.mp_text.specs.Names.{is_gap, is_allowed, statement_part};
ghost use Rattle.mp_request.specs.faults.Spans.{gap_count, word_end, span_from, bad_byte, bad_span};

/// The word at index `count`: the index of its first byte, and the index after its last. If there are fewer words, the byte after the last one.
#[tactic(auto, using(crate::proofs::lemmas::faults::StepLemmas::span_steps))]
pub(crate) fn span_of(bytes: &[u8], count: usize) -> (usize, usize)
    ensures { result ≡ span_from count 0 bytes.now }
{
    let mut left = count;
    let mut at = 0;
    let mut rest = bytes;
    loop {
        let gaps = gap_count(rest);
        if gaps == rest.len() {
            return (at, at + 1);
        }
        let end = word_end(rest);
        if left == 0 {
            return (at + gaps, at + end);
        }
        left -= 1;
        at += end;
        rest = &rest[end..];
    }
}

/// The number of gaps before the first word.
fn gap_count(bytes: &[u8]) -> usize
    ensures value { result ≡ gap_count bytes.now }
    ensures within { result ≤ length bytes.now }
{
    for (place, byte) in bytes.iter().enumerate() {
        if !is_gap(*byte) {
            return place;
        }
    }
    bytes.len()
}

/// The index after the first word.
fn word_end(bytes: &[u8]) -> usize
    ensures value { result ≡ word_end bytes.now }
    ensures within { result ≤ length bytes.now }
{
    let gaps = gap_count(bytes);
    gaps + first_gap(&bytes[gaps..])
}

/// The number of bytes before the first gap.
fn first_gap(bytes: &[u8]) -> usize
    ensures value { result ≡ position_or_len is_gap bytes.now }
    ensures within { result ≤ length bytes.now }
{
    for (place, byte) in bytes.iter().enumerate() {
        if is_gap(*byte) {
            return place;
        }
    }
    bytes.len()
}

/// Whether the byte separates words.
pub(crate) fn is_gap(byte: u8) -> bool
    ensures { result ≡ is_gap byte }
{
    matches!(byte, b' ' | b'\t' | b'\r')
}

/// The first run of bytes that aren't allowed: the index of its first byte, and the index after its last.
pub(crate) fn bad_span(line: &[u8]) -> (usize, usize)
    ensures { result ≡ bad_span line.now }
{
    let from = bad_byte(line);
    (from, from + allowed_byte(&line[from..]))
}

/// The index of the first byte that isn't allowed, or the length.
fn bad_byte(line: &[u8]) -> usize
    ensures value { result ≡ bad_byte line.now }
    ensures within { result ≤ length line.now }
{
    for (place, byte) in line.iter().enumerate() {
        if !is_allowed(*byte) {
            return place;
        }
    }
    line.len()
}

/// The number of bytes before the first that is allowed.
fn allowed_byte(line: &[u8]) -> usize
    ensures value { result ≡ position_or_len is_allowed line.now }
    ensures within { result ≤ length line.now }
{
    for (place, byte) in line.iter().enumerate() {
        if is_allowed(*byte) {
            return place;
        }
    }
    line.len()
}

/// Whether a line may have the byte.
pub(crate) fn is_allowed(byte: u8) -> bool
    ensures { result ≡ is_allowed byte }
{
    matches!(byte, b'\t' | b'\r' | 32..=126)
}

/// The line without its comment.
pub(crate) fn statement_part(line: &[u8]) -> &[u8]
    ensures { result.now ≡ statement_part line.now }
{
    before_byte(b'#', line)
}

/// The bytes before the first such byte, or all if there is none.
pub(crate) fn before_byte(byte: u8, bytes: &[u8]) -> &[u8]
    ensures { result.now ≡ before_first (λ b. b == byte) bytes.now }
{
    match place_of(byte, bytes) {
        Some(at) => &bytes[..at],
        None => bytes,
    }
}

/// The index of the first such byte.
fn place_of(byte: u8, bytes: &[u8]) -> Option<usize>
    ensures place { result ≡ position (λ b. b == byte) bytes.now }
    ensures within { IfSome result (λ at. at < length bytes.now) }
{
    bytes.iter().position(|b| *b == byte)
}
