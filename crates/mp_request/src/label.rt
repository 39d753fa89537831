//! The label of the times in an SVG.
ghost use Rattle.std.specs.Prelude.{◌≡◌};
ghost use Rattle.mp_request.specs.Labels.{is_shown, is_label};

/// Whether an SVG shows a character. It shows no control character, and XML 1.0 has no place for U+FFFE and U+FFFF.
fn is_shown(character: char) -> bool
    ensures { result ≡ is_shown character }
{
    match character {
        '\0'..='\x1f' | '\x7f'..='\u{9f}' | '\u{fffe}' | '\u{ffff}' => false,
        _ => true,
    }
}

/// Whether an SVG shows all characters of a text.
pub(crate) fn is_label(text: &str) -> bool
    ensures { result ≡ is_label text.now }
{
    text.chars().all(is_shown)
}
