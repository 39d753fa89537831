//! Writes the explanation of a word.
ghost use Rattle.std.specs.Prelude.{◌≡◌, ◌∷◌, [], IfOk};
ghost use Rattle.std.specs.List.{flat_map};
ghost use Rattle.mp_streams.specs.Outgoing.{Writes};
ghost use Rattle.mp_request.specs.explain.Explanations.{explanation, is_known, title_line};
ghost use Rattle.mp_request.specs.explain.Subjects.{is_called};

use crate::explain::entry::Entry;
use mp_streams::{Failed, Out, Sink, Text};

/// Writes the titles of a guide, one on each line. `Failed` comes if the sink fails; then the sink has a beginning of what `out` held and of the
/// lines, and `out` holds nothing.
pub fn put_titles<S: Sink>(out: &mut Out<S>, guide: &[Entry]) -> Result<(), Failed>
    ensures { Writes result out.old out.new (flat_map title_line guide.now) }
{
    for entry in guide {
        (entry.subject, "\n").put_to(out)?;
    }
    Ok(())
}

/// Writes every entry of a guide that a word names, and returns whether there is one. `Failed` comes as in `put_titles`.
pub fn put_explanation<S: Sink>(
    out: &mut Out<S>,
    guide: &[Entry],
    word: &str,
) -> Result<bool, Failed>
    ensures text { Writes result out.old out.new (explanation word.now guide.now) }
    ensures known { IfOk result (λ known. known ≡ is_known word.now guide.now) }
{
    let mut is_known = false;
    for entry in guide {
        is_known |= put_if_meant(out, entry, word)?;
    }
    Ok(is_known)
}

/// Writes an entry if the word names it, and returns whether it does.
fn put_if_meant<S: Sink>(out: &mut Out<S>, entry: &Entry, word: &str) -> Result<bool, Failed>
    ensures text { Writes result out.old out.new (explanation word.now (entry.now ∷ [])) }
    ensures meant { IfOk result (λ meant. meant ≡ is_called word.now entry.now.subject) }
{
    if !entry.subject.is_called(word) {
        return Ok(false);
    }
    entry.put_to(out)?;
    Ok(true)
}
