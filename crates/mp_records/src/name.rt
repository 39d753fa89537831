//! Names of wires, modules and bundles.
ghost use Rattle.std.specs.Prelude.{◌≡◌, ◌≤◌, IfOk, IsOk, length, string_bytes};
ghost use Rattle.std.specs.Arc.{arc_value};
ghost use Rattle.mp_records.specs.Names.{is_name, is_name_byte, begins_with_letter};
ghost use Rattle.std.specs.List.{list_all};
ghost use Rattle.std.specs.Cmp.{partial_equiv_from_equiv};
ghost use Rattle.std.specs.Cmp.Lexicographic.{nat_list_eq_equiv};
ghost use Rattle.std.specs.Cmp.Rules.{hashing};
ghost use Rattle.std.specs.Hash as fed;
ghost use Rattle.std.proofs.Common.{rules};

use arrayvec::ArrayString;
use std::alloc::{AllocError, Global};
use std::hash::{Hash, Hasher};
use std::marker::Model;
use std::sync::Arc;

/// The greatest length of a text that is kept in place. Few names are longer, and an edit gets larger with each byte.
const IN_PLACE: usize = 16;

/// A text that names something, or is meant to. A short one is kept in place, without a block of memory; clones share a long one.
#[derive(Drop)]
pub struct Name {
    text: Text,
}

/// How the text of a name is kept.
#[derive(Drop)]
enum Text {
    Short(ArrayString<IN_PLACE>),
    Long(Arc<String, Global>),
}

impl Model for Name {
    ghost use Rattle.std.specs.Prelude.{List, ℕ};

    ghost Value = { List ℕ };

    ghost use Rattle.mp_records.specs.NameTexts.{text_bytes};

    ghost view = { λ name. text_bytes name.text };
}

impl PartialEq for Name {
    ghost use Rattle.std.specs.Str.{bytes_eq};

    ghost eq = { bytes_eq };

    ghost laws = { partial_equiv_from_equiv nat_list_eq_equiv };

    fn eq(&self, other: &Self) -> bool {
        self.as_str() == other.as_str()
    }
}

impl Eq for Name {
    ghost laws = { nat_list_eq_equiv };
}

impl Hash for Name {
    ghost hash_input = { fed.str };

    ghost respects_eq = { Prim.search (hashing, rules) };

    fn hash<H: Hasher>(&self, state: &mut H) {
        self.as_str().hash(state);
    }
}

impl Clone for Name {
    ghost is_clone = { λ old new. new ≡ old };

    fn clone(&self) -> Result<Self, AllocError> {
        match &self.text {
            Text::Short(text) => Ok(short(*text)),
            Text::Long(text) => shared(text),
        }
    }
}

impl Name {
    /// The name with this text. `AllocError` comes if memory runs out, and never for a text of at most 16 bytes.
    pub fn new(alloc: Global, text: &str) -> Result<Self, AllocError>
        ensures value { IfOk result (λ name. name ≡ text.now) }
        ensures short { length text.now ≤ 16 → IsOk result }
    {
        match ArrayString::from(text) {
            Ok(text) => Ok(short(text)),
            Err(_) => long(alloc, text),
        }
    }

    pub fn as_str(&self) -> &str
        ensures { result.now ≡ self.now }
    {
        match &self.text {
            Text::Short(text) => text.as_str(),
            Text::Long(text) => text.as_str(),
        }
    }

    #[tactic(auto, unfolding(crate::specs::Names::is_name))]
    /// Whether the text is a letter, then letters, digits and `_`, at most 32 bytes in all.
    pub fn is_valid(&self) -> bool
        ensures { result ≡ is_name self.now }
    {
        let bytes = self.as_str().as_bytes();
        begins_with_letter(bytes) && bytes.len() <= 32 && all_name_bytes(bytes)
    }
}

/// A name whose text is kept in place.
fn short(text: ArrayString<IN_PLACE>) -> Name
    ensures { result ≡ text.bytes }
{
    Name {
        text: Text::Short(text),
    }
}

/// A name whose text is kept in a block of memory.
fn long(alloc: Global, text: &str) -> Result<Name, AllocError>
    ensures { IfOk result (λ name. name ≡ text.now) }
{
    let text = String::from_str(alloc, text)?;
    Ok(Name {
        text: Text::Long(Arc::new(alloc, text)?),
    })
}

/// A name that shares its text with others.
fn shared(text: &Arc<String, Global>) -> Result<Name, AllocError>
    ensures { IfOk result (λ name. name ≡ string_bytes (arc_value text.now)) }
{
    Ok(Name {
        text: Text::Long(Arc::try_clone(text)?),
    })
}

fn begins_with_letter(bytes: &[u8]) -> bool
    ensures { result ≡ begins_with_letter bytes.now }
{
    match bytes {
        [first, ..] => first.is_ascii_alphabetic(),
        [] => false,
    }
}

fn all_name_bytes(bytes: &[u8]) -> bool
    ensures { result ≡ list_all is_name_byte bytes.now }
{
    bytes
        .iter()
        .all(|byte| byte.is_ascii_alphanumeric() || *byte == b'_')
}
