//! Names, as Verilog has them.
ghost use Rattle.std.specs.Prelude.{◌≡◌};
ghost use Rattle.std.specs.List.{list_any};
ghost use Rattle.std.specs.Str.{bytes_eq};
ghost use Rattle.mp_exports.specs.verilog.Names.{is_one_of, is_reserved, verilog_words, system_words, iverilog_words};

use crate::verilog::system_words::SYSTEM_VERILOG;
use crate::verilog::verilog_words::VERILOG;
use mp_streams::{Failed, Out, Sink, Text};

/// The reserved words that `iverilog` has besides.
const IVERILOG: [&str; 3] = ["bool", "wone", "wreal"];

/// Whether the name is one of the words.
fn is_among(words: &[&str], name: &str) -> bool
    ensures { result ≡ list_any (λ word. bytes_eq word.now name.now) words.now }
{
    words.iter().any(|word| *word == name)
}

#[tactic(auto, unfolding(crate::specs::verilog::Names::verilog_words))]
fn is_in_verilog(name: &str) -> bool
    ensures { result ≡ is_one_of name.now verilog_words }
{
    is_among(&VERILOG, name)
}

#[tactic(auto, unfolding(crate::specs::verilog::Names::system_words))]
fn is_in_system_verilog(name: &str) -> bool
    ensures { result ≡ is_one_of name.now system_words }
{
    is_among(&SYSTEM_VERILOG, name)
}

#[tactic(auto, unfolding(crate::specs::verilog::Names::iverilog_words))]
fn is_in_iverilog(name: &str) -> bool
    ensures { result ≡ is_one_of name.now iverilog_words }
{
    is_among(&IVERILOG, name)
}

#[tactic(auto, unfolding(crate::specs::verilog::Names::is_reserved))]
/// Whether the name is a reserved word.
fn is_reserved(name: &str) -> bool
    ensures { result ≡ is_reserved name.now }
{
    is_in_verilog(name) || is_in_system_verilog(name) || is_in_iverilog(name)
}

/// A name; a reserved word is written between a backslash and a space.
#[derive(Clone, Copy)]
pub(crate) struct Identifier<'a> {
    pub(crate) name: &'a str,
}

impl<'a> Text for Identifier<'a> {
    ghost use Rattle.mp_exports.specs.verilog.Names.{identifier};

    ghost text = { λ word. identifier word.name.now };

    fn put_to<S: Sink>(&self, out: &mut Out<S>) -> Result<(), Failed> {
        if is_reserved(self.name) {
            return ("\\", self.name, " ").put_to(out);
        }
        out.put_text(self.name)
    }
}
