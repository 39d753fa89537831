//! What can be explained.
ghost use Rattle.std.specs.Prelude.{◌≡◌, codes};
ghost use Rattle.mp_streams.specs.Outgoing.{Writes};
ghost use Rattle.mp_request.specs.explain.Subjects.{edit_name, is_called, is_one_of, title};

use crate::explain::check_word::CheckWord;
use crate::explain::seat_code::SeatCode;
use itoa::Buffer;
use mp_modules::{FindingCode, Kind};
use mp_records::EditError;
use mp_streams::{Failed, Out, Sink, Text};
use mp_text::TextCode;

/// What can be explained: a code or a word of the program's answers, a kind of module, or what `steady` writes.
#[derive(Clone, Copy, PartialEq, Eq)]
pub enum Topic {
    /// A fault of a netlist's text or of a line of a script.
    Text(TextCode),
    /// The reason why an edit is refused.
    Edit(EditError),
    /// The reason why a line is refused only at a seat.
    Seat(SeatCode),
    /// A finding at a module or a bundle.
    Finding(FindingCode),
    /// What `check` reports besides findings.
    Check(CheckWord),
    /// A kind of module.
    Kind(Kind),
    /// What `steady` writes.
    Steady,
}

impl Topic {
    /// Whether the word is its name, without regard to case, or the number of its code.
    pub fn is_called(self, word: &str) -> bool
        ensures { result ≡ is_called word.now self }
    {
        match self {
            Topic::Text(code) => is_one_of(word, code.number(), code.name()),
            Topic::Edit(error) => is_one_of(word, error.number(), edit_name(error)),
            Topic::Seat(code) => is_one_of(word, code.number(), code.name()),
            Topic::Finding(code) => is_one_of(word, code.number(), code.word()),
            Topic::Check(check) => word.eq_ignore_ascii_case(check.word()),
            Topic::Kind(kind) => word.eq_ignore_ascii_case(kind.word()),
            Topic::Steady => word.eq_ignore_ascii_case("steady"),
        }
    }
}

/// The title, such as `edit 1 NameTaken` or `kind C`.
impl Text for Topic {
    ghost text = { λ subject. title subject };

    fn put_to<S: Sink>(&self, out: &mut Out<S>) -> Result<(), Failed> {
        match self {
            Topic::Text(code) => put_text_title(out, *code),
            Topic::Edit(error) => put_edit_title(out, *error),
            Topic::Seat(code) => put_seat_title(out, *code),
            Topic::Finding(code) => put_finding_title(out, *code),
            Topic::Check(check) => ("check ", check.word()).put_to(out),
            Topic::Kind(kind) => ("kind ", kind.word()).put_to(out),
            Topic::Steady => out.put_text("command steady"),
        }
    }
}

/// Writes the title of a fault of a text.
fn put_text_title<S: Sink>(out: &mut Out<S>, code: TextCode) -> Result<(), Failed>
    ensures { Writes result out.old out.new (title (Topic.Text code)) }
{
    ("text ", code.number(), " ", code.name()).put_to(out)
}

/// Writes the title of a reason why an edit is refused.
fn put_edit_title<S: Sink>(out: &mut Out<S>, error: EditError) -> Result<(), Failed>
    ensures { Writes result out.old out.new (title (Topic.Edit error)) }
{
    ("edit ", error.number(), " ", edit_name(error)).put_to(out)
}

/// Writes the title of a reason why a line is refused at a seat.
fn put_seat_title<S: Sink>(out: &mut Out<S>, code: SeatCode) -> Result<(), Failed>
    ensures { Writes result out.old out.new (title (Topic.Seat code)) }
{
    ("seat ", code.number(), " ", code.name()).put_to(out)
}

/// Writes the title of a finding.
fn put_finding_title<S: Sink>(out: &mut Out<S>, code: FindingCode) -> Result<(), Failed>
    ensures { Writes result out.old out.new (title (Topic.Finding code)) }
{
    ("finding ", code.number(), " ", code.word()).put_to(out)
}

/// Whether the word is the number or the name.
fn is_one_of(word: &str, number: u32, name: &str) -> bool
    ensures { result ≡ is_one_of word.now number name.now }
{
    let mut digits = Buffer::new();
    word.eq_ignore_ascii_case(name) || word == digits.format(number)
}

fn edit_name(error: EditError) -> &'static str
    ensures { result.now ≡ edit_name error }
{
    EditError::name_of(error.number()).unwrap_or("")
}
