//! What a question asks for.
ghost use Rattle.std.specs.Prelude.{◌≡◌, []};
ghost use Rattle.mp_commands.specs.declared.views.drawing.Drawing.TheVariants.{Text};
ghost use Rattle.mp_commands.specs.answers.Answers.{answer_text, asked_answer, charset_of, numerals_of};

use crate::views::{
    AskedPicture, CheckAsked, Drawing, MeasureLines, PathLines, PictureText, Selection, View,
    WhyLines,
};
use mp_exports::Timescale;
use mp_netlist::Name;
use mp_picture::{Charset, Numerals};
use mp_questions::TimeRange;
use mp_text::{PictureOptions, Question, WireNames};

/// What a question asks for: a view, or a text that is none.
#[derive(Clone, Copy)]
pub(crate) enum AskedAnswer<'a> {
    View(View<'a>),
    /// The line of the wire of this name.
    Wire(&'a Name),
    /// The netlist's text.
    Netlist,
    /// What was computed again for the last edit.
    Work,
    /// The number of accepted edits.
    Version,
    /// The accepted edits from this number on.
    Edits { from: u64 },
}

impl<'a> AskedAnswer<'a> {
    /// What this question asks for.
    pub(crate) fn of_question(question: &'a Question) -> AskedAnswer<'a>
        ensures { asked_answer result ≡ (λ kept. answer_text kept question.now) }
    {
        match question {
            Question::Wave(name) => AskedAnswer::Wire(name),
            Question::Text => AskedAnswer::Netlist,
            Question::Work => AskedAnswer::Work,
            Question::Version => AskedAnswer::Version,
            Question::Edits { from } => AskedAnswer::Edits { from: *from },
            Question::Waves => AskedAnswer::View(View::Waves),
            Question::Report { from, to } => AskedAnswer::View(View::Report(all_in(*from, *to))),
            Question::Check { is_brief, from, to } => {
                AskedAnswer::View(View::Check(checked(*is_brief, *from, *to)))
            }
            Question::Steady => AskedAnswer::View(View::Steady),
            Question::Dump => AskedAnswer::View(View::Dump(Timescale::nanosecond())),
            Question::Graph => AskedAnswer::View(View::Graph),
            Question::Verilog => AskedAnswer::View(View::Verilog),
            Question::Show {
                from,
                to,
                wires,
                options,
            } => AskedAnswer::View(View::Picture(shown(*from, *to, wires, options))),
            Question::Waits { time } => AskedAnswer::View(View::Waits { time: *time }),
            Question::Measure { from, to, wires } => {
                AskedAnswer::View(View::Measure(measured(*from, *to, wires)))
            }
            Question::Why { wire, time, steps } => AskedAnswer::View(View::Why(WhyLines {
                wire,
                time: *time,
                steps: *steps,
            })),
            Question::Path { wire, time, from } => AskedAnswer::View(View::Path(PathLines {
                wire,
                time: *time,
                from: *from,
            })),
        }
    }
}

/// All modules and bundles at the times from one to before another.
fn all_in<'a>(from: u64, to: u64) -> Selection<'a>
    ensures range { (result.range.from ≡ from) × (result.range.to ≡ to) }
    ensures names { result.names.now ≡ [] }
{
    Selection {
        range: TimeRange { from, to },
        names: &[],
    }
}

/// The check that a script asks for.
fn checked<'a>(is_brief: bool, from: u64, to: u64) -> CheckAsked<'a>
    ensures range { (result.selection.range.from ≡ from) × (result.selection.range.to ≡ to) }
    ensures names { result.selection.names.now ≡ [] }
    ensures brief { result.is_brief ≡ is_brief }
{
    CheckAsked {
        selection: all_in(from, to),
        is_brief,
    }
}

/// The measures that a script asks for.
fn measured(from: u64, to: u64, wires: &WireNames) -> MeasureLines<'_>
    ensures range { (result.range.from ≡ from) × (result.range.to ≡ to) }
    ensures wires { result.wires.now ≡ wires.now }
{
    MeasureLines {
        range: TimeRange { from, to },
        wires: wires.as_slice(),
    }
}

/// The picture that a script asks for.
fn shown<'a>(from: u64, to: u64, wires: &'a WireNames, options: &PictureOptions) -> PictureText<'a>
    ensures wires { result.asked.wires.now ≡ wires.now }
    ensures range { (result.asked.from ≡ from) × (result.asked.to ≡ to) }
    ensures columns { result.asked.columns ≡ options.now.columns }
    ensures drawing { result.drawing ≡ Text (charset_of options.now) }
    ensures numerals { result.numerals ≡ numerals_of options.now }
{
    PictureText {
        asked: AskedPicture {
            wires: wires.as_slice(),
            from,
            to,
            columns: options.columns,
        },
        drawing: Drawing::Text(charset_of(options)),
        numerals: numerals_of(options),
    }
}

fn charset_of(options: &PictureOptions) -> Charset
    ensures { result ≡ charset_of options.now }
{
    if options.is_ascii {
        Charset::Ascii
    } else {
        Charset::Unicode
    }
}

fn numerals_of(options: &PictureOptions) -> Numerals
    ensures { result ≡ numerals_of options.now }
{
    if options.is_hex {
        Numerals::Hex
    } else {
        Numerals::Decimal
    }
}
