//! The view that a command writes.
ghost use Rattle.std.specs.Prelude.{◌≡◌, ◌&&◌, [], IfSome, is_some, nat_le};
ghost use Rattle.mp_commands.specs.answers.Names.{selected};
ghost use Rattle.mp_commands.specs.views.Views.{view_places, view_text, view_wires};
ghost use Rattle.mp_text.specs.Limits.{max_columns};
ghost use Rattle.mpwb.specs.CommandTexts.{drawing_of, has_valid_numbers, names_in, numerals_of, picture_of, places_in, selection_of, text_of, wires_in};

use mp_commands::{
    AskedPicture, CausePicture, Charset, Drawing, MeasureLines, Numerals, PathLines, PictureText,
    Selection, TimeRange, View, WhyLines,
};
use mp_netlist::Name;
use mp_request::{Command, PictureWords, RangeWords};

/// The view that a command writes and nothing else, if the wires, or the modules and bundles, of which the command speaks have these names. There is one exactly if the numbers of
/// the command are in their ranges; for other commands there is none.
pub(crate) fn view_of<'a>(command: &Command<'a>, names: &'a [Name]) -> Option<View<'a>>
    requires { names.now ≡ names_in command.now }
    ensures valid { IfSome (text_of command.now) (λ text. is_some result ≡ has_valid_numbers command.now) }
    ensures text { IfSome result (λ view. IfSome (text_of command.now) (λ text. view_text view ≡ text)) }
    ensures wires { IfSome result (λ view. view_wires view ≡ wires_in command.now) }
    ensures places { IfSome result (λ view. view_places view ≡ places_in command.now) }
{
    match command {
        Command::Waves => Some(View::Waves),
        Command::Report(words) => Some(View::Report(selection_of(names, words))),
        Command::Steady => Some(View::Steady),
        Command::Dump(timescale) => Some(View::Dump(*timescale)),
        Command::Graph => Some(View::Graph),
        Command::Verilog => Some(View::Verilog),
        Command::Waits { time } => Some(View::Waits { time: *time }),
        Command::Measure(words) => Some(View::Measure(measured(names, words))),
        Command::Show(words) => shown(names, words),
        Command::Why { time, steps, .. } => {
            Some(View::Why(WhyLines::new(names.first()?, *time, *steps)?))
        }
        Command::Path { time, from, .. } => {
            Some(View::Path(PathLines::new(names.first()?, *time, *from)?))
        }
        Command::Check { .. } | Command::Play | Command::Desk | Command::LiveDesk { .. } => None,
    }
}

/// The modules and bundles of these names, or all, in the range of the words.
pub(crate) fn selection_of<'a>(names: &'a [Name], words: &RangeWords<'_>) -> Selection<'a>
    ensures { selected result ≡ selection_of words.now names.now }
{
    Selection {
        range: range_of(words),
        names,
    }
}

/// The measures of the wires of these names, or of all, in the range of the words.
fn measured<'a>(names: &'a [Name], words: &RangeWords<'_>) -> MeasureLines<'a>
    ensures range { (result.range.from ≡ words.now.from) × (result.range.to ≡ words.now.to) }
    ensures wires { result.wires.now ≡ names.now }
{
    MeasureLines {
        range: range_of(words),
        wires: names,
    }
}

fn range_of(words: &RangeWords<'_>) -> TimeRange
    ensures { (result.from ≡ words.now.from) × (result.to ≡ words.now.to) }
{
    TimeRange {
        from: words.from,
        to: words.to,
    }
}

/// The picture of the wires of these names that the words ask for, if its number of columns is in its range. If causes are asked for, the first wire has
/// the level that they lead to, and the others are shown.
fn shown<'a>(names: &'a [Name], words: &PictureWords<'a>) -> Option<View<'a>>
    ensures valid { is_some result ≡ (nat_le 1 words.now.columns && nat_le words.now.columns max_columns) }
    ensures text { IfSome result (λ view. view_text view ≡ picture_of words.now names.now words.now.causes) }
    ensures wires { IfSome result (λ view. view_wires view ≡ names.now) }
    ensures places { IfSome result (λ view. view_places view ≡ []) }
{
    let asked = AskedPicture::new(names, words.from, words.to, words.columns)?;
    let numerals = numerals_of(words);
    Some(match words.causes {
        None => View::Picture(PictureText {
            asked,
            drawing: drawing_of(words),
            numerals,
        }),
        Some(time) => View::CausePicture(CausePicture {
            asked,
            time,
            title: words.unit,
            numerals,
        }),
    })
}

fn drawing_of<'a>(words: &PictureWords<'a>) -> Drawing<'a>
    ensures { result ≡ drawing_of words.now }
{
    if words.json {
        return Drawing::Json;
    }
    match (words.svg, words.ascii) {
        (true, _) => Drawing::Svg(words.unit),
        (false, true) => Drawing::Text(Charset::Ascii),
        (false, false) => Drawing::Text(Charset::Unicode),
    }
}

fn numerals_of(words: &PictureWords<'_>) -> Numerals
    ensures { result ≡ numerals_of words.now }
{
    if words.hex {
        Numerals::Hex
    } else {
        Numerals::Decimal
    }
}
