//! The rows of modules and bundles with findings, and the marks in them.
ghost use Rattle.std.specs.Prelude.{◌≡◌, ◌+◌, ◌<◌, ◌≤◌, ◌^◌, All, IsTrue, length};
ghost use Rattle.std.specs.List.{flat_map, enumerate_from};
ghost use Rattle.mp_streams.specs.Outgoing.{Writes};
ghost use Rattle.mp_model.specs.declared.finding.Finding.{Finding as Found};
ghost use Rattle.mp_picture.specs.Found.{is_within};
ghost use Rattle.mp_picture.specs.svg.FoundGroups.{place_kind, place_number, mark_group, mark_groups, words_end, word_end, mark, finding_group, finding_groups};

use crate::place_name;
use crate::svg::elements::Label;
use crate::svg::frame::Frame;
use crate::svg::lane::Lane;
use crate::svg::mark_rows::{MarkRow, MarkRows};
use mp_model::{Finding, Place};
use mp_netlist::Netlist;
use mp_report::FindingText;
use mp_streams::{Failed, Out, Sink, Text};

/// Writes the rows of what is found, the first of them in this row.
pub(crate) fn put_mark_rows<S: Sink>(
    out: &mut Out<S>,
    netlist: &Netlist,
    frame: Frame,
    first: u32,
    rows: &[MarkRow],
) -> Result<(), Failed>
    requires { first + length rows.now < 2 ^ 32 }
    ensures { Writes result out.old out.new (mark_groups netlist.now frame first rows.now) }
{
    for (index, &row) in rows.iter().enumerate() {
        let lane = frame.lane(first + index as u32);
        put_mark_row(out, netlist, lane, row)?;
    }
    Ok(())
}

/// Writes the row of a code that is found at a place: the place's name, and the word of the code behind its last mark.
fn put_mark_row<S: Sink>(
    out: &mut Out<S>,
    netlist: &Netlist,
    lane: Lane,
    row: MarkRow,
) -> Result<(), Failed>
    ensures { Writes result out.old out.new (mark_group netlist.now lane row) }
{
    let (word, y) = (row.code.word(), lane.base());
    let number = (place_number(row.place), "-", word);
    let id = (" id=\"", (place_kind(row.place), "-", number), "\"");
    let text = place_name(netlist, row.place);
    let title = ("<title>", text, "</title>");
    let name = Label { x: 8, y, text };
    let x = lane.end(row.last) + 4;
    let behind = ("<g class=\"word\">", Label { x, y, text: word }, "</g>");
    let rest = (title, name, (behind, "</g>\n"));
    ("<g class=\"place\"", id, ">", rest).put_to(out)
}

fn place_kind(place: Place) -> &'static str
    ensures { result.now ≡ place_kind place }
{
    match place {
        Place::Module(_) => "module",
        Place::Bundle(_) => "bundle",
    }
}

fn place_number(place: Place) -> u32
    ensures { result ≡ place_number place }
{
    match place {
        Place::Module(id) => id.0,
        Place::Bundle(id) => id.0,
    }
}

/// The right end of the words of rows, 0 if there is none.
pub(crate) fn words_end(frame: Frame, rows: &[MarkRow]) -> u64
    ensures value { result ≡ words_end frame rows.now }
    ensures low { result < 2 ^ 63 }
{
    let mut end = 0;
    for &row in rows {
        end = word_end(frame, row).max(end);
    }
    end
}

/// The right end of the word of a row.
#[tactic(auto, using(crate::proofs::lemmas::svg::WordLemmas::word_short))]
fn word_end(frame: Frame, row: MarkRow) -> u64
    ensures value { result ≡ word_end frame row }
    ensures low { result < 2 ^ 63 }
{
    let letters = row.code.word().len() as u64;
    frame.x(row.last) + 12 + 8 * letters
}

/// Writes a mark for each finding, in its row; the first of the rows has this number.
pub(crate) fn put_findings<S: Sink>(
    out: &mut Out<S>,
    netlist: &Netlist,
    frame: Frame,
    first: u32,
    rows: &MarkRows,
    found: &[Finding],
) -> Result<(), Failed>
    requires few { first + length rows.now < 2 ^ 32 }
    requires within { All (λ (f : Found). IsTrue (is_within frame.columns f)) found.now }
    ensures { Writes result out.old out.new (finding_groups netlist.now frame first rows.now found.now) }
{
    for &finding in found {
        let lane = frame.lane(first + rows.row_of(finding));
        put_finding(out, netlist, frame, lane, finding)?;
    }
    Ok(())
}

/// Writes the mark of a finding in a row, with the report's line as its title.
fn put_finding<S: Sink>(
    out: &mut Out<S>,
    netlist: &Netlist,
    frame: Frame,
    lane: Lane,
    finding: Finding,
) -> Result<(), Failed>
    requires { IsTrue (is_within frame.columns finding) }
    ensures { Writes result out.old out.new (finding_group netlist.now frame lane finding) }
{
    let column = frame.columns.column_of(finding.time);
    let text = FindingText {
        netlist,
        finding,
        end: "",
    };
    let title = ("<title>", text, "</title>");
    let number = (" data-column=\"", column, "\"");
    let start = "<g class=\"finding\"";
    let mark = FindingMark { lane, column };
    (start, number, ">", (title, mark, "</g>\n")).put_to(out)
}

/// The mark of a finding in a column: a rhomb as wide as it.
#[derive(Clone, Copy)]
struct FindingMark {
    lane: Lane,
    column: u32,
}

impl Text for FindingMark {
    ghost use Rattle.mp_picture.specs.svg.FoundGroups.{mark};

    ghost text = { λ shape. mark shape.lane shape.column };

    fn put_to<S: Sink>(&self, out: &mut Out<S>) -> Result<(), Failed> {
        let FindingMark { lane, column } = *self;
        let (x, end) = (lane.begin(column), lane.end(column));
        let (high, middle, low) = (lane.below_top(2), lane.below_top(8), lane.below_top(14));
        let left = ("<path d=\"M", x, " ", middle);
        let above = ("L", x + 4, " ", high);
        let right = ("L", end, " ", middle);
        let below = ("L", x + 4, " ", low);
        (left, above, right, (below, "Z\"/>")).put_to(out)
    }
}
