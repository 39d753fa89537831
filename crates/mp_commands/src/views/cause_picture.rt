//! The picture of a netlist's waves with the causes of a level.
ghost use Rattle.std.specs.Prelude.{◌≡◌, IfOk, drop, map};
ghost use Rattle.mp_netlist.specs.Circuit.{wire_named};
ghost use Rattle.mp_commands.specs.views.CausePictures.{point_of, arrow_of, wire_arrows, arrows_of, cause_picture};

use crate::views::asked_picture::AskedPicture;
use crate::views::asked_wires::wires_of;
use crate::views::drawing::Drawing;
use crate::views::evaluated::Evaluated;
use crate::views::picture_text::columns_of;
use mp_netlist::Name;
use mp_picture::{Arrow, Numerals, Picture, WirePoint, put_svg};
use mp_questions::{CauseLink, Moment, WireChange, links};
use mp_report::report;
use mp_streams::{Out, Sink, WriteError};
use std::alloc::{AllocError, Global};
use std::thread::Threads;

/// The SVG of a picture that is asked for, with levels in these numerals and this title above the times. It has an arrow from each cause to its
/// effect in the chain that leads to a level at `time`, in units. The first wire that is asked for has that level. The others are shown, or all wires
/// if there are no others.
#[derive(Clone, Copy)]
pub struct CausePicture<'a> {
    pub asked: AskedPicture<'a>,
    pub time: u64,
    pub title: &'a str,
    pub numerals: Numerals,
}

impl<'a> CausePicture<'a> {
    ghost use Rattle.mp_streams.specs.WriteErrors.{Writes};

    /// Writes its text.
    pub(crate) fn put<R: Threads + Sync, T: Sink>(
        &self,
        rt: &R,
        alloc: Global,
        out: &mut Out<T>,
        of: &Evaluated<'_>,
    ) -> Result<(), WriteError>
        ensures { Writes result out.old out.new (cause_picture of.now.netlist.now self.now.asked.wires.now self.now.time self.now.asked.from self.now.asked.to self.now.asked.columns self.now.title.now self.now.numerals) }
    {
        let findings = report(rt, alloc, of.netlist, of.waves, of.threads())?;
        let wires = wires_of(alloc, of.netlist, shown(self.asked.wires))?;
        let arrows = arrows_of(alloc, of, self.asked.wires, self.time)?;
        let picture = Picture {
            netlist: of.netlist,
            waves: of.waves,
            findings: findings.as_slice(),
            wires: wires.as_slice(),
            columns: columns_of(of.netlist, &self.asked, Drawing::Svg(self.title)),
            numerals: self.numerals,
        };
        put_svg(alloc, out, &picture, self.title, arrows.as_slice())
    }
}

/// The names behind the first.
fn shown(names: &[Name]) -> &[Name]
    ensures { result.now ≡ drop 1 names.now }
{
    match names.split_first() {
        Some((_first, others)) => others,
        None => names,
    }
}

/// The arrows of the chain of causes of the level that the first of these wires has at a time; none if it doesn't exist.
fn arrows_of(
    alloc: Global,
    of: &Evaluated<'_>,
    names: &[Name],
    time: u64,
) -> Result<Vec<Arrow>, AllocError>
    ensures { IfOk result (λ arrows. arrows.items ≡ arrows_of of.now.netlist.now time names.now) }
{
    match names.first() {
        Some(name) => wire_arrows(alloc, of, name, time),
        None => Ok(Vec::new(alloc)),
    }
}

fn wire_arrows(
    alloc: Global,
    of: &Evaluated<'_>,
    name: &Name,
    time: u64,
) -> Result<Vec<Arrow>, AllocError>
    ensures { IfOk result (λ arrows. arrows.items ≡ wire_arrows of.now.netlist.now time (wire_named of.now.netlist.now name.now)) }
{
    let Some(wire) = of.netlist.wire_named(name.as_str()) else {
        return Ok(Vec::new(alloc));
    };
    let links = links(alloc, of.netlist, of.waves, Moment { wire, time })?;
    arrows_along(alloc, links.as_slice())
}

fn arrows_along(alloc: Global, links: &[CauseLink]) -> Result<Vec<Arrow>, AllocError>
    ensures { IfOk result (λ arrows. arrows.items ≡ map arrow_of links.now) }
{
    links.iter().map(|link| arrow_of(*link)).collect(alloc)
}

fn arrow_of(link: CauseLink) -> Arrow
    ensures { result ≡ arrow_of link }
{
    Arrow {
        from: point_of(link.cause),
        to: point_of(link.effect),
    }
}

fn point_of(change: WireChange) -> WirePoint
    ensures { result ≡ point_of change }
{
    WirePoint {
        wire: change.wire,
        time: change.time,
    }
}
