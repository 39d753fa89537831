//! The picture of a netlist's waves.
ghost use Rattle.std.specs.Prelude.{◌≡◌, ◌≤◌, ◌^◌, ◌-◌, IfOk, min};
ghost use Rattle.mp_picture.specs.ColumnRanges.{columns_in};
ghost use Rattle.mp_commands.specs.views.Pictures.{columns_drawn, found_for, picture_text};

use crate::views::asked_picture::AskedPicture;
use crate::views::asked_wires::wires_of;
use crate::views::drawing::Drawing;
use crate::views::evaluated::Evaluated;
use mp_model::Finding;
use mp_netlist::Netlist;
use mp_picture::{Columns, Numerals, Picture, put_diagram, put_svg, put_wave_json};
use mp_report::report;
use mp_streams::{Out, Sink, WriteError};
use std::alloc::{AllocError, Global};
use std::thread::Threads;

/// A picture that is asked for, drawn in some way, with levels in these numerals.
#[derive(Clone, Copy)]
pub struct PictureText<'a> {
    pub asked: AskedPicture<'a>,
    pub drawing: Drawing<'a>,
    pub numerals: Numerals,
}

impl<'a> PictureText<'a> {
    ghost use Rattle.mp_streams.specs.WriteErrors.{Writes};

    /// Writes its text.
    pub(crate) fn put<R: Threads + Sync, T: Sink>(
        &self,
        rt: &R,
        alloc: Global,
        out: &mut Out<T>,
        of: &Evaluated<'_>,
    ) -> Result<(), WriteError>
        ensures { Writes result out.old out.new (picture_text of.now.netlist.now self.now.asked.wires.now self.now.asked.from self.now.asked.to self.now.asked.columns self.now.drawing self.now.numerals) }
    {
        let findings = found_for(rt, alloc, of, self.drawing)?;
        let wires = wires_of(alloc, of.netlist, self.asked.wires)?;
        let picture = Picture {
            netlist: of.netlist,
            waves: of.waves,
            findings: findings.as_slice(),
            wires: wires.as_slice(),
            columns: columns_of(of.netlist, &self.asked, self.drawing),
            numerals: self.numerals,
        };
        match self.drawing {
            Drawing::Text(charset) => put_diagram(alloc, out, &picture, charset),
            Drawing::Svg(title) => put_svg(alloc, out, &picture, title, &[]),
            Drawing::Json => put_wave_json(alloc, out, &picture),
        }
    }
}

/// What the report finds, if a picture that is drawn so has it.
fn found_for<R: Threads + Sync>(
    rt: &R,
    alloc: Global,
    of: &Evaluated<'_>,
    drawing: Drawing<'_>,
) -> Result<Vec<Finding>, AllocError>
    ensures { IfOk result (λ list. list.items ≡ found_for drawing.entry of.now.netlist.now) }
{
    match drawing {
        Drawing::Text(_) | Drawing::Svg(_) => {
            report(rt, alloc, of.netlist, of.waves, of.threads())
        }
        Drawing::Json => Ok(Vec::new(alloc)),
    }
}

/// The columns of a picture that is asked for of a netlist, drawn in some way.
pub(crate) fn columns_of(
    netlist: &Netlist,
    asked: &AskedPicture<'_>,
    drawing: Drawing<'_>,
) -> Columns
    ensures value { result ≡ columns_in netlist.now.horizon asked.now.from asked.now.to (columns_drawn drawing.entry asked.now.columns) }
    ensures within { result.to ≤ netlist.now.horizon }
{
    let horizon = netlist.horizon();
    let most = drawing.columns(asked.columns);
    Columns::new(horizon, clipped(asked.from), clipped(asked.to), most)
}

/// A time, or the greatest of 32 bits, which is above each horizon.
fn clipped(time: u64) -> u32
    ensures { result ≡ min time (2 ^ 32 - 1) }
{
    u32::try_from(time).unwrap_or(u32::MAX)
}
