//! Texts over a netlist and its waves.
ghost use Rattle.std.specs.Prelude.{◌≡◌};
ghost use Rattle.mp_streams.specs.WriteErrors.{Writes};
ghost use Rattle.mp_commands.specs.views.AskedWires.{missing_at};
ghost use Rattle.mp_check.specs.Selections.{missing_place};
ghost use Rattle.mp_commands.specs.views.Views.{view_places, view_text, view_wires};

use crate::views::asked_wires::{missing_at, missing_wire};
use crate::views::cause_picture::CausePicture;
use crate::views::check_lines::put_check_lines;
use crate::views::evaluated::Evaluated;
use crate::views::measure_lines::MeasureLines;
use crate::views::path_lines::PathLines;
use crate::views::picture_text::PictureText;
use crate::views::report_lines::put_report_lines;
use crate::views::steady_lines::put_steady_lines;
use crate::views::wave_lines::put_wave_lines;
use crate::views::why_lines::WhyLines;
use mp_check::{CheckAsked, Selection, missing_place};
use mp_exports::{DumpOptions, Timescale, put_dump, put_verilog};
use mp_netlist::Netlist;
use mp_picture::put_graph;
use mp_questions::put_waits;
use mp_streams::{Out, Sink, WriteError};
use std::alloc::Global;
use std::thread::Threads;

/// A text over a netlist and its waves, which a command writes and a question asks for. Times are in units from 0, and may be at or above the horizon.
#[derive(Clone, Copy)]
pub enum View<'a> {
    /// A line for each wire, by number.
    Waves,
    /// A line for each finding that is selected, by time.
    Report(Selection<'a>),
    /// What is asked for of findings, late data, deadlocks, and notes.
    Check(CheckAsked<'a>),
    /// Whether the netlist repeats for ever, and how fast.
    Steady,
    /// The value change dump, with a unit of time of this length.
    Dump(Timescale),
    /// The netlist as a graph, for `dot`.
    Graph,
    /// The netlist as Verilog, with a test bench.
    Verilog,
    /// A timing diagram.
    Picture(PictureText<'a>),
    /// A timing diagram with the causes of a level as arrows.
    CausePicture(CausePicture<'a>),
    /// Why a wire has its level at a time.
    Why(WhyLines<'a>),
    /// Where the time of that chain of causes went, from a time on.
    Path(PathLines<'a>),
    /// Which modules and bundles wait at a time.
    Waits { time: u64 },
    /// The events and gaps of wires, and the margins and late data of bundles.
    Measure(MeasureLines<'a>),
}

impl<'a> View<'a> {
    /// The place, counted from 0, of the first of its wires that doesn't exist in a netlist; `None` if all exist.
    pub fn missing(&self, netlist: &Netlist) -> Option<usize>
        ensures { result ≡ missing_at netlist.now (view_wires self.now) }
    {
        match self {
            View::Picture(picture) => missing_at(netlist, picture.asked.wires),
            View::CausePicture(picture) => missing_at(netlist, picture.asked.wires),
            View::Why(lines) => missing_wire(netlist, lines.wire),
            View::Path(lines) => missing_wire(netlist, lines.wire),
            View::Measure(lines) => missing_at(netlist, lines.wires),
            View::Waves | View::Report(_) | View::Check(_) | View::Steady | View::Dump(_) => None,
            View::Graph | View::Verilog | View::Waits { .. } => None,
        }
    }

    /// The place, counted from 0, of the first of the names to which it is restricted that neither a module nor a bundle has; `None` if each is the
    /// name of one.
    pub fn missing_place(&self, netlist: &Netlist) -> Option<usize>
        ensures { result ≡ missing_place netlist.now (view_places self.now) }
    {
        match self {
            View::Report(selection) => missing_place(netlist, selection.names),
            View::Check(asked) => missing_place(netlist, asked.selection.names),
            View::Waves | View::Steady | View::Dump(_) | View::Graph | View::Verilog => None,
            View::Picture(_) | View::CausePicture(_) | View::Why(_) | View::Path(_) => None,
            View::Waits { .. } | View::Measure(_) => None,
        }
    }

    /// Writes its text.
    pub fn put<R: Threads + Sync, T: Sink>(
        &self,
        rt: &R,
        alloc: Global,
        out: &mut Out<T>,
        of: &Evaluated<'_>,
    ) -> Result<(), WriteError>
        ensures { Writes result out.old out.new (view_text self.now of.now.netlist.now) }
    {
        match self {
            View::Waves => Ok(put_wave_lines(out, of)?),
            View::Report(selection) => put_report_lines(rt, alloc, out, of, *selection),
            View::Check(asked) => put_check_lines(rt, alloc, out, of, *asked),
            View::Steady => put_steady_lines(alloc, out, of),
            View::Dump(timescale) => {
                let options = DumpOptions {
                    threads: of.threads(),
                    timescale: *timescale,
                };
                put_dump(rt, alloc, out, of.netlist, of.waves, options)
            }
            View::Graph => put_graph(alloc, out, of.netlist),
            View::Verilog => put_verilog(alloc, out, of.netlist),
            View::Picture(picture) => picture.put(rt, alloc, out, of),
            View::CausePicture(picture) => picture.put(rt, alloc, out, of),
            View::Why(lines) => lines.put(alloc, out, of),
            View::Path(lines) => lines.put(alloc, out, of),
            View::Waits { time } => Ok(put_waits(out, of.netlist, of.waves, *time)?),
            View::Measure(lines) => lines.put(rt, alloc, out, of),
        }
    }
}
