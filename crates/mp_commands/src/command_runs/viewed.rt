//! The command that writes a view.
ghost use Rattle.std.specs.Prelude.{◌≡◌, ◌&&◌};
ghost use Rattle.mp_commands.specs.views.Views.{view_places, view_text, view_wires};
ghost use Rattle.mp_commands.specs.command_runs.ViewRuns.{RunsView};
ghost use Rattle.mp_commands.specs.command_runs.Clauses.{[], OnOk, false, is_some, Some, Ok, IfSome, IsSomeAnd, Ran, TakesInput, counted_reads, lines_of, has_valid_crew, opening_of, viewed_opening, with_places, with_wires};

use crate::command_runs::command::{InputCommand, run_command};
use crate::command_runs::opening::opened_input;
use crate::command_runs::options::{Finders, Options};
use crate::command_runs::run_fault::RunFault;
use crate::views::{Evaluated, View};
use mp_engine::find_waves;
use mp_netlist::Netlist;
use mp_phase::Crew;
use mp_streams::{Out, Sink, Source};
use std::alloc::{AllocError, Global};
use std::mem::forget;
use std::sync::Wait;
use std::thread::Threads;

/// The command that writes a view of the netlist whose text its input is. There is no view if one of its numbers is out of range; then `BadCount`
/// comes, after the faults of the text. A wire of the view that doesn't exist comes last, as `NoSuchWire` with its place among the wires of the view,
/// and a name of its modules and bundles that none of them has as `NoSuchPlace`; then nothing is written.
#[derive(Drop)]
pub struct Viewed<'a> {
    pub view: Option<View<'a>>,
}

impl<'a> Viewed<'a> {
    /// The view with the crew of the options, where there are both.
    fn crewed(&self, options: &Options) -> Option<(&View<'a>, Crew)>
        ensures both { is_some result ≡ (has_valid_crew options.now && is_some self.now.view) }
        ensures view { IfSome result (λ both. self.now.view ≡ Some both.0.now) }
    {
        match &self.view {
            Some(view) => Some((view, options.crew()?)),
            None => None,
        }
    }
}

impl<'a> InputCommand for Viewed<'a> {
    ghost opening = { λ command input options. viewed_opening command.view (opening_of (lines_of input) (has_valid_crew options && is_some command.view)) };

    ghost IsText = { λ command _ _ n text. IsSomeAnd command.view (λ view. text ≡ view_text view n) };

    ghost seats = { false };

    fn answer<R: Threads + Wait + Sync, T: Sink>(
        &self,
        rt: &R,
        alloc: Global,
        out: &mut Out<T>,
        input: Vec<u8>,
        options: &Options,
    ) -> Result<(), RunFault> {
        let viewed = self.crewed(options);
        let (netlist, (view, crew)) = opened_input(alloc, options.keys, input, viewed)?;
        let progress = options.progress;
        let answered = answer_of(rt, alloc, out, &netlist, view, Finders { crew, progress });
        // the run is over: all memory goes back to the system at once
        forget(netlist);
        answered
    }
}

/// Reads the text of a netlist, all of it first, and writes a view of it, which is flushed. There is no view if a number that it was given is out of its
/// range.
///
/// The errors are those of `run_command` with this view.
pub fn run_view<R: Threads + Wait + Sync, S: Source, T: Sink>(
    rt: &R,
    alloc: Global,
    source: &mut S,
    out: &mut Out<T>,
    options: &Options,
    view: Option<View<'_>>,
) -> Result<(), RunFault>
    requires { out.old.held ≡ [] }
    ensures written { RunsView view.entry (has_valid_crew options.now) result (S.left source.old) out.old out.new }
    ensures all { OnOk result (out.new.held ≡ []) }
    ensures taken { TakesInput (S.left source.old) (S.left source.new) }
    ensures read_faults { S.fault_count source.new ≡ counted_reads result (S.fault_count source.old) }
{
    run_command(rt, alloc, source, out, options, &Viewed { view })
}

/// Writes a view of a netlist.
fn answer_of<R: Threads + Wait + Sync, T: Sink>(
    rt: &R,
    alloc: Global,
    out: &mut Out<T>,
    netlist: &Netlist,
    view: &View<'_>,
    finders: Finders<'_>,
) -> Result<(), RunFault>
    ensures { Ran false result (with_places (view_places view.now) (with_wires (view_wires view.now) (Ok netlist.now))) (λ n text. text ≡ view_text view.now n) out.old out.new }
{
    if let Some(place) = view.missing(netlist) {
        return Err(RunFault::NoSuchWire(place));
    }
    answer_at(rt, alloc, out, netlist, view, finders)
}

/// Writes a view of a netlist that has its wires.
fn answer_at<R: Threads + Wait + Sync, T: Sink>(
    rt: &R,
    alloc: Global,
    out: &mut Out<T>,
    netlist: &Netlist,
    view: &View<'_>,
    finders: Finders<'_>,
) -> Result<(), RunFault>
    ensures { Ran false result (with_places (view_places view.now) (Ok netlist.now)) (λ n text. text ≡ view_text view.now n) out.old out.new }
{
    if let Some(place) = view.missing_place(netlist) {
        return Err(RunFault::NoSuchPlace(place));
    }
    let Finders { crew, progress } = finders;
    let waves = find_waves(rt, alloc, netlist, &crew, progress)?;
    let of = Evaluated {
        netlist,
        waves: &waves,
        crew,
    };
    let put = view.put(rt, alloc, out, &of);
    forget(waves);
    Ok(put?)
}
