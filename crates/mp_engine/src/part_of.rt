//! A partition of a divided netlist, which a thread of its own runs.

use crate::messages::{Channels, GivenUp, Subject, Window};
use crate::part_progress::PartProgress;
use crate::progress::{Progress, stretch_of};
use crate::region_runs::RegionRun;
use mp_netlist::Netlist;
use mp_partition::{Division, PartRun, Region, heard_by};
use mp_phase::Gate;
use std::alloc::Global;
use std::sync::Wait;
use std::thread::Promise;

/// A netlist that is divided, whether states are to be kept of its modules, and where its run writes how far it is.
#[derive(Clone, Copy)]
pub(crate) struct Divided<'a> {
    pub netlist: &'a Netlist,
    pub division: &'a Division,
    pub keeps: bool,
    pub progress: Option<&'a Progress>,
}

/// A part of a netlist that is divided, whether states are to be kept of its modules, and where the run writes how far it is.
#[derive(Clone, Copy)]
pub(crate) struct PartOf<'a> {
    pub netlist: &'a Netlist,
    pub division: &'a Division,
    pub part: u32,
    pub keeps: bool,
    pub progress: Option<&'a Progress>,
}

impl<'a> Promise<Result<PartRun, GivenUp>> for PartOf<'a> {
    ghost use Rattle.std.specs.Prelude.{IfOk};
    ghost use Rattle.mp_engine.specs.PartsOf.{IsRunOf};

    ghost kept_by = { λ it result. IfOk result (IsRunOf it) };
}

impl<'a> PartOf<'a> {
    ghost use Rattle.std.specs.Prelude.{◌-◌, IfOk, OnOk};
    ghost use Rattle.mp_phase.specs.Allowed.{IsOpen};
    ghost use Rattle.mp_engine.specs.PartsOf.{IsMailOf, IsRunAt, IsRunOf};

    /// Runs it up to the horizon, window by window. The changes of its inbound wires come by its lines.
    pub(crate) fn run<J: Subject, R: Wait, G: Gate>(
        self,
        rt: &R,
        alloc: Global,
        gate: &G,
        channels: Channels<J>,
    ) -> Result<PartRun, GivenUp>
        requires open { IsOpen (G.may gate.now) }
        requires channels { IsMailOf J.netlist J.wires J.heards self channels }
        ensures { IfOk result (IsRunOf self.entry) }
    {
        let PartOf {
            netlist,
            division,
            part,
            keeps,
            ..
        } = self;
        let _horizon = netlist.horizon();
        let mut channels = channels;
        let heard = heard_by(division.heard.as_slice(), part);
        let region = Region::new(netlist, division.homes.as_slice(), part, heard);
        let mut run = RegionRun::begin(rt, alloc, netlist, &region, gate, keeps)?;
        match self.run_windows(rt, alloc, gate, &mut channels, &mut run) {
            Ok(()) => Ok(run.finish(alloc, &region)?),
            Err(cause) => {
                drop(run);
                Err(cause)
            }
        }
    }

    /// Runs all its units after time 0, which is over.
    fn run_windows<J: Subject, R: Wait, G: Gate>(
        self,
        rt: &R,
        alloc: Global,
        gate: &G,
        channels: &mut Channels<J>,
        run: &mut RegionRun,
    ) -> Result<(), GivenUp>
        requires open { IsOpen (G.may gate.now) }
        requires channels { IsMailOf J.netlist J.wires J.heards self channels.old }
        requires begun { IsRunAt self 0 1 run.old }
        ensures { OnOk result (IsRunAt self.entry (self.entry.netlist.now.horizon - 1) self.entry.netlist.now.horizon run.new) }
    {
        let PartOf {
            netlist,
            division,
            part,
            progress,
            ..
        } = self;
        let horizon = netlist.horizon();
        let stretch = stretch_of(progress, netlist);
        let span = division.delay.min(stretch);
        let heard = heard_by(division.heard.as_slice(), part);
        let region = Region::new(netlist, division.homes.as_slice(), part, heard);
        let mut progress = PartProgress::new(self, stretch);
        let mut from = 1;
        while from < horizon {
            let until = from.saturating_add(span).min(horizon);
            let window = Window { from, until };
            channels.send(rt, alloc, division, &run.simulation, window)?;
            run.receive(channels.receive(rt, alloc, window)?);
            run.run_units(rt, &region, gate, from, until)?;
            progress.pass(alloc, run, until);
            from = until;
        }
        Ok(())
    }
}
