//! A part of a netlist as a task.

ghost use Rattle.std.specs.Prelude.{[]};
ghost use Rattle.mp_partition.specs.regions.Regions.{HasStimuli};

use crate::evaluation::run_region;
use mp_netlist::Netlist;
use mp_partition::{PartRun, Region};
use mp_phase::{Gate, Work};
use std::alloc::{AllocError, Global};
use std::sync::Wait;

/// A partition without inbound wires that is to be run up to the horizon, the number of its modules, and whether states are to be kept.
#[derive(Drop)]
pub(crate) struct LonePart<'a> {
    pub netlist: &'a Netlist,
    pub region: Region<'a>,
    pub size: usize,
    pub keeps: bool,
    pub ghost stimuli: { HasStimuli netlist.now region [] },
}

impl<'a> Work for LonePart<'a> {
    ghost use Rattle.mp_partition.specs.merging.PartRuns.{IsPartRun};

    type Done = PartRun;

    ghost gives = { λ part run. IsPartRun part.region part.keeps run };

    ghost enters = { λ part m from to. Unit {0} };

    ghost passes = { λ part m from to. ⊥ };

    fn weight(&self) -> usize {
        self.size
    }

    fn work<R: Wait, G: Gate>(
        self,
        rt: &R,
        alloc: Global,
        gate: &G,
    ) -> Result<PartRun, AllocError> {
        let _horizon = self.netlist.horizon();
        run_region(rt, alloc, self.netlist, &self.region, gate, self.keeps)
    }
}
