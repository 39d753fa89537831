//! How far the run of a partition is.

use crate::part_of::PartOf;
use crate::region_runs::RegionRun;
use std::alloc::Global;

/// The lines that the run of a partition writes. Each partition counts the changes of the wires that it drives. The first one also counts those that
/// stimuli set. The time of a line is the mean over all partitions.
#[derive(Drop)]
pub(crate) struct PartProgress<'a> {
    of: PartOf<'a>,
    stretch: u32,
    passed: u32,
    counted: usize,
}

impl<'a> PartProgress<'a> {
    ghost use Rattle.std.specs.Prelude.{◌≡◌, false, true};
    ghost use Rattle.mp_engine.specs.PartProgresses.{is_line_due};

    /// The lines of the run of a partition, with this many units from one to the next. It is at time 0.
    pub(crate) fn new(of: PartOf<'a>, stretch: u32) -> PartProgress<'a>
        ensures { result ≡ record { of = of.entry; stretch = stretch; passed = 0; counted = 0 } }
    {
        PartProgress {
            of,
            stretch,
            passed: 0,
            counted: 0,
        }
    }

    /// A window is over that ends at a time. If that is the end of a stretch or of the run, a line is written, and the next stretch begins.
    pub(crate) fn pass(&mut self, alloc: Global, run: &RegionRun, time: u32)
        ensures line { is_line_due self.old time ≡ true → self.new.passed ≡ time }
        ensures none { is_line_due self.old time ≡ false → self.new.passed ≡ self.old.passed }
        ensures of { self.new.of ≡ self.old.of }
        ensures stretch { self.new.stretch ≡ self.old.stretch }
    {
        let Some(progress) = self.of.progress else {
            return;
        };
        self.counted = self.counted.saturating_add(run.heard.list.len());
        let horizon = self.of.netlist.horizon();
        if time < self.passed.saturating_add(self.stretch).min(horizon) {
            return;
        }
        let count = self.count_changes(run);
        let (units, changes) = progress.add(
            time.saturating_sub(self.passed),
            count.saturating_sub(self.counted),
        );
        self.counted = count;
        self.passed = time;
        let parts = u64::from(self.of.division.parts.max(1));
        progress.write_line(alloc, units / parts, horizon, changes);
    }

    /// How often wires have changed that the partition drives, and inbound ones; in the first partition also those that stimuli set.
    fn count_changes(&self, run: &RegionRun) -> usize {
        let count = run.simulation.count_changes();
        if self.of.part == 0 {
            count
        } else {
            count.saturating_sub(run.stimuli.place)
        }
    }
}
