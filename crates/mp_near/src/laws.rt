//! What the levels, states, runs and work of a netlist and of a region of it have to do with each other.

ghost use Rattle.mp_near.specs.laws.Below.{IsOnlyOneBelow};
ghost use Rattle.mp_near.specs.laws.Picking.{PickedAreCircuits, PickedHaveLevels};
ghost use Rattle.mp_near.specs.laws.RegionRuns.{OthersHaveRuns, PickedHaveRuns};
ghost use Rattle.mp_near.specs.laws.RegionWork.{OthersRest, RegionsHaveWork};
ghost use Rattle.mp_near.specs.laws.RegionWorkSpans.{RegionsHaveWorkSpans};
ghost use Rattle.mp_near.specs.laws.Regions.{ClosedCoresStay, ClosedRegionsStay, RegionsAreCircuits, RegionsAreRevisions, RegionsHaveLevels};

/// Below any time no levels and states satisfy the equations of a netlist but its own.
pub fn only_one_below()
    ensures { IsOnlyOneBelow }
{}

/// What is picked from a netlist is a netlist, if the levels that are set on its wires from outside have their widths.
pub fn picked_are_circuits()
    ensures { PickedAreCircuits }
{}

/// If those levels are the netlist's, so are all levels and states of what is picked.
pub fn picked_have_levels()
    ensures { PickedHaveLevels }
{}

/// If they are, so are its waves, and its last states and those before checkpoints; and what isn't picked keeps its own.
pub fn picked_have_runs()
    ensures picked { PickedHaveRuns }
    ensures others { OthersHaveRuns }
{}

/// The region of a revision, before it and after it, is a netlist and a revision of this.
pub fn regions_are_revisions()
    ensures circuits { RegionsAreCircuits }
    ensures revisions { RegionsAreRevisions }
{}

/// As long as nothing outside a region reads a level from it that differs from the old one, the levels and states of the new netlist are those of the region,
/// and outside those of the old netlist.
pub fn regions_have_levels()
    ensures { RegionsHaveLevels }
{}

/// If all readers of what a region drives or changes are in it, nothing outside ever reads another level.
pub fn closed_regions_stay()
    ensures { ClosedRegionsStay }
{}

/// Below the horizon it is enough that they are in a core of the region, if all that it has beside the core has one record in both netlists.
pub fn closed_cores_stay()
    ensures { ClosedCoresStay }
{}

/// So long, what is evaluated again in the region is what is evaluated again of it in the netlist, if both have one least delay; nothing is outside.
pub fn regions_have_work()
    ensures picked { RegionsHaveWork }
    ensures others { OthersRest }
    ensures work_spans { RegionsHaveWorkSpans }
{}
