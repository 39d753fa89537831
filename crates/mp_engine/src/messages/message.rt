//! Messages between partitions.
ghost use Rattle.std.specs.Prelude.{◌≡◌, [], ◌∷◌, ◌++◌, OnOk};
ghost use Rattle.mp_partition.specs.regions.Divisions.{heard_by};
ghost use Rattle.mp_engine.specs.messages.Messages.{AreTold, toggles_told, levels_told};

use mp_kernel::LevelChange;
use mp_netlist::WireId;
use mp_partition::is_heard;
use mp_simulation::{NetlistSimulation, StimulusChange};
use std::alloc::{AllocError, Global};
use std::marker::{Brand, PhantomData};

/// The subject of messages: a netlist, the partitions of its wires, and the inbound wires of each partition. It exists only in proofs.
pub trait Subject {
    ghost use Rattle.std.specs.Prelude.{Bool, List, ℕ};
    ghost use Rattle.mp_netlist.specs.Circuit.{Circuit};

    ghost netlist: { Circuit };

    ghost wires: { List ℕ };

    ghost heards: { List (List Bool) };
}

impl Subject for Brand {
    ghost use Rattle.std.specs.Prelude.{[]};
    ghost use Rattle.mp_netlist.specs.Circuit.{empty_circuit};
    ghost use Rattle.mp_netlist.specs.declared.format.Format.TheVariants.{Standard};

    ghost netlist = { empty_circuit Standard 1 };

    ghost wires = { [] };

    ghost heards = { [] };
}

/// The units from a time to before another.
#[derive(Clone, Copy, PartialEq, Eq)]
pub struct Window {
    pub from: u32,
    pub until: u32,
}

/// The sender and the receiver of a message, and its units.
#[derive(Clone, Copy, PartialEq, Eq)]
pub(crate) struct Heading {
    pub by: u32,
    pub to: u32,
    pub window: Window,
}

/// All changes, in a window, of wires that one partition drives and another one reads.
#[derive(Drop)]
pub(crate) struct Message<J: Subject> {
    pub heading: Heading,
    pub changes: Vec<StimulusChange>,
    of: PhantomData<J>,
    pub ghost told: { AreTold J.netlist J.wires (heard_by J.heards heading.to) (heading.by ∷ []) heading.window changes.items },
}

impl<J: Subject> Message<J> {
    ghost use Rattle.std.specs.Prelude.{◌≡◌, IfOk};
    ghost use Rattle.mp_partition.specs.regions.Divisions.{heard_by};
    ghost use Rattle.mp_engine.specs.messages.Messages.{KnowsAhead};

    /// What the simulation of a part knows of wires that are marked.
    pub(crate) fn of(
        alloc: Global,
        simulation: &NetlistSimulation,
        heard: &[bool],
        heading: Heading,
    ) -> Result<Self, AllocError>
        requires heard { heard.now ≡ heard_by J.heards heading.to }
        requires knows { KnowsAhead J.netlist J.wires J.heards heading.by heading.window simulation.now }
        ensures { IfOk result (λ message. message.heading ≡ heading) }
    {
        let Window { from, until } = heading.window;
        let mut changes = Vec::new(alloc);
        for time in from..until {
            let units = (time - from) as usize;
            add_toggles(heard, simulation.toggles_ahead(units), time, &mut changes)?;
            add_levels(heard, simulation.levels_ahead(units), time, &mut changes)?;
        }
        Ok(Message {
            heading,
            changes,
            of: PhantomData,
        })
    }
}

/// Adds the toggles at a time of the wires that are marked.
fn add_toggles(
    heard: &[bool],
    wires: &[u32],
    time: u32,
    changes: &mut Vec<StimulusChange>,
) -> Result<(), AllocError>
    ensures { OnOk result (changes.new.items ≡ changes.old.items ++ toggles_told heard.now time wires.now) }
{
    for wire in wires {
        if is_heard(heard, WireId(*wire)) {
            changes.push(StimulusChange {
                time,
                wire: *wire,
                has_data: false,
                level: 0,
            })?;
        }
    }
    Ok(())
}

/// Adds the changes at a time of wires with data that are marked.
fn add_levels(
    heard: &[bool],
    levels: &[LevelChange],
    time: u32,
    changes: &mut Vec<StimulusChange>,
) -> Result<(), AllocError>
    ensures { OnOk result (changes.new.items ≡ changes.old.items ++ levels_told heard.now time levels.now) }
{
    for change in levels {
        if is_heard(heard, WireId(change.number)) {
            changes.push(StimulusChange {
                time,
                wire: change.number,
                has_data: true,
                level: change.level,
            })?;
        }
    }
    Ok(())
}
