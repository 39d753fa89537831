//! The lines of a partition.
ghost use Rattle.mp_partition.specs.regions.Divisions.{heard_by};
ghost use Rattle.mp_engine.specs.messages.Messages.{IsToldOnce};
ghost use Rattle.mp_engine.specs.messages.Lines.{parts_of};

use crate::messages::given_up::GivenUp;
use crate::messages::line::{LineFrom, LineTo};
use crate::messages::message::{Heading, Message, Subject, Window};
use mp_partition::{Division, heard_by};
use mp_simulation::{NetlistSimulation, StimulusChange};
use std::alloc::Global;
use std::sync::Wait;

/// The lines of a partition: to each partition that reads its wires, and from each partition whose wires it reads; and how often it looks for a
/// message before it sleeps. At each look it lets other threads go first.
#[derive(Drop)]
pub struct Channels<J: Subject> {
    pub part: u32,
    pub(crate) looks: u32,
    pub(crate) to: Vec<LineTo<J>>,
    pub from: Vec<LineFrom<J>>,
    pub ghost once: { IsToldOnce J.netlist J.wires (heard_by J.heards part) (parts_of from.items) },
}

impl<J: Subject> Channels<J> {
    ghost use Rattle.std.specs.Prelude.{◌≡◌, IfOk, OnOk};
    ghost use Rattle.mp_partition.specs.regions.Divisions.{heard_by};
    ghost use Rattle.mp_engine.specs.messages.Messages.{AreTold, KnowsAhead};
    ghost use Rattle.mp_engine.specs.messages.Lines.{parts_of, readers_of, AreSent};

    /// Sends the changes of a window to all partitions that read them. After `Ok` each has been sent its message.
    pub fn send<R: Wait>(
        &mut self,
        rt: &R,
        alloc: Global,
        division: &Division,
        simulation: &NetlistSimulation,
        window: Window,
    ) -> Result<(), GivenUp>
        requires heards { division.now.heard.items ≡ J.heards }
        requires knows { KnowsAhead J.netlist J.wires J.heards self.old.part window simulation.now }
        ensures sent { OnOk result (AreSent self.old.part window self.new.to.items) }
        ensures readers { readers_of self.new.to.items ≡ readers_of self.old.to.items }
        ensures same { (self.new.part ≡ self.old.part) × (self.new.from ≡ self.old.from) }
    {
        for line in self.to.iter_mut() {
            let heading = Heading {
                by: self.part,
                to: line.to,
                window,
            };
            let heard = heard_by(division.heard.as_slice(), line.to);
            let message = Message::of(alloc, simulation, heard, heading)?;
            line.send(rt, message)?;
        }
        Ok(())
    }

    /// Receives the messages of a window from all partitions whose wires this one reads.
    pub fn receive<R: Wait>(
        &mut self,
        rt: &R,
        alloc: Global,
        window: Window,
    ) -> Result<Vec<StimulusChange>, GivenUp>
        ensures told { IfOk result (λ changes. AreTold J.netlist J.wires (heard_by J.heards self.old.part) (parts_of self.old.from.items) window changes.items) }
        ensures same { (self.new.part ≡ self.old.part) × (parts_of self.new.from.items ≡ parts_of self.old.from.items) × (self.new.to ≡ self.old.to) }
    {
        let mut changes = Vec::new(alloc);
        for line in self.from.iter_mut() {
            let heading = Heading {
                by: line.by,
                to: self.part,
                window,
            };
            let message = line.message_for(rt, self.looks, heading)?;
            changes.extend_from_slice(message.changes.as_slice())?;
        }
        Ok(changes)
    }
}
