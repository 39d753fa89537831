//! The lines between all parts of a netlist.
ghost use Rattle.std.specs.Prelude.{◌≡◌, ℕ, ◌<◌, ◌^◌, true, length, IfOk};
ghost use Rattle.mp_modules.specs.automata.Codes.{bit};
ghost use Rattle.mp_kernel.specs.events.Adding.{listed};
ghost use Rattle.mp_partition.specs.runs.Marks.{is_marked};
ghost use Rattle.mp_partition.specs.regions.Regions.{partition_of};
ghost use Rattle.mp_partition.specs.regions.Divisions.{heard_by};
ghost use Rattle.mp_engine.specs.messages.Lines.{parts_of};

use crate::messages::channels::Channels;
use crate::messages::line::{LineFrom, LineTo, open_line};
use crate::messages::message::Subject;
use mp_netlist::{Netlist, WireId};
use mp_partition::{Division, heard_by, is_heard, partition_of};
use mp_phase::LOOKS;
use std::alloc::{AllocError, Global};
use std::marker::Model;

/// The lines of all partitions that haven't taken theirs yet, in order. The sending ends are kept apart.
#[derive(Drop)]
pub struct Lines<J: Subject> {
    to: Vec<Vec<LineTo<J>>>,
    mails: Vec<Channels<J>>,
}

impl<J: Subject> Model for Lines<J> {
    ghost use Rattle.std.specs.Prelude.{ℕ, length};
    ghost use Rattle.mp_engine.specs.messages.Mails.{AreNumbered};

    ghost Value = { ℕ };

    ghost view = { λ lines. length lines.mails.items };

    ghost invariant = { λ lines. AreNumbered lines.mails.items };
}

impl<J: Subject> Lines<J> {
    ghost use Rattle.std.specs.Prelude.{◌≡◌, ℕ, ◌+◌, IfOk, IfSome, IfNone};
    ghost use Rattle.mp_partition.specs.regions.Divisions.{IsDivision};

    /// Makes a line between any two partitions of which one reads a wire of the other. The first partitions, as many as given, look for messages
    /// before they sleep.
    pub fn between(
        alloc: Global,
        netlist: &Netlist,
        division: &Division,
        lookers: usize,
    ) -> Result<Self, AllocError>
        requires netlist { netlist.now ≡ J.netlist }
        requires division { IsDivision J.netlist division.now.homes.items J.wires J.heards division.now.parts }
        requires wires { division.now.wires.items ≡ J.wires }
        requires heards { division.now.heard.items ≡ J.heards }
        ensures { IfOk result (λ lines. lines ≡ division.now.parts) }
    {
        let mut to = Vec::new(alloc);
        for _by in 0..division.parts {
            to.push(Vec::new(alloc))?;
        }
        let mut mails = Vec::new(alloc);
        for part in 0..division.parts {
            let marks = told_by(alloc, netlist, division, part)?;
            mails.push(Channels {
                part,
                looks: if (part as usize) < lookers { LOOKS } else { 0 },
                to: Vec::new(alloc),
                from: lines_from(alloc, part, marks.as_slice(), &mut to)?,
            })?;
        }
        Ok(Lines { to, mails })
    }

    /// Takes those of the last part that has them here.
    pub fn take_last(&mut self, alloc: Global) -> Option<Channels<J>>
        ensures some { IfSome result (λ channels. (self.old ≡ channels.part + 1) × (self.new ≡ channels.part)) }
        ensures none { IfNone result (self.old ≡ 0) }
    {
        let Channels {
            part,
            looks,
            from,
            ..
        } = self.mails.pop()?;
        let to = take_lines(alloc, &mut self.to, part);
        Some(Channels {
            part,
            looks,
            to,
            from,
        })
    }
}

/// The lines from a part to others, which are taken.
fn take_lines<J: Subject>(
    alloc: Global,
    to: &mut Vec<Vec<LineTo<J>>>,
    part: u32,
) -> Vec<LineTo<J>> {
    match to.get_mut(part as usize) {
        Some(lines) => std::mem::replace(lines, Vec::new(alloc)),
        None => Vec::new(alloc),
    }
}

/// A mark for each partition that drives an inbound wire of this one.
fn told_by(
    alloc: Global,
    netlist: &Netlist,
    division: &Division,
    part: u32,
) -> Result<Vec<bool>, AllocError>
    ensures places { IfOk result (λ marks. length marks.items ≡ division.now.parts) }
    ensures marked { IfOk result (λ marks. (w : ℕ) → w < length netlist.now.wires → is_marked (heard_by division.now.heard.items part) w ≡ true →
        partition_of division.now.wires.items w < division.now.parts → is_marked marks.items (partition_of division.now.wires.items w) ≡ true) }
{
    let heard = heard_by(division.heard.as_slice(), part);
    let mut marks = vec![in alloc; false; division.parts as usize]?;
    for w in 0..netlist.wire_slots() {
        let home = partition_of(division.wires.as_slice(), w);
        mark_if(&mut marks, is_heard(heard, WireId(w)), home);
    }
    Ok(marks)
}

/// Marks a place on a condition, if it is there.
fn mark_if(marks: &mut Vec<bool>, is: bool, place: u32)
    ensures places { length marks.new.items ≡ length marks.old.items }
    ensures kept { (k : ℕ) → is_marked marks.old.items k ≡ true → is_marked marks.new.items k ≡ true }
    ensures marked { is ≡ true → place < length marks.old.items → is_marked marks.new.items place ≡ true }
{
    let k = place as usize;
    if is && k < marks.len() {
        marks[k] = true;
    }
}

/// The lines to a part, one from each other that is marked.
fn lines_from<J: Subject>(
    alloc: Global,
    part: u32,
    marks: &[bool],
    to: &mut Vec<Vec<LineTo<J>>>,
) -> Result<Vec<LineFrom<J>>, AllocError>
    requires { length marks.now < 2 ^ 32 }
    ensures { IfOk result (λ lines. (k : ℕ) → listed k (parts_of lines.items) ≡ bit (is_marked marks.now k)) }
{
    let mut lines = Vec::new(alloc);
    for by in 0..marks.len() {
        if marks[by] {
            let (end, other) = open_line(alloc, by as u32, part)?;
            add_line(to, by, end)?;
            lines.push(other)?;
        }
    }
    Ok(lines)
}

fn add_line<J: Subject>(
    to: &mut Vec<Vec<LineTo<J>>>,
    by: usize,
    line: LineTo<J>,
) -> Result<(), AllocError> {
    if let Some(lines) = to.get_mut(by) {
        lines.push(line)?;
    }
    Ok(())
}
