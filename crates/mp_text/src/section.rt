//! The sections of a netlist's text.
ghost use Rattle.std.specs.Prelude.{◌≡◌};
ghost use Rattle.mp_text.specs.Clauses.{Writes};

use crate::written_lines::{put_bundle, put_module, put_stimulus, put_wire};
use mp_netlist::{BundleId, ModuleId, Netlist, WireId};
use mp_streams::{Failed, Out, Sink, Text};

/// A part of a netlist's text after its horizon, with the lines of one sort.
#[derive(Clone, Copy)]
pub enum Section {
    Wires,
    Modules,
    Stimuli,
    Bundles,
}

/// The lines of a section of a netlist, by number.
#[derive(Clone, Copy)]
pub(crate) struct SectionLines<'a> {
    netlist: &'a Netlist,
    section: Section,
}

impl<'a> Text for SectionLines<'a> {
    ghost use Rattle.mp_text.specs.Sections.{section_text};

    ghost text = { λ lines. section_text lines.netlist.now lines.section };

    #[tactic(auto, using(crate::proofs::WriteLemmas::sectionlinestext_put_to_steps))]
    fn put_to<S: Sink>(&self, out: &mut Out<S>) -> Result<(), Failed> {
        for number in 0..self.slot_count() {
            self.put_slot(out, number)?;
        }
        Ok(())
    }
}

impl<'a> SectionLines<'a> {
    ghost use Rattle.mp_text.specs.Sections.{slot_count, slot_line};

    /// The lines of this section of the netlist.
    pub(crate) fn new(netlist: &'a Netlist, section: Section) -> Self
        ensures { result ≡ record { netlist = netlist.entry; section = section } }
    {
        SectionLines { netlist, section }
    }

    /// The number of slots of the section.
    fn slot_count(&self) -> u32
        ensures { result ≡ slot_count self.now.netlist.now self.now.section }
    {
        match self.section {
            Section::Wires | Section::Stimuli => self.netlist.wire_slots(),
            Section::Modules => self.netlist.module_slots(),
            Section::Bundles => self.netlist.bundle_slots(),
        }
    }

    /// Writes the line for the slot of this number; nothing if there is none in it.
    fn put_slot<S: Sink>(&self, out: &mut Out<S>, number: u32) -> Result<(), Failed>
        ensures { Writes result out.old out.new (slot_line self.now.netlist.now self.now.section number) }
    {
        let netlist = self.netlist;
        match self.section {
            Section::Wires => match netlist.wire(WireId(number)) {
                Some(wire) => put_wire(out, wire),
                None => Ok(()),
            },
            Section::Modules => match netlist.module(ModuleId(number)) {
                Some(part) => put_module(out, netlist, part),
                None => Ok(()),
            },
            Section::Stimuli => match netlist.wire(WireId(number)) {
                Some(wire) => put_stimulus(out, wire),
                None => Ok(()),
            },
            Section::Bundles => match netlist.bundle(BundleId(number)) {
                Some(bundle) => put_bundle(out, netlist, bundle),
                None => Ok(()),
            },
        }
    }
}
