//! The lines of a report.
ghost use Rattle.mp_streams.specs.Outgoing.{Writes};
ghost use Rattle.std.specs.Prelude.{◌++◌};
ghost use Rattle.mp_report.specs.Lines.{placed_text, finding_lines};

use mp_model::{Finding, Place};
use mp_netlist::Netlist;
use mp_streams::{Failed, Out, Sink, Text};

/// Writes a line for each finding: `TIME module NAME CODE` or `TIME bundle NAME CODE`, with the word of the code. A finding at a module or a bundle
/// that doesn't exist has none. `Failed` comes if the sink fails; then the sink has a beginning of what was held and of the lines, and nothing is
/// held.
pub fn put_report<S: Sink>(
    out: &mut Out<S>,
    netlist: &Netlist,
    findings: &[Finding],
) -> Result<(), Failed>
    ensures { Writes result out.old out.new (finding_lines netlist.now findings.now) }
{
    for finding in findings {
        let (finding, end) = (*finding, "\n");
        FindingText {
            netlist,
            finding,
            end,
        }
        .put_to(out)?;
    }
    Ok(())
}

/// The text of a finding, `TIME module NAME CODE` or `TIME bundle NAME CODE`, with the word of the code, and its end. A finding at a module or a
/// bundle that doesn't exist has no text.
#[derive(Clone, Copy)]
pub struct FindingText<'a> {
    pub netlist: &'a Netlist,
    pub finding: Finding,
    pub end: &'static str,
}

impl<'a> Text for FindingText<'a> {
    ghost use Rattle.mp_report.specs.Lines.{finding_text};

    ghost text = { λ told. finding_text told.netlist.now told.finding told.end.now };

    fn put_to<S: Sink>(&self, out: &mut Out<S>) -> Result<(), Failed> {
        let end = self.end;
        match self.finding.place {
            Place::Module(id) => match self.netlist.module(id) {
                Some(found) => put_placed(out, self.finding, " module ", found.name.as_str(), end),
                None => Ok(()),
            },
            Place::Bundle(id) => match self.netlist.bundle(id) {
                Some(found) => put_placed(out, self.finding, " bundle ", found.name.as_str(), end),
                None => Ok(()),
            },
        }
    }
}

/// Writes the time of a finding, the kind of its place between spaces, the place's name, the word of the code and what ends it.
fn put_placed<S: Sink>(
    out: &mut Out<S>,
    finding: Finding,
    kind: &str,
    name: &str,
    end: &str,
) -> Result<(), Failed>
    ensures { Writes result out.old out.new (placed_text finding.time kind.now name.now finding.code ++ end.now) }
{
    let (time, word) = (finding.time, finding.code.word());
    ((time, kind, (name, " ", word)), end).put_to(out)
}
