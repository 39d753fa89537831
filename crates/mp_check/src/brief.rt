//! The lines of a check in brief.
ghost use Rattle.std.specs.Prelude.{◌≡◌};
ghost use Rattle.std.specs.List.{flat_map};
ghost use Rattle.mp_streams.specs.Outgoing.{Writes};
ghost use Rattle.mp_check.specs.Briefs.{group_line, kind_text};

use crate::group::Group;
use crate::names::place_name;
use crate::problem::Problem;
use mp_model::Place;
use mp_netlist::Netlist;
use mp_streams::{Failed, Out, Sink, Text};

/// Writes a line for each group.
pub(crate) fn put_groups<S: Sink>(
    out: &mut Out<S>,
    netlist: &Netlist,
    groups: &[Group],
) -> Result<(), Failed>
    ensures { Writes result out.old out.new (flat_map (group_line netlist.now) groups.now) }
{
    for &group in groups {
        put_group(out, netlist, group)?;
    }
    Ok(())
}

fn put_group<S: Sink>(out: &mut Out<S>, netlist: &Netlist, group: Group) -> Result<(), Failed>
    ensures { Writes result out.old out.new (group_line netlist.now group) }
{
    let place = group.first.place();
    let what = (" ", group.first.word(), (Times { group }, "\n"));
    (kind_word(place), place_name(netlist, place), what).put_to(out)
}

fn kind_word(place: Place) -> &'static str
    ensures { result.now ≡ kind_text place }
{
    match place {
        Place::Module(_) => "module ",
        Place::Bundle(_) => "bundle ",
    }
}

/// How often and when something was found, and by how much data were late.
#[derive(Clone, Copy)]
struct Times {
    group: Group,
}

impl Text for Times {
    ghost use Rattle.mp_check.specs.Briefs.{times_text};

    ghost text = { λ times. times_text times.group };

    fn put_to<S: Sink>(&self, out: &mut Out<S>) -> Result<(), Failed> {
        let group = self.group;
        if group.count == 1 {
            let word = ", by ";
            return (" 1 time, at ", group.last, LateBy { group, word }).put_to(out);
        }
        let word = ", worst ";
        let last = (", last ", group.last, LateBy { group, word });
        let times = (" times, first ", group.first.time(), last);
        (" ", group.count, times).put_to(out)
    }
}

/// By how much data are late, after a word; nothing for findings.
#[derive(Clone, Copy)]
struct LateBy {
    group: Group,
    word: &'static str,
}

impl Text for LateBy {
    ghost use Rattle.mp_check.specs.Briefs.{units_text};

    ghost text = { λ by. units_text by.group.first by.word.now by.group.worst };

    fn put_to<S: Sink>(&self, out: &mut Out<S>) -> Result<(), Failed> {
        match self.group.first {
            Problem::Found(_) => Ok(()),
            Problem::Late(_) => (self.word, self.group.worst).put_to(out),
        }
    }
}
