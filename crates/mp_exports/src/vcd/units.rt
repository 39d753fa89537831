//! The changes of a dump.
ghost use Rattle.std.specs.Prelude.{◌≡◌, ◌+◌, ◌-◌, ◌<◌, ◌≤◌};
ghost use Rattle.mp_exports.specs.vcd.Clauses.{slice_index, vec_len, flat_map, range_with_len, Writes, Tells, told_from, told_at, unit_text, value_line};

use crate::vcd::change_queue::{ChangeQueue, QueuedChange};
use crate::vcd::lines::put_time_mark;
use crate::vcd::recorded::Recorded;
use crate::vcd::value_lines::ValueLine;
use mp_streams::{Failed, Out, Sink};

/// Writes the changes of each time of an agenda, the last of which is before another.
#[tactic(auto, using(crate::proofs::lemmas::vcd::StandingLemmas::put_agenda_steps))]
pub(crate) fn put_agenda<S: Sink>(
    out: &mut Out<S>,
    of: Recorded<'_>,
    agenda: &ChangeQueue,
    to: u32,
) -> Result<(), Failed>
    requires order { agenda.now.from ≤ to }
    requires times { vec_len agenda.now.firsts ≡ to - agenda.now.from }
    requires told { Tells agenda.now.firsts.items agenda.now.entries.items (told_from agenda.now.from (told_at of.netlist.now)) }
    ensures { Writes result out.old out.new (flat_map (unit_text of.entry.netlist.now) (range_with_len agenda.now.from (to - agenda.now.from))) }
{
    for time in agenda.from..to {
        put_unit(out, of, agenda, time)?;
    }
    Ok(())
}

/// Writes the changes of a time.
#[tactic(auto, using(crate::proofs::lemmas::vcd::AgendaLemmas::units_put_unit_steps))]
fn put_unit<S: Sink>(
    out: &mut Out<S>,
    of: Recorded<'_>,
    agenda: &ChangeQueue,
    time: u32,
) -> Result<(), Failed>
    requires from { agenda.now.from ≤ time }
    requires times { time < agenda.now.from + vec_len agenda.now.firsts }
    requires told { Tells agenda.now.firsts.items agenda.now.entries.items (told_from agenda.now.from (told_at of.netlist.now)) }
    ensures { Writes result out.old out.new (unit_text of.entry.netlist.now time) }
{
    let mut place = agenda.first(time);
    if place == 0 {
        return Ok(());
    }
    put_time_mark(out, time)?;
    while place > 0 {
        let change = agenda.entry(place);
        out.put_piece(&line_of(of.widths, change))?;
        place = change.next;
    }
    Ok(())
}

/// The line of a change, given the width of each wire by number.
#[inline(always)]
fn line_of(widths: &[u32], change: QueuedChange) -> ValueLine
    requires { slice_index widths.now change.wire ≤ 64 }
    ensures { value_line result.width result.wire result.level ≡ value_line (slice_index widths.now change.wire) change.wire change.level }
{
    ValueLine {
        width: widths.get(change.wire as usize).copied().unwrap_or(0),
        wire: change.wire,
        level: change.level,
    }
}
