//! The dump of a netlist.
ghost use Rattle.mp_exports.specs.vcd.Clauses.{AreWavesOf, dump, SaysLevels, reading, times_text};
ghost use Rattle.mp_streams.specs.WriteErrors.{Writes};

use crate::vcd::division::passages_of;
use crate::vcd::lines::put_time_mark;
use crate::vcd::portion::Portion;
use crate::vcd::preamble::put_preamble;
use crate::vcd::recorded::Recorded;
use crate::vcd::sharing::put_passages;
use crate::vcd::timescale::Timescale;
use crate::vcd::widths::widths_of;
use mp_model::Waves;
use mp_netlist::Netlist;
use mp_streams::{Out, Sink, WriteError};
use std::alloc::Global;
use std::thread::Threads;

/// How a dump is made: by how many threads, and with a unit of time of which length.
#[derive(Clone, Copy)]
pub struct DumpOptions {
    /// With three or more, at most that many make the text ahead of the calling one, which writes it.
    pub threads: usize,
    pub timescale: Timescale,
}

/// Writes the value change dump of a netlist, given its waves. Read by the rules of IEEE Std 1364, its text declares the length of a unit of time and
/// the wires that exist, and gives each at each time below the horizon the wire's level.
///
/// `WriteFailed` comes if the sink fails; then the sink has a beginning of what was held and of the dump, and nothing is held. `OutOfMemory` comes if
/// memory runs out; then a beginning of the dump is written. It takes time in proportion to the wires, the units and the changes; and of memory 12
/// bytes for each wire, and for each thread that makes text 8 for each wire, 16 for each change and 4 for each unit of a portion, which has as many
/// changes as stay near the processor, and twice the text of a passage, 2 MiB mostly and 16 MiB at most.
#[tactic(auto, using(crate::proofs::lemmas::vcd::DumpReadLemmas::says_levels))]
pub fn put_dump<R: Threads + Sync, S: Sink>(
    rt: &R,
    alloc: Global,
    out: &mut Out<S>,
    netlist: &Netlist,
    waves: &Waves,
    options: DumpOptions,
) -> Result<(), WriteError>
    requires waves { AreWavesOf netlist.now waves.now }
    ensures written { Writes result out.old out.new (dump options.timescale netlist.now) }
    ensures read { SaysLevels options.timescale netlist.now (reading (dump options.timescale netlist.now)) }
{
    let horizon = netlist.horizon();
    put_preamble(out, netlist, waves, options.timescale)?;
    put_units(rt, alloc, out, netlist, waves, options.threads)?;
    put_time_mark(out, horizon)?;
    Ok(())
}

/// Writes the changes of each time from 1 to one below the horizon.
#[tactic(auto, using(crate::proofs::lemmas::vcd::StandingLemmas::unmade))]
fn put_units<R: Threads + Sync, S: Sink>(
    rt: &R,
    alloc: Global,
    out: &mut Out<S>,
    netlist: &Netlist,
    waves: &Waves,
    threads: usize,
) -> Result<(), WriteError>
    requires { AreWavesOf netlist.now waves.now }
    ensures { Writes result out.old out.new (times_text netlist.now 1 netlist.now.horizon) }
{
    let widths = widths_of(alloc, netlist)?;
    let of = Recorded {
        netlist,
        waves,
        widths: widths.as_slice(),
        portion: Portion::of(netlist, waves),
    };
    let passages = passages_of(alloc, of, threads)?;
    put_passages(rt, alloc, out, passages.as_slice(), threads)
}
