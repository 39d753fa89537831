//! The plain waves of a netlist, and a copy of one, if there is memory.
use crate::making::texts::fixed_keys;
use mp_model::plain_waves;
use mp_netlist::Netlist;
use mp_text::read_netlist;
use mp_wave::Wave;
use std::alloc::{AllocError, Global};
use std::test::Fail;

/// A C that hears its second input 2 units later, and a TOGGLE with an event at time 1.
const TEXT: &str =
    "horizon 12\nwire a 1 0\nwire b 1 0\nwire t 1 0\nwire u 1 0\nwire y 1 0\nmodule c C 0 0 0 : a b/2 > y/3\nmodule d TOGGLE : a > t/1 u/1\nstim a 1=1\nstim b 4=1\n";

/// Whether a wave rises at a time, and has no other change.
fn rises(wave: &Wave, time: u32) -> bool {
    let changes = wave.changes();
    changes.len() == 1 && changes.get(0) == Some((time, 1))
}

/// Whether there is a copy of the wave, which rises at a time.
fn is_copied(wave: &Wave, time: u32) -> Result<bool, AllocError> {
    Ok(rises(&wave.copy()?, time))
}

/// Whether the waves of what the modules drive are those of the netlist above.
fn has_waves(alloc: Global, netlist: &Netlist) -> Result<bool, AllocError> {
    let waves = plain_waves(alloc, netlist)?;
    let has = match waves.as_slice() {
        [_, _, Some(t), Some(u), Some(y)] if rises(t, 2) && u.changes().len() == 0 => {
            is_copied(y, 9)
        }
        _ => Ok(false),
    };
    drop(waves);
    has
}

#[test]
fn waves_of_a_netlist(rt: HostRuntime) -> Result<(), Fail> {
    let netlist = read_netlist(rt.alloc(), fixed_keys()?, TEXT.as_bytes())?;
    let has = has_waves(rt.alloc(), &netlist);
    drop(netlist);
    assert!(rt; has?);
    Ok(())
}
