//! Writes all of some bytes to a sink.
ghost use Rattle.std.specs.Prelude.{◌≡◌, ◌-◌, ◌^◌, ◌<◌, OnOk, OnErr};
ghost use Rattle.std.specs.Io.KnownBytes.{Appends};
ghost use Rattle.mp_streams.specs.StreamBytes.{AppendsPrefix};
ghost use Rattle.mp_streams.specs.StreamFaults.{counted};

use crate::failed::Failed;
use crate::sink::Sink;

/// Writes all of the bytes, in order. `Failed` comes with the first fault of the sink; then it has taken some first bytes, but not all.
pub fn put_all<S: Sink>(sink: &mut S, bytes: &[u8]) -> Result<(), Failed>
    ensures all { OnOk result (Appends (S.taken sink.old) (S.taken sink.new) bytes.now) }
    ensures failed { OnErr result (AppendsPrefix (S.taken sink.old) (S.taken sink.new) bytes.now) }
    ensures faults { S.fault_count sink.new ≡ counted result (S.fault_count sink.old) }
{
    let mut done = 0;
    while done < bytes.len() {
        done += sink.put(&bytes[done..])?;
    }
    Ok(())
}
