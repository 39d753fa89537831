//! The changes of an old run.
ghost use Rattle.std.specs.Prelude.{◌≡◌};
ghost use Rattle.mp_wave.specs.WaveChanges.{changes_in};
ghost use Rattle.mp_active.specs.compare.Comparing.{old_changes};

use mp_netlist::WireId;
use mp_partition::Run;
use mp_wave::WaveChanges;

/// All changes that a wire had in the old run.
#[inline(always)]
pub(crate) fn old_changes(run: &Run, wire: u32) -> WaveChanges<'_>
    ensures { changes_in result ≡ old_changes run.now wire }
{
    match run.wave(WireId(wire)) {
        Some(wave) => wave.changes(),
        None => WaveChanges::none(),
    }
}
