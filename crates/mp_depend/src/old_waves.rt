//! Waves of the old run.
ghost use Rattle.std.specs.Prelude.{◌≡◌};
ghost use Rattle.mp_depend.specs.OldWaves.{old_from};

/// From when on the wave of a wire is that of the old run, if the wire has had the old levels since a time, and units from an end on weren't gone
/// through.
pub fn old_from(since: u32, end: u32) -> u32
    ensures { result ≡ old_from since end }
{
    if since == 0 {
        return 0;
    }
    since.max(end)
}
