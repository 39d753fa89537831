//! What the lines of a check satisfy.
ghost use Rattle.mp_check.specs.CheckLaws.{ChecksAll};

/// A check of all modules and bundles over all times has all lines.
pub fn checks_all()
    ensures { ChecksAll }
{}
