//! How a place comes to the published version.
ghost use Rattle.std.specs.Prelude.{◌≡◌};
ghost use Rattle.mp_version.specs.publication.Chronicles.{Shown};
ghost use Rattle.mp_version.specs.publication.Knowing.{Has, KeepsRead, FollowsRead};

use crate::publication::pass::Pass;
use crate::publication::publication::Publication;
use std::sync::Wait;

/// Has a place read the published version: it enters until the version is the published one, by its number. The place has read some version of the same
/// history.
pub fn show<H: Wait, R: Wait + Drop>(rt: &H, publication: &Publication<R>, pass: &mut Pass)
    requires { (s : Shown) × Has pass.old s × (s.book ≡ publication.now.book) }
    ensures follows { FollowsRead publication.now pass.old }
    ensures kept { KeepsRead pass.old pass.new }
    ensures entered { Has pass.new publication.now }
{
    let number = publication.number();
    for _ in rt.forever() {
        if let Some((found, prefix)) = pass.look() {
            if found == number {
                let now = publication.published().prefix();
                prefix.agrees(now);
                return;
            }
        }
    }
    unreachable!()
}
