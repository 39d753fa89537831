//! How designers and viewers leave a desk that is closed.
ghost use Rattle.std.specs.Prelude.{◌≡◌, ◌+◌, length, vec_len, All};
ghost use mathlib.Core.List.{IsPrefix};
ghost use Rattle.mp_version.specs.Extending.{Extends};
ghost use Rattle.mp_desk.specs.Holders.{ExtendsEach, BeginWithEach, GoesOn, accepted_by, HaveSeenTheSame};

use crate::designer::Designer;
use crate::name::DeskName;
use crate::viewer::Viewer;
use mp_version::publication::{LogWriter, Publication, show};
use std::sync::Wait;
use std::sync::ledger::Share;

/// Parts with all designers.
pub(crate) fn part_designers<L: DeskName, R: Wait + Drop>(
    rt: &R,
    publication: &Publication<R>,
    writer: &LogWriter,
    designers: Vec<Designer<L>>,
    all: &mut Share<L>,
)
    requires book { (publication.now.book ≡ L.history) × (writer.now.book ≡ L.history) }
    requires story { length writer.now.authors ≡ length publication.now.story.edits }
    ensures extends { ExtendsEach publication.now.story designers.items }
    ensures signed { BeginWithEach writer.now.authors designers.items }
    ensures share { (all.new.parts ≡ all.old.parts + vec_len designers) × (all.new.amount ≡ all.old.amount + accepted_by designers.items) }
{
    let mut designers = designers;
    while let Some(designer) = designers.pop() {
        part(rt, publication, writer, designer, all);
    }
}

/// Shows a designer what is published, for the last time, and takes the share.
fn part<L: DeskName, R: Wait + Drop>(
    rt: &R,
    publication: &Publication<R>,
    writer: &LogWriter,
    designer: Designer<L>,
    all: &mut Share<L>,
)
    requires book { (publication.now.book ≡ L.history) × (writer.now.book ≡ L.history) }
    requires story { length writer.now.authors ≡ length publication.now.story.edits }
    ensures extends { Extends publication.now.story designer.seen }
    ensures signed { IsPrefix designer.signed writer.now.authors }
    ensures share { (all.new.parts ≡ all.old.parts + 1) × (all.new.amount ≡ all.old.amount + designer.accepted) }
{
    let Designer {
        mut pass,
        seen: _seen,
        accepted: _,
        number: _,
        signed,
        share,
    } = designer;
    show(rt, publication, &mut pass);
    writer.begins_with(&signed);
    all.merge(share);
}

/// Parts with the viewers that are lent.
pub(crate) fn part_viewers<L: DeskName, R: Wait + Drop>(
    rt: &R,
    publication: &Publication<R>,
    writer: &LogWriter,
    viewers: &mut [Viewer<L>],
)
    requires book { (publication.now.book ≡ L.history) × (writer.now.book ≡ L.history) }
    requires story { length writer.now.authors ≡ length publication.now.story.edits }
    ensures same { HaveSeenTheSame viewers.old viewers.new }
    ensures looked { All (λ v. GoesOn publication.now.story writer.now.authors v.last v.signed) viewers.old }
{
    for i in 0..viewers.len() {
        viewers[i].part(rt, publication, writer);
    }
}
