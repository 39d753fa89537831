//! Designers and viewers at their places.
ghost use Rattle.std.specs.Prelude.{◌≡◌, ◌+◌, ◌∷◌, ◌<◌, [], vec_len, All, IfOk, OnOk};
ghost use Rattle.std.specs.Arc.{arc_value};
ghost use Rattle.mp_version.specs.publication.Chronicles.{unsigned};
ghost use Rattle.mp_desk.specs.Holders.{fresh_designer, fresh_viewer, AreFresh};

use crate::designer::Designer;
use crate::name::DeskName;
use crate::viewer::Viewer;
use mp_version::Version;
use mp_version::publication::{LogWriter, Pass};
use std::alloc::{AllocError, Global};
use std::marker::PhantomData;
use std::sync::Arc;
use std::sync::ledger::Share;

/// A designer for each place, numbered from 1.
pub(crate) fn designers_at<L: DeskName>(
    alloc: Global,
    places: Vec<Pass>,
    writer: &LogWriter,
    all: &mut Share<L>,
) -> Result<Vec<Designer<L>>, AllocError>
    requires book { writer.now.book ≡ L.history }
    requires authors { writer.now.authors ≡ unsigned writer.now.story }
    requires places { All (λ p. p ≡ record { book = L.history; story = writer.now.story } ∷ []) places.items }
    requires parts { all.old.parts ≡ vec_len places + 1 }
    ensures count { IfOk result (λ v. vec_len v ≡ vec_len places) }
    ensures each { IfOk result (λ v. AreFresh writer.now.story v.items) }
    ensures share { OnOk result ((all.new.parts ≡ 1) × (all.new.amount ≡ all.old.amount)) }
{
    let mut made = Vec::new(alloc);
    let mut places = places;
    while let Some(pass) = places.pop() {
        let next = designer_at(made.len() + 1, pass, writer, all);
        made.push(next)?;
    }
    Ok(made)
}

fn designer_at<L: DeskName>(
    number: usize,
    pass: Pass,
    writer: &LogWriter,
    all: &mut Share<L>,
) -> Designer<L>
    requires book { writer.now.book ≡ L.history }
    requires authors { writer.now.authors ≡ unsigned writer.now.story }
    requires pass { pass ≡ record { book = L.history; story = writer.now.story } ∷ [] }
    requires parts { 1 < all.old.parts }
    ensures designer { result ≡ fresh_designer number writer.now.story }
    ensures share { (all.new.parts + 1 ≡ all.old.parts) × (all.new.amount ≡ all.old.amount) }
{
    Designer {
        pass,
        seen: writer.prefix(),
        accepted: 0,
        number,
        signed: writer.authors(),
        share: all.split_off(1, 0),
    }
}

/// A viewer for each place.
pub(crate) fn viewers_at<L: DeskName>(
    alloc: Global,
    places: Vec<Pass>,
    version: &Arc<Version>,
    writer: &LogWriter,
) -> Result<Vec<Viewer<L>>, AllocError>
    requires book { writer.now.book ≡ L.history }
    requires story { writer.now.story ≡ arc_value version.now }
    requires authors { writer.now.authors ≡ unsigned writer.now.story }
    requires places { All (λ p. p ≡ record { book = L.history; story = arc_value version.now } ∷ []) places.items }
    ensures count { IfOk result (λ v. vec_len v ≡ vec_len places) }
    ensures each { IfOk result (λ v. All (λ d. d ≡ fresh_viewer (arc_value version.now)) v.items) }
{
    let mut made = Vec::new(alloc);
    let mut places = places;
    while let Some(pass) = places.pop() {
        let next = viewer_at(pass, version, writer)?;
        made.push(next)?;
    }
    Ok(made)
}

fn viewer_at<L: DeskName>(
    pass: Pass,
    version: &Arc<Version>,
    writer: &LogWriter,
) -> Result<Viewer<L>, AllocError>
    requires book { writer.now.book ≡ L.history }
    requires story { writer.now.story ≡ arc_value version.now }
    requires authors { writer.now.authors ≡ unsigned writer.now.story }
    requires pass { pass ≡ record { book = L.history; story = arc_value version.now } ∷ [] }
    ensures { IfOk result (λ v. v ≡ fresh_viewer (arc_value version.now)) }
{
    let last = Arc::try_clone(version)?;
    Ok(Viewer {
        pass,
        last,
        heard: writer.prefix(),
        floor: version.number(),
        signed: writer.authors(),
        of: PhantomData,
    })
}
