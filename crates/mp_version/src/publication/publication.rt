//! The one writer of what viewers read.
ghost use Rattle.std.specs.Prelude.{◌≡◌, ◌<◌, ◌^◌, ◌∷◌, ◌++◌, [], fold, drop, IfOk, MatchResult};
ghost use Rattle.left_right.specs.Sides.{view};
ghost use Rattle.mp_version.specs.publication.Chronicles.{Follows};

use crate::edit_keeper::EditKeeper;
use crate::publication::pass::Pass;
use crate::publication::publishing::{Brings, Extending, Known, Published, Starts};
use crate::version::Version;
use core::mem::replace_with;
use left_right::writer::Writer;
use std::alloc::{AllocError, Global};
use std::marker::Model;
use std::sync::Wait;

type RuledWriter = Writer<Published, Published, Known, Extending>;

/// There was no place for a reader.
#[derive(Clone, Copy)]
pub struct NoPlace;

/// The one writer. It keeps the handle, since its drop waits for readers in mid-read. A contract sees what is published.
pub struct Publication<R: Wait + Drop> {
    writer: RuledWriter,
    rt: R,
}

impl<R: Wait + Drop> Drop for Publication<R> {
    fn drop(self) {
        let Self { writer, rt } = self;
        drop(writer.take(&rt));
    }
}

impl<R: Wait + Drop> Model for Publication<R> {
    ghost use Rattle.std.specs.Prelude.{◌≡◌, ◌∷◌, []};
    ghost use Rattle.left_right.specs.Sides as sides;
    ghost use Rattle.mp_version.specs.publication.Chronicles.{Shown};

    ghost Value = { Shown };

    ghost view = { λ p. p.writer.desk.shown.value };

    ghost invariant = { λ p. sides.view p.writer.desk.place ≡ p.writer.desk.shown.value ∷ [] };
}

impl<R: Wait + Drop> Publication<R> {
    ghost use Rattle.std.specs.Prelude.{◌<◌, ◌≤◌, ◌^◌, All, IfOk, length, vec_len, vec_capacity};

    /// Publishes a first version, with room for this number of readers.
    pub(crate) fn new(
        rt: R,
        alloc: Global,
        first: Published,
        readers: usize,
    ) -> Result<Publication<R>, AllocError>
        requires room { (0 < readers) × (readers < 2 ^ 32) }
        ensures { IfOk result (λ p. p ≡ first) }
    {
        let writer = first_writer(&rt, alloc, first, readers)?;
        Ok(Publication { writer, rt })
    }

    /// A place for one more reader, which starts from what is published. It takes no memory.
    pub(crate) fn place(&mut self) -> Result<Pass, NoPlace>
        ensures same { self.new ≡ self.old }
        ensures place { IfOk result (λ p. p ≡ self.old ∷ []) }
    {
        let Ok(mut reader) = self.writer.factory().reader() else {
            return Err(NoPlace);
        };
        reader.learn::<Starts>(self.writer.tell::<Starts>());
        Ok(Pass { reader })
    }

    /// Adds this number of places to a list that has room for them. It takes no memory.
    pub fn places(&mut self, list: Vec<Pass>, count: usize) -> Result<Vec<Pass>, NoPlace>
        requires empty { list.items ≡ [] }
        requires room { count ≤ vec_capacity list }
        ensures same { self.new ≡ self.old }
        ensures count { IfOk result (λ v. vec_len v ≡ count) }
        ensures each { IfOk result (λ v. All (λ p. p ≡ self.old ∷ []) v.items) }
    {
        let mut list = list;
        for _i in 0..count {
            let place = self.place()?;
            list.push_reserved(place);
        }
        Ok(list)
    }

    /// What is published.
    pub fn published(&self) -> &Published
        ensures { result.now ≡ self.now }
    {
        self.writer.published()
    }

    /// The number of the published version.
    pub(crate) fn number(&self) -> u32
        ensures { result ≡ length self.now.story.edits }
    {
        let version: &Version = self.writer.published().version();
        version.number()
    }

    /// Publishes a version in place of the one before. Its edits are kept already, where they are kept. It waits for readers in mid-read.
    pub fn publish<K: EditKeeper>(&mut self, _keeper: &K, next: Published)
        requires follows { Follows next self.old }
        requires kept { K.keeps _keeper.now next.story }
        ensures { self.new ≡ next }
    {
        appended(&self.rt, &mut self.writer, next);
        replace_with(
            &mut self.writer,
            &self.rt,
            |writer: RuledWriter, rt: &R| -> (RuledWriter, ())
                requires { Follows (fold (λ _ v. v) writer.desk.shown.value (drop writer.behind writer.log.items)) writer.desk.shown.value }
                ensures { (result.0.desk.shown.value ≡ fold (λ _ v. v) writer.desk.shown.value (drop writer.behind writer.log.items)) × (view result.0.desk.place ≡ result.0.desk.shown.value ∷ []) }
            { (brought(rt, writer), ()) },
        )
    }
}

/// Publishes a first version, with room for this number of readers, and returns its writer.
fn first_writer<R: Wait>(
    rt: &R,
    alloc: Global,
    first: Published,
    readers: usize,
) -> Result<RuledWriter, AllocError>
    requires room { (0 < readers) × (readers < 2 ^ 32) }
    ensures { IfOk result (λ w. (w.desk.shown.value ≡ first) × (view w.desk.place ≡ w.desk.shown.value ∷ [])) }
{
    // dropped by calls: otherwise the drop of each part would stand here
    let Ok(again) = first.try_copy() else {
        drop(first);
        return Err(AllocError);
    };
    let Ok(writer) = new_writer(alloc, first, readers) else {
        drop(again);
        return Err(AllocError);
    };
    let writer = published_again(rt, writer, again)?;
    Ok(writer)
}

/// A writer with this version on both of its sides, with room for this number of readers.
fn new_writer(alloc: Global, first: Published, readers: usize) -> Result<RuledWriter, AllocError>
    requires room { (0 < readers) × (readers < 2 ^ 32) }
    ensures { IfOk result (λ w. (w.desk.shown.value ≡ first) × (drop w.behind w.log.items ≡ [])) }
{
    let Ok(second) = first.try_copy() else {
        drop(first);
        return Err(AllocError);
    };
    let writer = RuledWriter::new(alloc, first, second, readers)?;
    Ok(writer)
}

/// Has the writer publish once more what it has published, so that it knows that this was published.
fn published_again<R: Wait>(
    rt: &R,
    writer: RuledWriter,
    again: Published,
) -> Result<RuledWriter, AllocError>
    requires empty { drop writer.behind writer.log.items ≡ [] }
    requires same { again ≡ writer.desk.shown.value }
    ensures { IfOk result (λ w. (w.desk.shown.value ≡ again) × (view w.desk.place ≡ w.desk.shown.value ∷ [])) }
{
    let mut writer = writer;
    if writer.append(again).is_err() {
        drop(writer.take(rt));
        return Err(AllocError);
    }
    let (writer, shown) = published(rt, writer);
    if shown.is_err() {
        drop(writer.take(rt));
        return Err(AllocError);
    }
    Ok(writer)
}

fn published<R: Wait>(rt: &R, writer: RuledWriter) -> (RuledWriter, Result<(), AllocError>)
    requires { Follows (fold (λ _ v. v) writer.desk.shown.value (drop writer.behind writer.log.items)) writer.desk.shown.value }
    ensures { MatchResult result.1 (λ _. (result.0.desk.shown.value ≡ fold (λ _ v. v) writer.desk.shown.value (drop writer.behind writer.log.items)) × (view result.0.desk.place ≡ result.0.desk.shown.value ∷ [])) (λ _. (result.0.desk.shown.value ≡ writer.desk.shown.value) × (view result.0.desk.place ≡ view writer.desk.place) × (drop result.0.behind result.0.log.items ≡ drop writer.behind writer.log.items)) }
{
    writer.publish_as::<Brings, R>(rt)
}

/// Hands the version to the writer. Where there is no memory it tries again.
fn appended<R: Wait>(rt: &R, writer: &mut RuledWriter, next: Published)
    ensures desk { writer.new.desk ≡ writer.old.desk }
    ensures pending { drop writer.new.behind writer.new.log.items ≡ drop writer.old.behind writer.old.log.items ++ next ∷ [] }
{
    let mut next = next;
    for _ in rt.forever() {
        match writer.append(next) {
            Ok(()) => return,
            Err(back) => next = back,
        }
    }
    unreachable!()
}

/// Publishes what the writer has. Where it can't be done it tries again.
fn brought<R: Wait>(rt: &R, writer: RuledWriter) -> RuledWriter
    requires { Follows (fold (λ _ v. v) writer.desk.shown.value (drop writer.behind writer.log.items)) writer.desk.shown.value }
    ensures { (result.desk.shown.value ≡ fold (λ _ v. v) writer.desk.shown.value (drop writer.behind writer.log.items)) × (view result.desk.place ≡ result.desk.shown.value ∷ []) }
{
    let mut writer = writer;
    for _ in rt.forever() {
        let (next, done) = published(rt, writer);
        writer = next;
        if done.is_ok() {
            return writer;
        }
    }
    unreachable!()
}
