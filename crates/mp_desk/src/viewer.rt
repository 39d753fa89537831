//! Those who look.
use crate::name::DeskName;
use crate::notice::Notice;
use mp_version::Version;
use mp_version::publication::{
    Authors, LogPrefix, LogWriter, Pass, Publication, ReadError, SignedVersion, show,
};
use std::marker::{Model, PhantomData};
use std::sync::{Arc, Wait};

/// Reads versions without waiting. A contract sees the version that was read last, the longest of those that were learnt of, all that were read at
/// this place, the newest first, and who made the edits of the version that was read last.
#[derive(Drop)]
pub struct Viewer<L: DeskName> {
    pub(crate) pass: Pass,
    pub(crate) last: Arc<Version>,
    pub(crate) heard: LogPrefix,
    /// The number of the latest version that the viewer has read or been told of.
    pub(crate) floor: u32,
    /// Who made the history up to the version that was read last.
    pub(crate) signed: Authors,
    pub(crate) of: PhantomData<L>,
}

impl<L: DeskName> Model for Viewer<L> {
    ghost use Rattle.std.specs.Prelude.{◌≡◌, length};
    ghost use Rattle.std.specs.Arc.{arc_value};
    ghost use Rattle.mp_version.specs.publication.Knowing.{Has, stories_of};
    ghost use Rattle.mp_desk.specs.Holders.{Seeing};

    ghost Value = { Seeing };

    ghost view = { λ v. record { last = arc_value v.last; learnt = v.heard.story; reads = stories_of v.pass; signed = v.signed.authors } };

    ghost invariant = { λ v. Has v.pass (record { book = L.history; story = arc_value v.last }) × (v.heard.book ≡ L.history) × (v.floor ≡ length v.heard.story.edits) × (v.signed.book ≡ L.history) × (length v.signed.authors ≡ length (arc_value v.last).edits) };
}

impl<L: DeskName> Viewer<L> {
    ghost use Rattle.std.specs.Prelude.{◌≡◌, ◌⊎◌, ◌∷◌, length, IfOk, OnErr};
    ghost use Rattle.std.specs.Arc.{arc_value};
    ghost use mathlib.Core.List.{IsPrefix};
    ghost use Rattle.mp_version.specs.Extending.{Extends};
    ghost use Rattle.mp_desk.specs.Holders.{GoesOn};

    /// The version that was read last; at first the one with which the desk was opened.
    pub fn last(&self) -> &Arc<Version>
        ensures { arc_value result.now ≡ self.now.last }
    {
        &self.last
    }

    /// Reads the version that is published now, and not one that was kept, without waiting. Its authors begin with those that were known before.
    /// `Closed` comes if the desk is closed, and `OutOfMemory` if memory runs out; then the version read last stays.
    pub fn read(&mut self) -> Result<SignedVersion, ReadError>
        ensures later { IfOk result (λ v. Extends (arc_value v.version) self.old.last) }
        ensures told { IfOk result (λ v. Extends (arc_value v.version) self.old.learnt) }
        ensures last { IfOk result (λ v. self.new.last ≡ arc_value v.version) }
        ensures now { IfOk result (λ v. self.new.reads ≡ arc_value v.version ∷ self.old.reads) }
        ensures authors { IfOk result (λ v. (self.new.signed ≡ v.authors) × IsPrefix self.old.signed v.authors) }
        ensures each { length self.new.signed ≡ length self.new.last.edits }
        ensures err { OnErr result ((self.new.last ≡ self.old.last) × (self.new.signed ≡ self.old.signed)) }
        ensures learnt { self.new.learnt ≡ self.old.learnt }
    {
        let published = self.pass.enter()?;
        let number = published.version().number();
        if number < self.floor {
            // The version of a notice was published before the notice was made, so this doesn't happen.
            drop(published);
            return Err(ReadError::Closed);
        }
        published.prefix().agrees(&self.heard);
        let (version, signatures) = published.into_parts();
        let copy = Arc::try_clone(&version).map_err(|_| ReadError::OutOfMemory)?;
        let (list, authors) = signatures.into_parts();
        authors.begins_with(&self.signed);
        self.last = copy;
        self.signed = authors;
        Ok(SignedVersion {
            version,
            authors: list,
        })
    }

    /// Shows the viewer what is published, for the last time.
    pub(crate) fn part<R: Wait + Drop>(
        &mut self,
        rt: &R,
        publication: &Publication<R>,
        writer: &LogWriter,
    )
        requires book { (publication.now.book ≡ L.history) × (writer.now.book ≡ L.history) }
        requires story { length writer.now.authors ≡ length publication.now.story.edits }
        ensures same { (self.new.last ≡ self.old.last) × (self.new.learnt ≡ self.old.learnt) × (self.new.signed ≡ self.old.signed) }
        ensures looked { GoesOn publication.now.story writer.now.authors self.old.last self.old.signed }
    {
        show(rt, publication, &mut self.pass);
        writer.begins_with(&self.signed);
    }

    /// From now on each read is at least as new as the version of the notice. It doesn't wait, and takes no memory.
    pub fn learn(&mut self, notice: &Notice<L>)
        ensures same { (self.new.last ≡ self.old.last) × (self.new.reads ≡ self.old.reads) × (self.new.signed ≡ self.old.signed) }
        ensures learnt { Extends self.new.learnt notice.now }
        ensures kept { Extends self.new.learnt self.old.learnt }
        ensures one { (self.new.learnt ≡ notice.now) ⊎ (self.new.learnt ≡ self.old.learnt) }
    {
        if notice.number > self.floor {
            notice.prefix.agrees(&self.heard);
            self.heard = notice.prefix.again();
            self.floor = notice.number;
        } else {
            self.heard.agrees(&notice.prefix);
        }
    }
}
