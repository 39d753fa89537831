//! Those who edit.
use crate::name::DeskName;
use mp_version::publication::{
    Authors, LogPrefix, LogWriter, Pass, Publication, ReadError, SignedVersion, show,
};
use std::marker::Model;
use std::sync::Wait;
use std::sync::ledger::{Book, Share};

/// Submits edits. A contract sees the version that was seen last, how many edits were accepted, the designer's number, the authors of that
/// version's edits, and all versions that were read at this place, the newest first.
#[derive(Drop)]
pub struct Designer<L: DeskName> {
    pub(crate) pass: Pass,
    /// How far the history had come that was seen last.
    pub(crate) seen: LogPrefix,
    pub(crate) accepted: u32,
    pub(crate) number: usize,
    /// Who made the history that was seen last.
    pub(crate) signed: Authors,
    pub(crate) share: Share<L>,
}

impl<L: DeskName> Model for Designer<L> {
    ghost use Rattle.std.specs.Prelude.{◌≡◌, length};
    ghost use Rattle.mp_version.specs.publication.Knowing.{Has, stories_of};
    ghost use Rattle.mp_desk.specs.Holders.{Working};

    ghost Value = { Working };

    ghost view = { λ d. record { seen = d.seen.story; accepted = d.accepted; number = d.number; signed = d.signed.authors; reads = stories_of d.pass } };

    ghost invariant = { λ d. Has d.pass d.seen × (d.seen.book ≡ L.history) × (d.signed.book ≡ L.history) × (length d.signed.authors ≡ length d.seen.story.edits) × (d.share.parts ≡ 1) × (d.share.amount ≡ d.accepted) };
}

impl<L: DeskName> Designer<L> {
    ghost use Rattle.std.specs.Prelude.{◌≡◌, ◌<◌, ◌+◌, ◌∷◌, length, IfOk, OnErr};
    ghost use Rattle.std.specs.Arc.{arc_value};
    ghost use mathlib.Core.List.{IsPrefix};
    ghost use Rattle.mp_version.specs.Limits.{max_edits};
    ghost use Rattle.mp_version.specs.Extending.{Extends};

    /// Reads the version that is published now, and not one that was kept, without waiting. Its authors begin with those that were known before.
    /// `Closed` comes if the desk is closed, and `OutOfMemory` if memory runs out; then the version seen last stays.
    pub fn read(&mut self) -> Result<SignedVersion, ReadError>
        ensures later { IfOk result (λ v. Extends (arc_value v.version) self.old.seen) }
        ensures seen { IfOk result (λ v. self.new.seen ≡ arc_value v.version) }
        ensures now { IfOk result (λ v. self.new.reads ≡ arc_value v.version ∷ self.old.reads) }
        ensures authors { IfOk result (λ v. (self.new.signed ≡ v.authors) × IsPrefix self.old.signed v.authors) }
        ensures err { OnErr result ((self.new.seen ≡ self.old.seen) × (self.new.signed ≡ self.old.signed)) }
        ensures each { length self.new.signed ≡ length self.new.seen.edits }
        ensures same { (self.new.accepted ≡ self.old.accepted) × (self.new.number ≡ self.old.number) }
    {
        let published = self.pass.enter()?;
        let prefix = published.prefix().again();
        let (version, signatures) = published.into_parts();
        let (list, authors) = signatures.into_parts();
        authors.begins_with(&self.signed);
        self.seen = prefix;
        self.signed = authors;
        Ok(SignedVersion {
            version,
            authors: list,
        })
    }

    /// Sees what is published, with its authors, who begin with those that were known earlier.
    pub(crate) fn catch_up<H: Wait, R: Wait + Drop>(
        &mut self,
        rt: &H,
        publication: &Publication<R>,
        writer: &LogWriter,
    )
        requires book { (publication.now.book ≡ L.history) × (writer.now.book ≡ L.history) }
        requires story { length writer.now.authors ≡ length publication.now.story.edits }
        ensures seen { self.new.seen ≡ publication.now.story }
        ensures extends { Extends publication.now.story self.old.seen }
        ensures begins { IsPrefix self.old.signed writer.now.authors }
        ensures signed { self.new.signed ≡ writer.now.authors }
        ensures same { (self.new.accepted ≡ self.old.accepted) × (self.new.number ≡ self.old.number) }
    {
        show(rt, publication, &mut self.pass);
        writer.begins_with(&self.signed);
        self.seen = publication.published().prefix().again();
        self.signed = writer.authors();
    }

    /// Counts an edit of this designer in the book.
    pub(crate) fn count(&mut self, book: &mut Book<L>)
        requires room { book.old.total < max_edits }
        ensures counted { (self.new.accepted ≡ self.old.accepted + 1) × (book.new.total ≡ book.old.total + 1) }
        ensures same { (self.new.seen ≡ self.old.seen) × (self.new.number ≡ self.old.number) × (self.new.signed ≡ self.old.signed) }
    {
        book.add(&mut self.share, 1);
        book.audit(&mut self.share);
        self.accepted += 1;
    }

    /// How many edits of this designer were accepted.
    pub fn accepted(&self) -> u32
        ensures { result ≡ self.now.accepted }
    {
        self.accepted
    }
}
