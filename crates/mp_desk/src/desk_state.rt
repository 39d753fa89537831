//! What is under the lock of a desk.
ghost use Rattle.std.specs.Prelude.{◌≡◌, ◌≤◌, ◌++◌, ◌∷◌, [], length, IfOk, IfSome};
ghost use Rattle.std.specs.Arc.{arc_value};
ghost use Rattle.mp_version.specs.Limits.{max_edits};
ghost use Rattle.mp_version.specs.Extending.{Succeeds};
ghost use Rattle.mp_version.specs.publication.Chronicles.{written_on};

use crate::designer::Designer;
use crate::name::DeskName;
use crate::notice::Notice;
use crate::receipt::Receipt;
use crate::submit_error::SubmitError;
use mp_netlist::{Edit, EditError};
use mp_version::publication::{EditAuthors, LogWriter, Publication, Published, Signatures};
use mp_version::{EditKeeper, EditSession, Version};
use std::alloc::AllocError;
use std::marker::{Model, PhantomData};
use std::sync::ledger::{Book, Share};
use std::sync::{Arc, Wait};
use std::thread::Threads;

/// The session, what keeps its edits, the writer of its history, the publication, and the ledger's book with the desk's own share. A contract sees the
/// session's story, and whether edits can't be kept any more.
#[derive(Drop)]
pub(crate) struct DeskState<S: EditSession, K: EditKeeper, L: DeskName, R: Wait + Drop> {
    pub session: S,
    pub keeper: K,
    pub writer: LogWriter,
    pub publication: Publication<R>,
    pub book: Book<L>,
    pub share: Share<L>,
}

impl<S: EditSession, K: EditKeeper, L: DeskName, R: Wait + Drop> Model for DeskState<S, K, L, R> {
    ghost use Rattle.std.specs.Prelude.{◌≡◌, length};
    ghost use Rattle.mp_desk.specs.Keepers.{Standing};

    ghost Value = { Standing };

    ghost view = { λ k. record { story = S.story k.session; is_lost = K.is_lost k.keeper } };

    ghost invariant = { λ k. (k.publication ≡ record { book = L.history; story = S.story k.session }) × (k.writer.book ≡ L.history) × (k.writer.story ≡ S.story k.session) × (length k.writer.authors ≡ length (S.story k.session).edits) × (k.book.total ≡ length (S.story k.session).edits) × (k.share.parts ≡ 1) × (k.share.amount ≡ L.opening) × K.keeps k.keeper (S.story k.session) };
}

impl<S: EditSession, K: EditKeeper, L: DeskName, R: Wait + Drop> DeskState<S, K, L, R> {
    ghost use Rattle.std.specs.Prelude.{◌+◌, ◌⊎◌, true, false, Ok, IfOk, IfErr, OnOk, OnErr};
    ghost use Rattle.std.specs.Arc.{arc_value};
    ghost use mathlib.Core.List.{IsPrefix};
    ghost use Rattle.mp_records.specs.declared.edit_error.EditError.TheVariants.{OutOfMemory};
    ghost use Rattle.mp_version.specs.Stories.{one_more};
    ghost use Rattle.mp_version.specs.Steps.{story_after};
    ghost use Rattle.mp_version.specs.Extending.{Extends};
    ghost use Rattle.mp_desk.specs.Holders.{Signs};
    ghost use Rattle.mp_desk.specs.Keepers.{MayBeLost, NotAccepted};
    ghost use Rattle.mp_desk.specs.declared.submit_error.SubmitError.TheVariants as errors;

    /// Judges an edit, and if it is accepted keeps it, and then publishes the version after it. Where edits can't be kept any more it is refused.
    pub(crate) fn submit<H: Threads + Wait + Sync>(
        &mut self,
        rt: &H,
        me: &mut Designer<L>,
        edit: Edit,
    ) -> Result<Receipt<L>, SubmitError>
        ensures extends { Extends self.old.story me.old.seen }
        ensures accepted { IfOk result (λ r. arc_value r.version ≡ one_more self.old.story edit) }
        ensures notice { IfOk result (λ r. r.notice ≡ arc_value r.version) }
        ensures seen { IfOk result (λ r. me.new.seen ≡ arc_value r.version) }
        ensures counted { IfOk result (λ _. me.new.accepted ≡ me.old.accepted + 1) }
        ensures signed { IfOk result (λ r. Signs me.old me.new (arc_value r.version)) }
        ensures refused { IfErr result (λ error. NotAccepted K.is_lost me.old.seen me.new.seen edit error) }
        ensures lost { self.old.is_lost ≡ true → OnOk result ⊥ × IfErr result (λ error. error ≡ errors.NotKept) × (self.new ≡ self.old) }
        ensures same { OnErr result (self.new.story ≡ self.old.story) }
        ensures uncounted { OnErr result (me.new.accepted ≡ me.old.accepted) }
        ensures begins { IsPrefix me.old.signed me.new.signed }
        ensures each { length me.new.signed ≡ length me.new.seen.edits }
        ensures number { me.new.number ≡ me.old.number }
        ensures forward { OnErr result (Extends me.new.seen me.old.seen) }
    {
        me.catch_up(rt, &self.publication, &self.writer);
        if self.keeper.is_lost() {
            drop(edit);
            return Err(SubmitError::NotKept);
        }
        let prepared = self.session.prepare(rt, edit)?;
        match self.accept(rt, me, prepared) {
            Ok(receipt) => Ok(receipt),
            Err(error) => Err(error),
        }
    }

    /// Makes an edit that this designer has had prepared: keeps it, and then publishes the version after it. What can fail comes before it is kept,
    /// or is that. `OutOfMemory` comes if memory runs out, and `NotKept` if it can't be kept: then all stays.
    fn accept<H: Wait>(
        &mut self,
        rt: &H,
        me: &mut Designer<L>,
        prepared: S::Prepared,
    ) -> Result<Receipt<L>, SubmitError>
        requires fits { (S.step prepared).before ≡ self.old.story }
        requires seen { me.old.seen ≡ self.old.story }
        requires whole { self.old.is_lost ≡ false }
        ensures accepted { IfOk result (λ r. arc_value r.version ≡ story_after (S.step prepared)) }
        ensures notice { IfOk result (λ r. r.notice ≡ arc_value r.version) }
        ensures seen { IfOk result (λ r. me.new.seen ≡ arc_value r.version) }
        ensures counted { IfOk result (λ _. me.new.accepted ≡ me.old.accepted + 1) }
        ensures signed { IfOk result (λ r. Signs me.old me.new (arc_value r.version)) }
        ensures number { me.new.number ≡ me.old.number }
        ensures refused { IfErr result (λ error. (error ≡ errors.Refused OutOfMemory) ⊎ ((error ≡ errors.NotKept) × MayBeLost K.is_lost)) }
        ensures same { OnErr result ((self.new.story ≡ self.old.story) × (me.new ≡ me.old)) }
    {
        let next = S::next_version(&prepared);
        let Some(draft) = draft_of(self.publication.published(), &self.writer, next, me.number)
        else {
            return Err(SubmitError::Refused(EditError::OutOfMemory));
        };
        // dropped by calls: otherwise the drop of each part would stand here
        if self.keeper.keep(S::edit(&prepared)).is_err() {
            drop(draft);
            drop(prepared);
            return Err(SubmitError::NotKept);
        }
        let (receipt, next) = write_version(rt, &mut self.writer, draft, me.number);
        self.publication.publish(&self.keeper, next);
        self.session.commit(prepared);
        me.catch_up(rt, &self.publication, &self.writer);
        me.count(&mut self.book);
        Ok(receipt)
    }
}

/// The next version, held for the receipt and for readers, with who made its edits. It has all the memory that its publication takes.
#[derive(Drop)]
struct Draft {
    version: Arc<Version>,
    next: Arc<Version>,
    list: EditAuthors,
}

/// The draft of the next version, by this author, behind what is published. `None` comes if memory runs out.
fn draft_of(
    published: &Published,
    writer: &LogWriter,
    version: &Arc<Version>,
    author: usize,
) -> Option<Draft>
    requires published { (published.now.book ≡ writer.now.book) × (published.now.story ≡ writer.now.story) }
    requires each { length writer.now.authors ≡ length writer.now.story.edits }
    ensures versions { IfSome result (λ d. (arc_value d.version ≡ arc_value version.now) × (arc_value d.next ≡ arc_value version.now)) }
    ensures list { IfSome result (λ d. d.list ≡ writer.now.authors ++ author ∷ []) }
{
    let (version, next) = owners(version).ok()?;
    let list = published.signatures().followed_by(writer, author).ok()?;
    Some(Draft {
        version,
        next,
        list,
    })
}

/// Adds a version by this author to the history, and returns its receipt and what is to be published of it.
fn write_version<L: DeskName, H: Wait>(
    rt: &H,
    writer: &mut LogWriter,
    draft: Draft,
    author: usize,
) -> (Receipt<L>, Published)
    requires book { writer.old.book ≡ L.history }
    requires each { length writer.old.authors ≡ length writer.old.story.edits }
    requires follows { Succeeds (arc_value draft.version) writer.old.story }
    requires same { arc_value draft.next ≡ arc_value draft.version }
    requires list { draft.list ≡ writer.old.authors ++ author ∷ [] }
    ensures writer { writer.new ≡ written_on writer.old (arc_value draft.version) author }
    ensures version { arc_value result.0.version ≡ arc_value draft.version }
    ensures notice { result.0.notice ≡ arc_value draft.version }
    ensures few { length (arc_value draft.version).edits ≤ max_edits }
    ensures published { result.1 ≡ record { book = L.history; story = arc_value draft.version } }
{
    let Draft {
        version,
        next,
        list,
    } = draft;
    writer.add(rt, &version, author);
    let notice = Notice {
        prefix: writer.prefix(),
        number: version.number(),
        of: PhantomData,
    };
    let signatures = Signatures::of(list, writer);
    let next = Published::new(next, writer.prefix(), signatures);
    (Receipt { version, notice }, next)
}

/// Two owners of one version.
fn owners(version: &Arc<Version>) -> Result<(Arc<Version>, Arc<Version>), AllocError>
    ensures { IfOk result (λ v. (arc_value v.0 ≡ arc_value version.now) × (arc_value v.1 ≡ arc_value version.now)) }
{
    Ok((Arc::try_clone(version)?, Arc::try_clone(version)?))
}
