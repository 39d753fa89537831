//! The authors of a version's edits, with what shows that they are.
ghost use Rattle.std.specs.Prelude.{◌≡◌};

use crate::publication::authors::Authors;
use crate::publication::edit_authors::EditAuthors;
use crate::publication::log_writer::LogWriter;
use std::alloc::AllocError;
use std::marker::Model;

/// The list of a version's authors, and the history by which it is known. A contract sees which history it is, and the authors.
#[derive(Drop)]
pub struct Signatures {
    list: EditAuthors,
    authors: Authors,
}

impl Model for Signatures {
    ghost use Rattle.std.specs.Prelude.{◌≡◌};
    ghost use Rattle.mp_version.specs.publication.Chronicles.{Signed};

    ghost Value = { Signed };

    ghost view = { λ s. s.authors };

    ghost invariant = { λ s. s.list ≡ s.authors.authors };
}

impl Signatures {
    ghost use Rattle.std.specs.Prelude.{◌≡◌, ◌++◌, ◌∷◌, [], length, IfOk};

    /// The list of what was written so far.
    pub fn of(list: EditAuthors, writer: &LogWriter) -> Signatures
        requires { list ≡ writer.now.authors }
        ensures { result ≡ record { book = writer.now.book; authors = writer.now.authors } }
    {
        Signatures {
            list,
            authors: writer.authors(),
        }
    }

    /// The list of what will have been written once this author writes.
    pub fn followed_by(&self, writer: &LogWriter, author: usize) -> Result<EditAuthors, AllocError>
        requires book { self.now.book ≡ writer.now.book }
        requires each { length self.now.authors ≡ length writer.now.authors }
        ensures { IfOk result (λ list. list ≡ writer.now.authors ++ author ∷ []) }
    {
        writer.begins_with(&self.authors);
        self.list.followed_by(author)
    }

    /// The list, and what shows that it is true.
    pub fn into_parts(self) -> (EditAuthors, Authors)
        ensures list { result.0 ≡ self.authors }
        ensures authors { result.1 ≡ self }
    {
        let Signatures { list, authors } = self;
        (list, authors)
    }

    /// The same once more.
    pub(crate) fn try_copy(&self) -> Result<Signatures, AllocError>
        ensures { IfOk result (λ s. s ≡ self.now) }
    {
        Ok(Signatures {
            list: self.list.try_copy()?,
            authors: self.authors.again(),
        })
    }
}
