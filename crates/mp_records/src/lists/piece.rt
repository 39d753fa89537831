//! A piece that lists share.
ghost use Rattle.std.specs.Prelude.{◌≡◌, ◌<◌, ◌++◌, ◌∷◌, [], OnOk, OnErr, length, slice_index_or, vec_len, slice_set};
ghost use Rattle.std.specs.Arc.{arc_value};

use crate::lists::kept::Kept;
use crate::lists::rows::{Row, push_number_in};
use std::alloc::{AllocError, Global};
use std::marker::Model;
use std::sync::Arc;

/// Entries that several lists may have. Contracts see their list.
#[derive(Drop)]
pub(crate) struct Piece<T: Kept> {
    entries: Arc<Vec<T>, Global>,
}

impl<T: Kept> Model for Piece<T> {
    ghost use Rattle.std.specs.Prelude.{List};
    ghost use Rattle.std.specs.Arc.{arc_value};

    ghost Value = { List T };

    ghost view = { λ piece. (arc_value piece.entries).items };
}

impl<T: Kept> Clone for Piece<T> {
    ghost use Rattle.std.specs.Prelude.{◌≡◌};

    ghost is_clone = { λ old new. new ≡ old };

    /// The same piece once more, with no entry copied.
    fn clone(&self) -> Result<Piece<T>, AllocError> {
        Ok(Piece {
            entries: Arc::try_clone(&self.entries)?,
        })
    }
}

impl<T: Kept> Piece<T> {
    ghost use Rattle.std.specs.Prelude.{◌≡◌, ◌<◌, ◌++◌, ◌∷◌, [], IfOk, OnOk, OnErr, length, slice_set};
    ghost use Rattle.std.specs.List.{slice_get};
    ghost use Rattle.std.specs.Option.{option_copied};

    /// A piece of one entry.
    pub(crate) fn of(alloc: Global, entry: T) -> Result<Piece<T>, AllocError>
        ensures { IfOk result (λ piece. piece ≡ entry ∷ []) }
    {
        let mut entries = Vec::new(alloc);
        entries.push(entry)?;
        Ok(Piece {
            entries: Arc::new(alloc, entries)?,
        })
    }

    /// The entry at this place, where there is one.
    pub(crate) fn get(&self, place: usize) -> Option<&T>
        ensures { option_copied result ≡ slice_get self.now place }
    {
        self.entries.get(place)
    }

    /// Adds an entry at the end, in a copy where others have the piece too.
    pub(crate) fn push(&mut self, entry: T) -> Result<(), AllocError>
        ensures ok { OnOk result (self.new ≡ self.old ++ entry ∷ []) }
        ensures err { OnErr result (self.new ≡ self.old) }
    {
        push_in(&mut self.entries, entry)
    }

    /// Puts an entry in the place of another, in a copy where others have the piece too.
    pub(crate) fn set(&mut self, place: usize, entry: T) -> Result<(), AllocError>
        requires { place < length self.old }
        ensures ok { OnOk result (self.new ≡ slice_set self.old place entry) }
        ensures err { OnErr result (self.new ≡ self.old) }
    {
        set_in(&mut self.entries, place, entry)
    }
}

/// Adds a number at the end of a row of a piece, in a copy where others have the piece too.
pub(crate) fn push_number(
    piece: &mut Piece<Row>,
    place: usize,
    number: u32,
) -> Result<(), AllocError>
    requires { place < length piece.old }
    ensures ok { OnOk result (piece.new ≡ slice_set piece.old place (slice_index_or piece.old place [] ++ number ∷ [])) }
    ensures err { OnErr result (piece.new ≡ piece.old) }
{
    push_number_in(&mut piece.entries, place, number)
}

/// Adds an entry at the end, in a copy where others look there too.
fn push_in<T: Kept>(entries: &mut Arc<Vec<T>, Global>, entry: T) -> Result<(), AllocError>
    ensures ok { OnOk result ((arc_value entries.new).items ≡ (arc_value entries.old).items ++ entry ∷ []) }
    ensures err { OnErr result ((arc_value entries.new).items ≡ (arc_value entries.old).items) }
{
    Arc::make_mut(entries)?.push(entry)?;
    Ok(())
}

/// Puts an entry in the place of another, in a copy where others look there too.
fn set_in<T: Kept>(
    entries: &mut Arc<Vec<T>, Global>,
    place: usize,
    entry: T,
) -> Result<(), AllocError>
    requires { place < vec_len (arc_value entries.old) }
    ensures ok { OnOk result ((arc_value entries.new).items ≡ slice_set (arc_value entries.old).items place entry) }
    ensures err { OnErr result ((arc_value entries.new).items ≡ (arc_value entries.old).items) }
{
    Arc::make_mut(entries)?[place] = entry;
    Ok(())
}
