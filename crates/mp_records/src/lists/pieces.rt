//! A list in pieces that its copies share.
use crate::lists::kept::Kept;
use crate::lists::piece::{Piece, push_number};
use crate::lists::rows::Row;
use std::alloc::{AllocError, Global};
use std::marker::Model;

/// How many entries a piece has.
const PIECE: usize = 256;

/// A list. Its copies share its pieces until one of them writes there. Contracts see the list of its entries.
#[derive(Drop)]
pub struct Pieces<T: Kept> {
    shared: Vec<Piece<T>>,
    count: usize,
}

impl<T: Kept> Model for Pieces<T> {
    ghost use Rattle.std.specs.Prelude.{List};
    ghost use Rattle.mp_records.specs.lists.Cuts.{AreCut, joined, piece_len};

    ghost Value = { List T };

    ghost view = { λ list. joined list.shared.items };

    ghost invariant = { λ list. AreCut piece_len list.shared.items list.count };
}

impl<T: Kept> Pieces<T> {
    ghost use Rattle.std.specs.Prelude.{◌≡◌, ◌<◌, ◌++◌, ◌∷◌, [], IfOk, OnOk, OnErr, length, slice_set};
    ghost use Rattle.std.specs.List.{slice_get};
    ghost use Rattle.std.specs.Option.{option_copied};

    /// A list of nothing.
    pub fn new(alloc: Global) -> Pieces<T>
        ensures { result ≡ [] }
    {
        Pieces {
            shared: Vec::new(alloc),
            count: 0,
        }
    }

    /// How many entries it has.
    pub fn len(&self) -> usize
        ensures { result ≡ length self.now }
    {
        self.count
    }

    /// The entry at this index, where there is one.
    pub fn get(&self, index: usize) -> Option<&T>
        ensures { option_copied result ≡ slice_get self.now index }
    {
        match self.shared.get(index / PIECE) {
            Some(piece) => piece.get(index % PIECE),
            None => None,
        }
    }

    /// Adds an entry at the end.
    pub fn push(&mut self, entry: T) -> Result<(), AllocError>
        ensures ok { OnOk result (self.new ≡ self.old ++ entry ∷ []) }
        ensures err { OnErr result (self.new ≡ self.old) }
    {
        let Some(count) = self.count.checked_add(1) else {
            return Err(AllocError);
        };
        add_entry(&mut self.shared, self.count, entry)?;
        self.count = count;
        Ok(())
    }

    /// Puts an entry in the place of the one at this index.
    pub fn set(&mut self, index: usize, entry: T) -> Result<(), AllocError>
        requires within { index < length self.old }
        ensures ok { OnOk result (self.new ≡ slice_set self.old index entry) }
        ensures err { OnErr result (self.new ≡ self.old) }
    {
        set_at(&mut self.shared, index / PIECE, index % PIECE, entry)
    }

    /// The same list once more. Its pieces are those of this one.
    pub fn copy(&self) -> Result<Pieces<T>, AllocError>
        ensures { IfOk result (λ copy. copy ≡ self.now) }
    {
        Ok(Pieces {
            shared: Vec::from_clones(*self.shared.allocator(), self.shared.as_slice())?,
            count: self.count,
        })
    }

    /// Where its memory is from.
    pub fn allocator(&self) -> Global {
        *self.shared.allocator()
    }
}

ghost use Rattle.std.specs.Prelude.{◌≡◌, ◌<◌, ◌+◌, ◌++◌, ◌∷◌, [], OnOk, OnErr, length, slice_set, slice_index_or, vec_len};
ghost use Rattle.mp_records.specs.lists.Cuts.{AreCut, joined, piece_len};

/// Puts an entry into one of the pieces.
fn set_at<T: Kept>(
    shared: &mut Vec<Piece<T>>,
    piece: usize,
    place: usize,
    entry: T,
) -> Result<(), AllocError>
    requires piece { piece < vec_len shared.old }
    requires place { place < length (slice_index_or shared.old.items piece []) }
    ensures ok { OnOk result (shared.new.items ≡ slice_set shared.old.items piece (slice_set (slice_index_or shared.old.items piece []) place entry)) }
    ensures err { OnErr result (shared.new.items ≡ shared.old.items) }
{
    shared[piece].set(place, entry)
}

/// Adds an entry after so many: to the last piece, or as a new one where that is full.
fn add_entry<T: Kept>(shared: &mut Vec<Piece<T>>, count: usize, entry: T) -> Result<(), AllocError>
    requires cut { AreCut piece_len shared.old.items count }
    ensures cut { OnOk result (AreCut piece_len shared.new.items (count + 1)) }
    ensures ok { OnOk result (joined shared.new.items ≡ joined shared.old.items ++ entry ∷ []) }
    ensures err { OnErr result (shared.new.items ≡ shared.old.items) }
{
    let last = count / PIECE;
    if last < shared.len() {
        push_at(shared, last, entry)
    } else {
        add_piece(shared, entry)
    }
}

/// Adds an entry to one of the pieces.
fn push_at<T: Kept>(shared: &mut Vec<Piece<T>>, piece: usize, entry: T) -> Result<(), AllocError>
    requires piece { piece < vec_len shared.old }
    ensures ok { OnOk result (shared.new.items ≡ slice_set shared.old.items piece (slice_index_or shared.old.items piece [] ++ entry ∷ [])) }
    ensures err { OnErr result (shared.new.items ≡ shared.old.items) }
{
    shared[piece].push(entry)
}

/// Adds a piece of one entry.
fn add_piece<T: Kept>(shared: &mut Vec<Piece<T>>, entry: T) -> Result<(), AllocError>
    ensures ok { OnOk result (shared.new.items ≡ shared.old.items ++ (entry ∷ []) ∷ []) }
    ensures err { OnErr result (shared.new.items ≡ shared.old.items) }
{
    let alloc = *shared.allocator();
    shared.reserve(1)?;
    shared.push(Piece::of(alloc, entry)?).unwrap();
    Ok(())
}

/// Adds a number at the end of the row at this index.
pub fn push_to_row(rows: &mut Pieces<Row>, index: usize, number: u32) -> Result<(), AllocError>
    requires within { index < length rows.old }
    ensures ok { OnOk result (rows.new ≡ slice_set rows.old index (slice_index_or rows.old index [] ++ number ∷ [])) }
    ensures err { OnErr result (rows.new ≡ rows.old) }
{
    push_number_at(&mut rows.shared, index / PIECE, index % PIECE, number)
}

/// Adds a number at the end of a row of one of the pieces.
fn push_number_at(
    shared: &mut Vec<Piece<Row>>,
    piece: usize,
    place: usize,
    number: u32,
) -> Result<(), AllocError>
    requires piece { piece < vec_len shared.old }
    requires place { place < length (slice_index_or shared.old.items piece []) }
    ensures ok { OnOk result (shared.new.items ≡ slice_set shared.old.items piece (slice_set (slice_index_or shared.old.items piece []) place (slice_index_or (slice_index_or shared.old.items piece []) place [] ++ number ∷ []))) }
    ensures err { OnErr result (shared.new.items ≡ shared.old.items) }
{
    push_number(&mut shared[piece], place, number)
}
