//! Accepted edits in order. A longer history shares all edits of a shorter one.
ghost use Rattle.std.specs.Prelude.{◌≡◌, ◌<◌, ◌++◌, ◌∷◌, IfOk, length, map, take};
ghost use Rattle.std.specs.Arc.{arc_value};

use mp_netlist::Edit;
use std::alloc::{AllocError, Global};
use std::marker::Model;
use std::sync::Arc;

/// How many edits a session may accept.
pub const MAX_EDITS: u32 = 4096;

/// The number of edits of a full chunk. To add an edit a history copies at most this many handles of each sort: those of its chunks, and those of the
/// edits after them.
const CHUNK_EDITS: usize = 64;

/// Some edits in order.
#[derive(Drop)]
struct Chunk {
    edits: Vec<Arc<Edit, Global>>,
}

impl Model for Chunk {
    ghost use Rattle.std.specs.Prelude.{List, map};
    ghost use Rattle.std.specs.Arc.{arc_value};
    ghost use Rattle.mp_records.specs.declared.edit.Edit.{Edit};

    ghost Value = { List Edit };

    ghost view = { λ chunk. map arc_value chunk.edits.items };
}

impl Chunk {
    ghost use Rattle.std.specs.Prelude.{[], ◌≤◌};
    ghost use Rattle.std.specs.Option.{option_copied};
    ghost use Rattle.std.specs.List.{slice_get};

    fn new(alloc: Global) -> Self
        ensures { result ≡ [] }
    {
        Chunk {
            edits: Vec::new(alloc),
        }
    }

    /// These edits with one more behind them.
    fn with(&self, alloc: Global, edit: Arc<Edit, Global>) -> Result<Self, AllocError>
        requires { length self.now < 64 }
        ensures { IfOk result (λ chunk. chunk ≡ self.now ++ arc_value edit ∷ []) }
    {
        let mut edits = with_room(alloc, self.edits.as_slice())?;
        edits.push(edit)?;
        Ok(Chunk { edits })
    }

    fn len(&self) -> usize
        ensures { result ≡ length self.now }
    {
        self.edits.len()
    }

    fn get(&self, index: usize) -> Option<&Edit>
        ensures { option_copied result ≡ slice_get self.now index }
    {
        match self.edits.get(index) {
            Some(edit) => Some(&**edit),
            None => None,
        }
    }
}

/// The accepted edits of a version, in order.
#[derive(Drop)]
pub struct History {
    chunks: Vec<Arc<Chunk, Global>>,
    last: Chunk,
}

impl Model for History {
    ghost use Rattle.std.specs.Prelude.{◌++◌, List};
    ghost use Rattle.std.specs.List.{flat_map};
    ghost use Rattle.std.specs.Arc.{arc_value};
    ghost use Rattle.mp_records.specs.declared.edit.Edit.{Edit};
    ghost use Rattle.mp_version.specs.Chunks.{AreChunks};

    ghost Value = { List Edit };

    ghost view = { λ history. flat_map arc_value history.chunks.items ++ history.last };

    ghost invariant = { λ history. AreChunks arc_value history.chunks.items history.last };
}

impl History {
    ghost use Rattle.std.specs.Prelude.{[], ◌≤◌};
    ghost use Rattle.std.specs.Option.{option_copied};
    ghost use Rattle.std.specs.List.{slice_get};
    ghost use Rattle.mp_version.specs.Limits.{max_edits};

    /// No edits.
    pub(crate) fn new(alloc: Global) -> Self
        ensures { result ≡ [] }
    {
        History {
            chunks: Vec::new(alloc),
            last: Chunk::new(alloc),
        }
    }

    /// These edits with one more behind them.
    pub(crate) fn with(&self, alloc: Global, edit: Arc<Edit, Global>) -> Result<Self, AllocError>
        requires { length self.now < max_edits }
        ensures { IfOk result (λ history. history ≡ self.now ++ arc_value edit ∷ []) }
    {
        let mut chunks = with_room(alloc, self.chunks.as_slice())?;
        let last = self.last.with(alloc, edit)?;
        if last.len() < CHUNK_EDITS {
            return Ok(History { chunks, last });
        }
        chunks.push(Arc::new(alloc, last)?)?;
        Ok(History {
            chunks,
            last: Chunk::new(alloc),
        })
    }

    /// How many edits they are, at most `MAX_EDITS`.
    pub fn len(&self) -> u32
        ensures value { result ≡ length self.now }
        ensures few { result ≤ max_edits }
    {
        (self.chunks.len() * CHUNK_EDITS + self.last.len()) as u32
    }

    /// The edit of this place, the first being 0.
    pub fn get(&self, index: u32) -> Option<&Edit>
        ensures { option_copied result ≡ slice_get self.now index }
    {
        let index = index as usize;
        let place = index / CHUNK_EDITS;
        if place < self.chunks.len() {
            self.chunks[place].get(index % CHUNK_EDITS)
        } else {
            self.last.get(index - self.chunks.len() * CHUNK_EDITS)
        }
    }
}

/// Handles of the same values, with room for one more.
fn with_room<T: Drop>(
    alloc: Global,
    handles: &[Arc<T, Global>],
) -> Result<Vec<Arc<T, Global>>, AllocError>
    requires { length handles.now < 4096 }
    ensures { IfOk result (λ copies. map arc_value copies.items ≡ map arc_value handles.now) }
{
    let mut copies = Vec::with_capacity(alloc, handles.len() + 1)?;
    for handle in handles {
        copies.push(Arc::try_clone(handle)?)?;
    }
    Ok(copies)
}
