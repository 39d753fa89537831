//! Numbers by name.
ghost use Rattle.std.specs.Prelude.{◌≡◌, List, ℕ, cond, None, Some, IfOk, OnOk, OnErr, option_map};
ghost use Rattle.std.specs.Option.{option_and_then};
ghost use Rattle.std.specs.Str.{bytes_eq};
ghost use Rattle.std.specs.Arc.{arc_value};
ghost use Rattle.indexmap.specs.IndexMap.{get};

use indexmap::IndexMap;
use mp_records::Name;
use std::alloc::{AllocError, Global};
use std::hash::RandomState;
use std::sync::Arc;

/// Numbers by name. Names are hashed by keys that no author of names knows. What a copy gets is kept beside the numbers that it shares with others.
#[derive(Drop)]
pub struct Index {
    keys: RandomState,
    first: Option<Arc<IndexMap<Name, u32, RandomState>, Global>>,
    numbers: Option<Arc<IndexMap<Name, u32, RandomState>, Global>>,
}

impl Index {
    ghost use Rattle.std.specs.Prelude.{◌≡◌, List, ℕ, cond, None, Some, OnOk, OnErr, IfOk};
    ghost use Rattle.std.specs.Str.{bytes_eq};
    ghost use Rattle.mp_netlist.specs.Indexes.{number_in};

    /// An index without names.
    pub fn new(keys: RandomState) -> Index
        ensures { (name : List ℕ) → number_in result name ≡ None }
    {
        Index {
            keys,
            first: None,
            numbers: None,
        }
    }

    /// An index without names. It has room for this number of names, if there is memory for it.
    pub fn with_room(alloc: Global, keys: RandomState, room: usize) -> Index
        ensures { (name : List ℕ) → number_in result name ≡ None }
    {
        if room == 0 {
            return Index::new(keys);
        }
        match empty_map(alloc, keys, room) {
            Ok(numbers) => Index {
                keys,
                first: None,
                numbers: Some(numbers),
            },
            Err(_) => Index::new(keys),
        }
    }

    /// The keys by which names are hashed.
    pub fn keys(&self) -> RandomState {
        self.keys
    }

    /// The number of this name.
    pub fn get(&self, name: &Name) -> Option<u32>
        ensures { result ≡ number_in self.now name.now }
    {
        match number_of(&self.numbers, name) {
            Some(number) => Some(number),
            None => number_of(&self.first, name),
        }
    }

    /// Sets the number of this name. On an error each name keeps its number.
    pub fn insert(&mut self, alloc: Global, name: &Name, number: u32) -> Result<(), AllocError>
        ensures ok { OnOk result ((other : List ℕ) → number_in self.new other ≡ cond (bytes_eq name.now other) (Some number) (number_in self.old other)) }
        ensures err { OnErr result ((other : List ℕ) → number_in self.new other ≡ number_in self.old other) }
    {
        let key = name.clone()?;
        match &mut self.numbers {
            Some(shared) => insert_shared(shared, key, number)?,
            None => self.numbers = Some(only(alloc, self.keys, key, number)?),
        }
        Ok(())
    }

    /// A copy of the index. The two share memory until one of them changes.
    pub fn copy(&self) -> Result<Index, AllocError>
        ensures { IfOk result (λ copy. (name : List ℕ) → number_in copy name ≡ number_in self.now name) }
    {
        match &self.first {
            Some(_) => Ok(Index {
                keys: self.keys,
                first: shared(&self.first)?,
                numbers: shared(&self.numbers)?,
            }),
            None => Ok(Index {
                keys: self.keys,
                first: shared(&self.numbers)?,
                numbers: None,
            }),
        }
    }
}

/// The number of a name among shared numbers, if there are any.
fn number_of(
    numbers: &Option<Arc<IndexMap<Name, u32, RandomState>, Global>>,
    name: &Name,
) -> Option<u32>
    ensures { result ≡ option_and_then (λ shared. get bytes_eq (arc_value shared) name.now) numbers.now }
{
    match numbers {
        Some(shared) => shared.get(name).copied(),
        None => None,
    }
}

/// The same numbers once more, with no name copied.
fn shared(
    numbers: &Option<Arc<IndexMap<Name, u32, RandomState>, Global>>,
) -> Result<Option<Arc<IndexMap<Name, u32, RandomState>, Global>>, AllocError>
    ensures { IfOk result (λ same. option_map arc_value same ≡ option_map arc_value numbers.now) }
{
    match numbers {
        Some(shared) => Ok(Some(Arc::try_clone(shared)?)),
        None => Ok(None),
    }
}

/// An empty map with room for this number of names.
fn empty_map(
    alloc: Global,
    keys: RandomState,
    room: usize,
) -> Result<Arc<IndexMap<Name, u32, RandomState>, Global>, AllocError>
    ensures { IfOk result (λ shared. (name : List ℕ) → get bytes_eq (arc_value shared) name ≡ None) }
{
    let numbers = IndexMap::with_capacity_and_hasher(alloc, room, keys)?;
    Ok(Arc::new(alloc, numbers)?)
}

/// Sets the number of a name, in a copy if others share the index.
fn insert_shared(
    shared: &mut Arc<IndexMap<Name, u32, RandomState>, Global>,
    name: Name,
    number: u32,
) -> Result<(), AllocError>
    ensures ok { OnOk result ((other : List ℕ) → get bytes_eq (arc_value shared.new) other ≡ cond (bytes_eq name other) (Some number) (get bytes_eq (arc_value shared.old) other)) }
    ensures err { OnErr result ((other : List ℕ) → get bytes_eq (arc_value shared.new) other ≡ get bytes_eq (arc_value shared.old) other) }
{
    Arc::make_mut(shared)?.insert(name, number)?;
    Ok(())
}

/// The number of one name.
fn only(
    alloc: Global,
    keys: RandomState,
    name: Name,
    number: u32,
) -> Result<Arc<IndexMap<Name, u32, RandomState>, Global>, AllocError>
    ensures { IfOk result (λ shared. (other : List ℕ) → get bytes_eq (arc_value shared) other ≡ cond (bytes_eq name other) (Some number) None) }
{
    let mut numbers = IndexMap::with_hasher(alloc, keys);
    numbers.insert(name, number)?;
    Ok(Arc::new(alloc, numbers)?)
}
