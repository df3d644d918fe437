//! The keyed list, by places. A place is a node of the list, or `None` for the guard, which is after the last
//! entry.
ghost use Rattle.std.specs.Prelude.{◌≡◌, ◌*◌, ◌^◌, ◌<◌, ◌≤◌, ◌↔◌, [], length, max, Ok, Err, IfOk};
ghost use Rattle.hashlink_core.specs.{Keyed.{keyed, entries_of, IsKeyed}, Tied.short};
ghost use Rattle.hashlink_table.specs.declared.error.TryReserveError.TheVariants.{CapacityOverflow};
ghost use Rattle.hashlink_table.specs.declared.table.TheConstants.{MAX_ROOM};

mod drains;
mod growth;
mod moves;
mod reads;
mod removals;
mod values;

use hashlink_nodes::{Node, Nodes};
use hashlink_table::{Table, TryReserveError};
use std::alloc::Global;
use std::hash::{BuildHasher, Hash};
use std::marker::Model;

// The part of a hash that the table knows, and that a node has as its number: the lower 32 bits.
#[inline]
fn short_hash(hash: u64) -> u32
    ensures { result ≡ short hash }
{
    (hash % (1 << 32)) as u32
}

/// A list of pairs in a ring of nodes, with a hash table of the nodes to find them. No two keys are equal.
pub struct KeyedList<K: Eq + Hash, V, S: BuildHasher> {
    nodes: Nodes<K, V>,
    table: Table<Node>,
    hash_builder: S,
}

impl<K: Eq + Hash, V, S: BuildHasher> Model for KeyedList<K, V, S> {
    ghost use Rattle.hashlink_core.specs.{Keyed.{Keyed, seen_as}, Tied.{hash_with, IsInStep}};

    ghost Value = { Keyed K V S };

    ghost view = { λ m. seen_as m.nodes m.table m.hash_builder };

    ghost invariant = { λ m. IsInStep K.eq
        (hash_with S.build_hasher S.Hasher.write S.Hasher.finish K.hash_input m.hash_builder)
        m.nodes m.table };
}

// Written by hand, so that a drop is one call. A derived drop would be inlined wherever a list is dropped.
impl<K: Eq + Hash + Drop, V: Drop, S: BuildHasher + Drop> Drop for KeyedList<K, V, S> {
    fn drop(self) {
        let KeyedList {
            nodes: _,
            table: _,
            hash_builder: _,
        } = self;
    }
}

impl<K: Eq + Hash, V, S: BuildHasher> KeyedList<K, V, S> {
    /// Creates an empty list. It does not allocate.
    pub fn with_hasher(alloc: Global, hash_builder: S) -> Self
        ensures { result ≡ keyed [] 0 0 0 hash_builder }
    {
        KeyedList {
            nodes: Nodes::new(alloc),
            table: Table::new(alloc, Node::nowhere()),
            hash_builder,
        }
    }

    /// Creates an empty list with room for `room` entries. If that is 0, it does not allocate.
    pub fn with_room(alloc: Global, room: usize, hash_builder: S) -> Result<Self, TryReserveError>
    where
        S: Drop,
        ensures empty { IfOk result (λ m. m ≡ keyed [] 0 m.room 0 hash_builder) }
        ensures room { IfOk result (λ m. room ≤ m.room) }
        ensures bound { IfOk result (λ m. m.room ≤ 2 * max 4 room) }
        ensures nothing { room ≡ 0 → result ≡ Ok (keyed [] 0 0 0 hash_builder) }
        ensures overflow { (result ≡ Err CapacityOverflow) ↔ (MAX_ROOM < room) }
    {
        let table = Table::with_room(alloc, Node::nowhere(), room)?;
        Ok(KeyedList {
            nodes: Nodes::new(alloc),
            table,
            hash_builder,
        })
    }

    /// Returns the number of entries.
    #[inline]
    pub fn len(&self) -> usize
        ensures len { result ≡ length (entries_of self.now) }
        ensures small { result < 2 ^ 63 }
        ensures sound { IsKeyed K.eq self.now }
    {
        self.nodes.len()
    }

    /// Returns the room: the number of entries and free nodes that the table can have together.
    #[inline]
    pub fn capacity(&self) -> usize
        ensures capacity { result ≡ self.now.room }
        ensures sound { IsKeyed K.eq self.now }
    {
        self.table.room()
    }

    /// Returns the allocator of the nodes.
    pub fn allocator(&self) -> Global
        ensures { IsKeyed K.eq self.now }
    {
        self.nodes.allocator()
    }

    /// Returns a reference to the list's `BuildHasher`.
    pub fn hasher(&self) -> &S
        ensures { result.now ≡ self.now.hasher }
    {
        &self.hash_builder
    }
}
