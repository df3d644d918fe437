//! The room and the free nodes of a keyed list.
ghost use Rattle.std.specs.Prelude.{◌≡◌, ◌+◌, ◌<◌, ◌≤◌, ◌↔◌, [], length, Ok, Err, IsOk, OnOk, OnErr};
ghost use Rattle.hashlink_core.specs.{Keyed.{entries_of, IsKeyed}, Steps.GrowsRoom};
ghost use Rattle.hashlink_table.specs.declared.error.TryReserveError.TheVariants.{CapacityOverflow};
ghost use Rattle.hashlink_table.specs.declared.table.TheConstants.{MAX_ROOM};

use super::KeyedList;
use hashlink_table::TryReserveError;
use std::alloc::AllocError;
use std::hash::{BuildHasher, Hash};

impl<K: Eq + Hash, V, S: BuildHasher> KeyedList<K, V, S> {
    /// Makes room for `additional` more entries. If there is enough room, it does not allocate. If it fails,
    /// it changes nothing.
    pub fn reserve(&mut self, additional: usize) -> Result<(), TryReserveError>
        ensures ok { OnOk result (length self.old.nodes + additional ≤ self.new.room) }
        ensures grown { GrowsRoom additional self.old self.new }
        ensures unchanged { OnErr result (self.new ≡ self.old) }
        ensures enough { length self.old.nodes + additional ≤ self.old.room → IsOk result
            × (self.new ≡ self.old) }
        ensures overflow { (result ≡ Err CapacityOverflow) ↔ (MAX_ROOM < length self.old.nodes + additional) }
        ensures sound { IsKeyed K.eq self.old }
    {
        self.table.reserve(additional)
    }

    /// Releases the free nodes. The room stays.
    pub fn release_free(&mut self)
        ensures { self.new ≡ record self.old { spare = 0 } }
    {
        self.nodes.release_free();
    }

    /// Releases the free nodes, and then the room beyond the entries. If it fails, the room stays as it was.
    /// Without entries it cannot fail, and no room is left.
    pub fn shrink(&mut self) -> Result<(), AllocError>
        ensures ok { OnOk result (self.new ≡ record self.old { spare = 0; room = length self.old.nodes }) }
        ensures err { OnErr result (self.new ≡ record self.old { spare = 0 }) }
        ensures empty { self.old.nodes ≡ [] → IsOk result }
        ensures fits { length (entries_of self.old) ≤ self.old.room }
    {
        self.release_free();
        self.shrink_table()
    }

    /// Releases the room beyond the entries. No node may be free.
    fn shrink_table(&mut self) -> Result<(), AllocError>
        requires { self.old.spare ≡ 0 }
        ensures ok { OnOk result (self.new ≡ record self.old { room = length self.old.nodes }) }
        ensures unchanged { OnErr result (self.new ≡ self.old) }
        ensures empty { self.old.nodes ≡ [] → IsOk result }
        ensures sound { IsKeyed K.eq self.old }
    {
        self.table.shrink()
    }
}
