//! Calls that take the entries of a keyed list out, to drain them, and take their blocks back.
ghost use Rattle.std.specs.Prelude.{◌≡◌, length};
ghost use Rattle.hashlink_core.specs.Keyed.{state_of, IsKeyed};
ghost use Rattle.hashlink_core.specs.Drained.{CanDrain, state_with, with_free};

use super::KeyedList;
use hashlink_nodes::{Chain, FreeBlock};
use std::hash::{BuildHasher, Hash};

impl<K: Eq + Hash, V, S: BuildHasher> KeyedList<K, V, S> {
    /// Takes all entries out. The list is then empty, and keeps its room and its free nodes. It takes linear
    /// time in the number of buckets, stores at most two links, and hashes nothing.
    pub fn take_entries(&mut self) -> Chain<K, V>
        ensures taken { state_with (state_of self.new) result ≡ state_of self.old }
        ensures fits { CanDrain (state_of self.new) (length result) }
        ensures sound { IsKeyed K.eq self.old }
    {
        self.table.clear();
        self.nodes.take_entries()
    }

    /// Takes the block of an entry that was taken out back, as the first free node. It stores one link.
    #[inline(always)]
    pub fn keep_free(&mut self, block: FreeBlock<K, V>)
        requires { CanDrain (state_of self.old) 1 }
        ensures { state_of self.new ≡ with_free (state_of self.old) }
    {
        self.nodes.keep_free(block);
    }
}
