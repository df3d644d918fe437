//! Debug texts.
use crate::drain::{DrainOf, Drainable};
use crate::entry::{Entry, OccupiedEntry, VacantEntry};
use crate::iter_mut::IterMut;
use crate::map::LinkedHashMap;
use crate::raw_entry::{
    RawEntryBuilder, RawEntryBuilderMut, RawEntryMut, RawOccupiedEntryMut, RawVacantEntryMut,
};
use crate::values_mut::ValuesMut;
use std::fmt;
use std::hash::{BuildHasher, Hash};

impl<K: Eq + Hash + fmt::Debug, V: fmt::Debug, S: BuildHasher> fmt::Debug
    for LinkedHashMap<K, V, S> {
    fn fmt<W: fmt::Write>(&self, f: &mut fmt::Formatter<W>) -> fmt::Result {
        f.debug_map().entries(self.iter()).finish()
    }
}

impl<'a, C: Drainable<K, V>, K: fmt::Debug, V: fmt::Debug> fmt::Debug for DrainOf<'a, C, K, V> {
    fn fmt<W: fmt::Write>(&self, f: &mut fmt::Formatter<W>) -> fmt::Result {
        self.chain.fmt(f)
    }
}

impl<'a, K: Eq + Hash + fmt::Debug, V: fmt::Debug, S: BuildHasher> fmt::Debug
    for IterMut<'a, K, V, S> {
    fn fmt<W: fmt::Write>(&self, f: &mut fmt::Formatter<W>) -> fmt::Result {
        let mut list = f.debug_list();
        let mut places = self.places;
        for _ in 0..self.places.left {
            if let Some(node) = places.take_first(self.map) {
                list.entry(&self.map.pair_at(node));
            }
        }
        list.finish()
    }
}

impl<'a, K: Eq + Hash, V: fmt::Debug, S: BuildHasher> fmt::Debug for ValuesMut<'a, K, V, S> {
    fn fmt<W: fmt::Write>(&self, f: &mut fmt::Formatter<W>) -> fmt::Result {
        let mut list = f.debug_list();
        let mut places = self.places;
        for _ in 0..self.places.left {
            if let Some(node) = places.take_first(self.map) {
                list.entry(self.map.pair_at(node).1);
            }
        }
        list.finish()
    }
}

/// Writes a tuple struct of this name with one field.
fn debug_wrapped<T: fmt::Debug, W: fmt::Write>(
    f: &mut fmt::Formatter<W>,
    name: &str,
    field: &T,
) -> fmt::Result {
    f.debug_tuple(name).field(field).finish()
}

/// Writes a struct of this name with a key and a value.
fn debug_pair<K: fmt::Debug, V: fmt::Debug, W: fmt::Write>(
    f: &mut fmt::Formatter<W>,
    name: &str,
    key: &K,
    value: &V,
) -> fmt::Result {
    f.debug_struct(name)
        .field("key", key)
        .field("value", value)
        .finish()
}

impl<'a, K: Eq + Hash + fmt::Debug, V: fmt::Debug, S: BuildHasher> fmt::Debug
    for Entry<'a, K, V, S> {
    fn fmt<W: fmt::Write>(&self, f: &mut fmt::Formatter<W>) -> fmt::Result {
        match self {
            Entry::Occupied(entry) => debug_wrapped(f, "Entry", entry),
            Entry::Vacant(entry) => debug_wrapped(f, "Entry", entry),
        }
    }
}

impl<'a, K: Eq + Hash + fmt::Debug, V: fmt::Debug, S: BuildHasher> fmt::Debug
    for OccupiedEntry<'a, K, V, S> {
    fn fmt<W: fmt::Write>(&self, f: &mut fmt::Formatter<W>) -> fmt::Result {
        debug_pair(f, "OccupiedEntry", self.key(), self.get())
    }
}

impl<'a, K: Eq + Hash + fmt::Debug, V, S: BuildHasher> fmt::Debug for VacantEntry<'a, K, V, S> {
    fn fmt<W: fmt::Write>(&self, f: &mut fmt::Formatter<W>) -> fmt::Result {
        debug_wrapped(f, "VacantEntry", self.key())
    }
}

impl<'a, K: Eq + Hash + fmt::Debug, V: fmt::Debug, S: BuildHasher> fmt::Debug
    for RawEntryMut<'a, K, V, S> {
    fn fmt<W: fmt::Write>(&self, f: &mut fmt::Formatter<W>) -> fmt::Result {
        match self {
            RawEntryMut::Occupied(entry) => debug_wrapped(f, "RawEntry", entry),
            RawEntryMut::Vacant(entry) => debug_wrapped(f, "RawEntry", entry),
        }
    }
}

impl<'a, K: Eq + Hash + fmt::Debug, V: fmt::Debug, S: BuildHasher> fmt::Debug
    for RawOccupiedEntryMut<'a, K, V, S> {
    fn fmt<W: fmt::Write>(&self, f: &mut fmt::Formatter<W>) -> fmt::Result {
        debug_pair(f, "RawOccupiedEntryMut", self.key(), self.get())
    }
}

impl<'a, K: Eq + Hash, V, S: BuildHasher> fmt::Debug for RawVacantEntryMut<'a, K, V, S> {
    fn fmt<W: fmt::Write>(&self, f: &mut fmt::Formatter<W>) -> fmt::Result {
        f.write_str("RawVacantEntryMut")
    }
}

impl<'a, K: Eq + Hash, V, S: BuildHasher> fmt::Debug for RawEntryBuilder<'a, K, V, S> {
    fn fmt<W: fmt::Write>(&self, f: &mut fmt::Formatter<W>) -> fmt::Result {
        f.write_str("RawEntryBuilder")
    }
}

impl<'a, K: Eq + Hash, V, S: BuildHasher> fmt::Debug for RawEntryBuilderMut<'a, K, V, S> {
    fn fmt<W: fmt::Write>(&self, f: &mut fmt::Formatter<W>) -> fmt::Result {
        f.write_str("RawEntryBuilder")
    }
}
