//! Comparisons of maps, by their entries in order. Their hashers do not matter.
ghost use Rattle.hashlink_map.specs.Compared.{maps_eq, maps_cmp, maps_partial_cmp, maps_per, maps_equiv};
ghost use Rattle.hashlink_map.specs.Compared.{maps_po, maps_total, maps_agree, maps_tie};

use crate::map::LinkedHashMap;
use hashlink_core::{iter_cmp, iter_eq, iter_partial_cmp};
use std::cmp::Ordering;
use std::hash::{BuildHasher, Hash};

/// Two maps are equal if they have the same number of entries, and at each place equal keys and equal values.
/// A comparison takes linear time, up to the first entry that differs, and constant time if the numbers
/// differ.
impl<K: Eq + Hash, V: PartialEq, S: BuildHasher> PartialEq for LinkedHashMap<K, V, S> {
    ghost eq = { maps_eq K.eq V.eq };

    ghost laws = { maps_per K.Eq.laws V.laws };

    fn eq(&self, other: &LinkedHashMap<K, V, S>) -> bool {
        iter_eq(self.iter(), other.iter())
    }
}

impl<K: Eq + Hash, V: Eq, S: BuildHasher> Eq for LinkedHashMap<K, V, S> {
    ghost laws = { maps_equiv K.Eq.laws V.Eq.laws };
}

/// Maps are ordered by the first place at which their entries do not compare as equal, key before value. A
/// map whose entries are the beginning of another's is less. A comparison takes linear time in the smaller
/// number of entries, up to that place.
impl<K: Eq + Hash + PartialOrd, V: PartialOrd, S: BuildHasher> PartialOrd
    for LinkedHashMap<K, V, S> {
    ghost partial_cmp = { maps_partial_cmp K.partial_cmp V.partial_cmp };

    ghost laws = { maps_po K.PartialOrd.laws V.PartialOrd.laws };

    fn partial_cmp(&self, other: &LinkedHashMap<K, V, S>) -> Option<Ordering> {
        iter_partial_cmp(self.iter(), other.iter())
    }
}

/// Maps whose keys and values always compare are ordered as by `PartialOrd`, at the same cost.
impl<K: Ord + Hash, V: Ord, S: BuildHasher> Ord for LinkedHashMap<K, V, S> {
    ghost cmp = { maps_cmp K.cmp V.cmp };

    ghost total = { maps_total K.total V.total };

    ghost matches_partial_cmp = { maps_agree K.matches_partial_cmp V.matches_partial_cmp };

    ghost matches_eq = { maps_tie K.cmp V.cmp K.matches_eq V.matches_eq };

    fn cmp(&self, other: &LinkedHashMap<K, V, S>) -> Ordering {
        iter_cmp(self.iter(), other.iter())
    }
}
