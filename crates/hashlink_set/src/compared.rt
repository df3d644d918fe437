//! Comparisons and hashing of sets: by their elements in order, whatever the hashers are. There is no order
//! between sets.
ghost use Rattle.hashlink_set.specs.Compared.{sets_eq, sets_per, sets_equiv, set_hash_input, sets_alike};

use crate::set::LinkedHashSet;
use std::hash::{BuildHasher, Hash, Hasher};

/// Two sets are equal if they have the same number of elements, and equal ones at each index. A comparison
/// takes linear time, up to the first element that differs, and constant time if the numbers differ.
impl<T: Eq + Hash, S: BuildHasher> PartialEq for LinkedHashSet<T, S> {
    ghost eq = { sets_eq T.eq };

    ghost laws = { sets_per T.PartialEq.laws };

    fn eq(&self, other: &LinkedHashSet<T, S>) -> bool {
        if self.len() != other.len() {
            return false;
        }
        let (mut left, mut right) = (self.iter(), other.iter());
        while let Some(element) = left.next() {
            if !element.eq(right.next().unwrap()) {
                return false;
            }
        }
        true
    }
}

impl<T: Eq + Hash, S: BuildHasher> Eq for LinkedHashSet<T, S> {
    ghost laws = { sets_equiv T.Eq.laws };
}

/// Hashes a set by its elements in order and no length, so that equal sets have equal hashes. It takes linear
/// time in the number of elements.
impl<T: Eq + Hash, S: BuildHasher> Hash for LinkedHashSet<T, S> {
    ghost hash_input = { set_hash_input T.hash_input };

    ghost respects_eq = { sets_alike T.respects_eq };

    fn hash<H: Hasher>(&self, state: &mut H) {
        let mut rest = self.iter();
        while let Some(element) = rest.next() {
            element.hash(state);
        }
    }
}
