//! Removals of the elements that a closure rejects. The others keep their order. No method here allocates or
//! hashes an element. Each node that becomes free serves a later insert of an absent element.
ghost use Rattle.std.specs.{Fn.CalledAt, List.IsDistinct};
ghost use Rattle.hashlink_model.specs.Retain.{RetainsInOrder};
ghost use Rattle.hashlink_model.specs.Sets.{elements_of, at_element};
ghost use Rattle.hashlink_set.specs.Called.{CallableOnEachElement, SetUpdatesKept};

use super::LinkedHashSet;
use std::hash::{BuildHasher, Hash};

impl<T: Eq + Hash, S: BuildHasher> LinkedHashSet<T, S> {
    /// Calls `keep` once on each element, from the front, and removes the elements for which it returns
    /// false. It takes linear time in the number of elements, and stores at most three links for each
    /// removal. `keep` has to be callable on each element, in the state that its earlier calls left it in.
    pub fn retain<F: FnMut(&T) -> bool>(&mut self, mut keep: F)
    where
        T: Drop,
        requires callable { CallableOnEachElement F.FnMut keep self.old }
        ensures retained { (end : F) × RetainsInOrder (at_element (CalledAt F.FnMut)) keep
            self.old self.new end }
        ensures updates { SetUpdatesKept (CalledAt F.FnMut) T.eq (elements_of self.old)
            (elements_of self.new) }
        ensures distinct { IsDistinct T.eq (elements_of self.new) }
    {
        self.retain_from(&mut keep);
    }

    /// Calls `keep` once on each element, from the front, and removes the elements for which it returns
    /// false. It takes linear time in the number of elements, and stores at most three links for each
    /// removal. `keep` has to be callable on each element, in the state that its earlier calls left it in.
    pub fn retain_with_order<F: FnMut(&T) -> bool>(&mut self, mut keep: F)
    where
        T: Drop,
        requires callable { CallableOnEachElement F.FnMut keep self.old }
        ensures retained { (end : F) × RetainsInOrder (at_element (CalledAt F.FnMut)) keep
            self.old self.new end }
        ensures updates { SetUpdatesKept (CalledAt F.FnMut) T.eq (elements_of self.old)
            (elements_of self.new) }
        ensures distinct { IsDistinct T.eq (elements_of self.new) }
    {
        self.retain_from(&mut keep);
    }

    /// Does the same as `retain_with_order`, with a closure that the caller keeps: afterwards the caller can
    /// read from `keep` the state that its calls left. It takes linear time in the number of elements, and
    /// stores at most three links for each removal. `keep` has to be callable on each element, in the state
    /// that its earlier calls left it in.
    pub fn retain_from<F: FnMut(&T) -> bool>(&mut self, keep: &mut F)
    where
        T: Drop,
        requires callable { CallableOnEachElement F.FnMut keep.old self.old }
        ensures retained { RetainsInOrder (at_element (CalledAt F.FnMut)) keep.old self.old self.new
            keep.new }
        ensures updates { SetUpdatesKept (CalledAt F.FnMut) T.eq (elements_of self.old)
            (elements_of self.new) }
        ensures distinct { IsDistinct T.eq (elements_of self.new) }
    {
        self.map.retain_from(
            &mut |element: &T, _: &mut ()|
                requires { F.pre keep.now element }
            { keep(element) },
        );
    }
}
