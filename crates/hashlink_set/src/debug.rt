//! Debug output.
use crate::set::LinkedHashSet;
use std::fmt;
use std::hash::{BuildHasher, Hash};

impl<T: Eq + Hash + fmt::Debug, S: BuildHasher> fmt::Debug for LinkedHashSet<T, S> {
    fn fmt<W: fmt::Write>(&self, f: &mut fmt::Formatter<W>) -> fmt::Result {
        f.debug_set().entries(self.iter()).finish()
    }
}
