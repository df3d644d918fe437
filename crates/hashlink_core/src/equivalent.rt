//! The queries that a lookup takes in place of a key.
ghost use Rattle.std.specs.{Prelude.{◌≡◌, Bool, IsTrue}, Box.{boxed_slice_items, boxed_str_bytes}};
ghost use Rattle.std.specs.Hash as fed;
ghost use Rattle.std.specs.{Hash.items_Alike, Prelude.string_bytes, Rc.rc_str_bytes, Str.bytes_eq};
ghost use Rattle.std.{specs.Cmp.Lexicographic.{pointwise, bytes_decides}, proofs.Common.ap};
ghost use Rattle.std.proofs.lemmas.Cmp.{lists_equiv, nat_list_eq_equiv};
ghost use Rattle.hashlink_model.specs.Entries.{IsKeyTest};

use crate::texts::texts_eq;
use std::alloc::Allocator;
use std::boxed::{BoxedSlice, BoxedStr};
use std::hash::Hash;
use std::rc::RcStr;

/// A query, which a lookup takes in place of a key: a `&K` for a `K`, a `&str` for a `String`, or a `&[T]`
/// for a `Vec<T>`. So `get(&key)` and `get("text")` are one method. An implementation states which keys a
/// query matches. It proves that the query has the same hash as each of them, and that they are exactly the
/// keys that equal one of them.
pub trait Equivalent<K: Eq + Hash>: Copy + Hash {
    ghost matches: { Self → K → Bool };

    /// Returns whether the query matches the key.
    fn equivalent(&self, key: &K) -> bool
        ensures { result ≡ matches self.now key.now };

    ghost hashed_alike: { (q : Self) (k : K) → IsTrue (matches q k) → Self.hash_input q ≡ K.hash_input k };

    ghost finds_equal: { (q : Self) → IsKeyTest K.eq (matches q) };
}

impl<K: Eq + Hash> Equivalent<K> for &K {
    ghost matches = { λ q. K.eq q.now };

    ghost hashed_alike = { λ q. K.respects_eq q.now };

    ghost finds_equal = { λ q. K.Eq.laws.congr q.now };

    #[inline]
    fn equivalent(&self, key: &K) -> bool {
        **self == *key
    }
}

impl<T: Eq + Hash, A: Allocator> Equivalent<Vec<T, A>> for &[T] {
    ghost matches = { λ q k. pointwise T.eq q.now k.items };

    ghost hashed_alike = { λ q k. (items_Alike (record { fed = T.respects_eq })).fed q.now k.items };

    ghost finds_equal = { λ q x y. (lists_equiv T.Eq.laws).congr q.now x.items y.items };

    fn equivalent(&self, key: &Vec<T, A>) -> bool {
        *self == key.as_slice()
    }
}

impl<T: Eq + Hash, A: Allocator> Equivalent<BoxedSlice<T, A>> for &[T] {
    ghost matches = { λ q k. pointwise T.eq q.now (boxed_slice_items k) };

    ghost hashed_alike = { λ q k. (items_Alike (record { fed = T.respects_eq })).fed q.now
        (boxed_slice_items k) };

    ghost finds_equal = { λ q x y. (lists_equiv T.Eq.laws).congr q.now (boxed_slice_items x)
        (boxed_slice_items y) };

    fn equivalent(&self, key: &BoxedSlice<T, A>) -> bool {
        *self == key.as_slice()
    }
}

impl<'b, T: Eq + Hash> Equivalent<&'b [T]> for &[T] {
    ghost matches = { λ q k. pointwise T.eq q.now k.now };

    ghost hashed_alike = { λ q k. (items_Alike (record { fed = T.respects_eq })).fed q.now k.now };

    ghost finds_equal = { λ q x y. (lists_equiv T.Eq.laws).congr q.now x.now y.now };

    fn equivalent(&self, key: &&'b [T]) -> bool {
        *self == *key
    }
}

impl<A: Allocator> Equivalent<String<A>> for &str {
    ghost matches = { λ q k. bytes_eq q.now (string_bytes k) };

    ghost hashed_alike = { λ q k h. ap fed.str ((bytes_decides q.now (string_bytes k)).0 h) };

    ghost finds_equal = { λ q x y. nat_list_eq_equiv.congr q.now (string_bytes x) (string_bytes y) };

    fn equivalent(&self, key: &String<A>) -> bool {
        texts_eq(*self, key.as_str())
    }
}

impl<A: Allocator> Equivalent<BoxedStr<A>> for &str {
    ghost matches = { λ q k. bytes_eq q.now (boxed_str_bytes k) };

    ghost hashed_alike = { λ q k h. ap fed.str ((bytes_decides q.now (boxed_str_bytes k)).0 h) };

    ghost finds_equal = { λ q x y. nat_list_eq_equiv.congr q.now (boxed_str_bytes x) (boxed_str_bytes y) };

    fn equivalent(&self, key: &BoxedStr<A>) -> bool {
        texts_eq(*self, key.as_str())
    }
}

impl<A: Allocator> Equivalent<RcStr<A>> for &str {
    ghost matches = { λ q k. bytes_eq q.now (rc_str_bytes k) };

    ghost hashed_alike = { λ q k h. ap fed.str ((bytes_decides q.now (rc_str_bytes k)).0 h) };

    ghost finds_equal = { λ q x y. nat_list_eq_equiv.congr q.now (rc_str_bytes x) (rc_str_bytes y) };

    fn equivalent(&self, key: &RcStr<A>) -> bool {
        texts_eq(*self, key.as_str())
    }
}

impl<'b> Equivalent<&'b str> for &str {
    ghost matches = { λ q k. bytes_eq q.now k.now };

    ghost hashed_alike = { λ q k h. ap fed.str ((bytes_decides q.now k.now).0 h) };

    ghost finds_equal = { λ q x y. nat_list_eq_equiv.congr q.now x.now y.now };

    fn equivalent(&self, key: &&'b str) -> bool {
        texts_eq(*self, *key)
    }
}
