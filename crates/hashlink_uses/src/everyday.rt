//! Everyday calls of a cache and of a set. Each caller is proved without a file of proof.
ghost use Rattle.std.specs.Prelude.{◌≡◌, ◌≤◌, IfErr, IfOk, IfSome, IsOk, IsTrue, MatchOption, OnErr, OnOk};
ghost use Rattle.std.specs.Prelude.{[], ◌∷◌, ◌++◌, Contains, Ok, length, nat_eq, not, unwrap_or};
ghost use Rattle.std.specs.{List.{find, list_any}, Map.{lookup, remove_entry}, Option.UnwrapsOrElse};
ghost use Rattle.std.specs.Set.{is_member, remove_key};
ghost use Rattle.hashlink.specs.{Cache.{cache_get, cache_put}, Cached.{UsesAndWrites, entries_of, state_of}};
ghost use Rattle.hashlink.specs.{Sets.{elements_of, put_element, replaced}, TryInsert.HandsBack};

use hashlink::linked_hash_map::TryInsertError;
use hashlink::{LinkedHashSet, LruCache};
use std::hash::{BuildHasher, Hash};

/// Returns the size of a page, which is then the most recently used one.
pub fn recall(sizes: &mut LruCache<u32, u64>, page: u32) -> Option<u64>
    ensures found { result ≡ lookup (nat_eq page) (entries_of sizes.old) }
    ensures entries { entries_of sizes.new ≡ cache_get nat_eq (entries_of sizes.old) page }
    ensures capacity { (state_of sizes.new).cap ≡ (state_of sizes.old).cap }
{
    sizes.get(&page).copied()
}

/// Removes a page, and returns it with its size. The returned entry was in the cache.
pub fn forget_entry(sizes: &mut LruCache<u32, u64>, page: u32) -> Option<(u32, u64)>
    ensures { IfSome result (Contains (entries_of sizes.old)) }
{
    sizes.remove_entry(&page)
}

/// Returns the value of a key. If the key is absent, this is the given value, which is then inserted.
pub fn value_or<K: Eq + Hash + Drop, V: Copy, S: BuildHasher>(
    cache: &mut LruCache<K, V, S>,
    key: K,
    value: V,
) -> Result<V, (K, V)>
    ensures value { IfOk result (λ v. v ≡ unwrap_or (lookup (K.eq key) (entries_of cache.old)) value) }
    ensures used { IfOk result
        (λ v. UsesAndWrites K.eq (state_of cache.old) (state_of cache.new) key v) }
    ensures handed_back { IfErr result (λ pair. pair ≡ (key, value)) }
    ensures unchanged { OnErr result (entries_of cache.new ≡ entries_of cache.old) }
{
    Ok(*cache.get_or_insert_with(key, || value)?)
}

/// Returns the value of a key. If the key is absent, the value is made and inserted.
pub fn value_or_made<
    K: Eq + Hash + Drop,
    V: Copy,
    E,
    S: BuildHasher,
    F: FnOnce() -> Result<V, E> + Drop,
>(cache: &mut LruCache<K, V, S>, key: K, make: F) -> Result<V, TryInsertError<K, V, E>>
    requires { F.pre make }
    ensures value { IfOk result
        (λ v. UnwrapsOrElse (lookup (K.eq key) (entries_of cache.old)) (λ x. F.post make (Ok x)) v) }
    ensures used { IfOk result
        (λ v. UsesAndWrites K.eq (state_of cache.old) (state_of cache.new) key v) }
    ensures handed_back { IfErr result (HandsBack (F.post make) key) }
    ensures unchanged { OnErr result (entries_of cache.new ≡ entries_of cache.old) }
{
    Ok(*cache.get_or_try_insert_with(key, make)?)
}

/// Inserts a word at the back, and returns whether it is new.
pub fn add<T: Eq + Hash + Drop, S: BuildHasher>(
    words: &mut LinkedHashSet<T, S>,
    word: T,
) -> Result<bool, T>
    ensures elements { OnOk result (elements_of words.new
        ≡ put_element T.eq (elements_of words.old) word (length (elements_of words.old))) }
    ensures new { IfOk result (λ new. new ≡ not (is_member T.eq (elements_of words.old) word)) }
    ensures unchanged { OnErr result (elements_of words.new ≡ elements_of words.old) }
    ensures handed_back { IfErr result (λ back. back ≡ word) }
    ensures there { IsTrue (is_member T.eq (elements_of words.old) word) → IsOk result }
{
    words.insert(word)
}

/// Replaces the word that equals this one, and returns it, or inserts this one at the back.
pub fn exchange<T: Eq + Hash, S: BuildHasher>(
    words: &mut LinkedHashSet<T, S>,
    word: T,
) -> Result<Option<T>, T>
    ensures elements { OnOk result (elements_of words.new ≡ replaced T.eq (elements_of words.old) word) }
    ensures old { IfOk result (λ old. old ≡ find (T.eq word) (elements_of words.old)) }
    ensures unchanged { OnErr result (elements_of words.new ≡ elements_of words.old) }
    ensures handed_back { IfErr result (λ back. back ≡ word) }
{
    words.replace(word)
}

/// Removes a word, and returns whether it was present.
pub fn strike<T: Eq + Hash + Drop, S: BuildHasher>(
    words: &mut LinkedHashSet<T, S>,
    word: &T,
) -> bool
    ensures found { result ≡ list_any (T.eq word.now) (elements_of words.old) }
    ensures elements { elements_of words.new ≡ remove_key (T.eq word.now) (elements_of words.old) }
{
    words.remove(word)
}

/// Removes the first word, and returns it.
pub fn take_first<T: Eq + Hash, S: BuildHasher>(words: &mut LinkedHashSet<T, S>) -> Option<T>
    ensures { MatchOption result ((elements_of words.old ≡ []) × (elements_of words.new ≡ []))
        (λ word. elements_of words.old ≡ word ∷ elements_of words.new) }
{
    words.pop_front()
}

/// Removes the last word, and returns it.
pub fn take_last<T: Eq + Hash, S: BuildHasher>(words: &mut LinkedHashSet<T, S>) -> Option<T>
    ensures { MatchOption result ((elements_of words.old ≡ []) × (elements_of words.new ≡ []))
        (λ word. elements_of words.old ≡ elements_of words.new ++ word ∷ []) }
{
    words.pop_back()
}
