//! A cache of two segments. What is inserted is on probation, and what is used there is protected from then
//! on, so keys that are used once do not push out those that are used again.
ghost use Rattle.std.specs.Prelude.{◌≡◌, ◌≤◌, ◌<◌, ◌++◌, ◌∷◌, [], IfErr, IfOk, IfSome, MatchOption, None, Ok};
ghost use Rattle.std.specs.{Prelude.{OnOk, Some, cond, length}, Map.{lookup, lookup_entry, set_value}};
ghost use Rattle.std.{specs.Option.option_to_list, proofs.Props.props};
ghost use Rattle.hashlink.specs.{Cache.{IsWithin, cache_get, cache_put}, Entries.{IsEntries, moved, without}};
ghost use Rattle.hashlink.specs.{Cached.{StaysWithin, entries_of, state_of}, Evicted.pushed_out};
ghost use Rattle.hashlink.specs.{Joined.{AreParts, ShareNoKey}, MapState.MayRefuse};

use hashlink::LruCache;
use std::alloc::Global;
use std::hash::Hash;
use std::mem;

/// A cache of two segments, each with a capacity. No key is in both.
#[derive(Drop)]
pub struct SegmentedCache<K: Eq + Hash, V> {
    probation: LruCache<K, V>,
    protected: LruCache<K, V>,
    ghost on_probation: { IsWithin (state_of probation) 0 },
    ghost fits: { IsWithin (state_of protected) 0 },
    ghost apart: { ShareNoKey K.eq (entries_of probation) (entries_of protected) } by { Prim.hlevel props },
}

impl<K: Eq + Hash + Drop, V: Copy> SegmentedCache<K, V> {
    /// Creates a cache with a capacity for each segment.
    pub fn new(alloc: Global, probation: usize, protected: usize) -> Self
        ensures empty { entries_of result.probation ++ entries_of result.protected ≡ [] }
        ensures probation { (state_of result.probation).cap ≡ probation }
        ensures protected { (state_of result.protected).cap ≡ protected }
    {
        SegmentedCache {
            probation: LruCache::new(alloc, probation),
            protected: LruCache::new(alloc, protected),
        }
    }

    /// Returns the value of a key. A key that is protected is then the last one there. An entry on probation
    /// is inserted into the protected segment, and the entry that this evicts is last on probation. If memory
    /// runs out, the key stays on probation, where it is then last, and its value is returned in `Err`.
    #[tactic(auto, using(hashlink::proofs::Joined::two_lists))]
    pub fn get(&mut self, key: &K) -> Result<Option<V>, V>
        ensures found { IfOk result (λ value. value
            ≡ lookup (K.eq key.now) (entries_of self.old.probation ++ entries_of self.old.protected)) }
        ensures kept { (q : K)
            → lookup (K.eq q) (entries_of self.new.probation ++ entries_of self.new.protected)
            ≡ lookup (K.eq q) (entries_of self.old.probation ++ entries_of self.old.protected) }
        ensures protected { IfSome (lookup (K.eq key.now) (entries_of self.old.protected))
            (λ value. (result ≡ Ok (Some value))
            × (entries_of self.new.protected ≡ cache_get K.eq (entries_of self.old.protected) key.now)
            × (entries_of self.new.probation ≡ entries_of self.old.probation)) }
        ensures promoted { lookup (K.eq key.now) (entries_of self.old.protected) ≡ None → OnOk result
            (MatchOption (lookup_entry (K.eq key.now) (entries_of self.old.probation))
            ((entries_of self.new.protected ≡ entries_of self.old.protected)
            × (entries_of self.new.probation ≡ entries_of self.old.probation))
            (λ e. (entries_of self.new.protected ≡ cache_put K.eq (entries_of self.old.protected)
            (state_of self.old.protected).cap e.0 e.1)
            × (entries_of self.new.probation ≡ without K.eq (entries_of self.old.probation) key.now
            ++ option_to_list (pushed_out K.eq (entries_of self.old.protected)
            (state_of self.old.protected).cap e.0 e.1)))) }
        ensures refused { IfErr result (λ value. ((state_of self.old.protected).map.spare ≡ 0)
            × (lookup (K.eq key.now) (entries_of self.old.probation) ≡ Some value)
            × (entries_of self.new.protected ≡ entries_of self.old.protected)
            × (entries_of self.new.probation ≡ without K.eq (entries_of self.old.probation) key.now
            ++ option_to_list (lookup_entry (K.eq key.now) (entries_of self.old.probation)))) }
        ensures capacities { ((state_of self.new.probation).cap ≡ (state_of self.old.probation).cap)
            × ((state_of self.new.protected).cap ≡ (state_of self.old.protected).cap) }
    {
        if let Some(value) = touch(&mut self.protected, key) {
            return Ok(Some(value));
        }
        let Some((key, value)) = self.probation.remove_entry(key) else {
            return Ok(None);
        };
        let (answer, demoted) = protect(&mut self.protected, key, value);
        demote(&mut self.probation, demoted);
        answer
    }

    /// Inserts a pair on probation, or sets the value of a key that is protected. Returns what leaves: the
    /// key with its old value, or the entry that is evicted. If memory runs out, it returns the pair in
    /// `Err`, and nothing changes.
    #[tactic(auto, using(hashlink::proofs::CallerLemmas::pushed_absent))]
    pub fn insert(&mut self, key: K, value: V) -> Result<Option<(K, V)>, (K, V)>
        ensures protected { MatchOption (lookup (K.eq key) (entries_of self.old.protected))
            (entries_of self.new.protected ≡ entries_of self.old.protected)
            (λ old. (result ≡ Ok (Some (key, old))) × (entries_of self.new.protected
            ≡ set_value (K.eq key) (moved K.eq (entries_of self.old.protected) key
            (length (entries_of self.old.protected))) value)
            × (entries_of self.new.probation ≡ entries_of self.old.probation)) }
        ensures probation { lookup (K.eq key) (entries_of self.old.protected) ≡ None → OnOk result
            (entries_of self.new.probation
            ≡ cache_put K.eq (entries_of self.old.probation) (state_of self.old.probation).cap key value) }
        ensures left { lookup (K.eq key) (entries_of self.old.protected) ≡ None → IfOk result (λ left. left
            ≡ pushed_out K.eq (entries_of self.old.probation) (state_of self.old.probation).cap key value) }
        ensures absent { lookup (K.eq key) (entries_of self.old.probation) ≡ None
            → lookup (K.eq key) (entries_of self.old.protected) ≡ None
            → IfOk result (λ left. option_to_list left ++ entries_of self.new.probation
            ≡ entries_of self.old.probation ++ (key, value) ∷ []) }
        ensures refused { IfErr result (λ pair. (pair ≡ (key, value))
            × MayRefuse K.eq (state_of self.old.probation).map key
            × (entries_of self.new.probation ≡ entries_of self.old.probation)) }
        ensures capacities { ((state_of self.new.probation).cap ≡ (state_of self.old.probation).cap)
            × ((state_of self.new.protected).cap ≡ (state_of self.old.protected).cap) }
    {
        if let Some(old) = renew(&mut self.protected, &key, value) {
            return Ok(Some((key, old)));
        }
        self.probation.push(key, value)
    }
}

/// Returns the value of a key, whose entry is then the last one.
fn touch<K: Eq + Hash, V: Copy>(cache: &mut LruCache<K, V>, key: &K) -> Option<V>
    ensures value { result ≡ lookup (K.eq key.now) (entries_of cache.old) }
    ensures entries { entries_of cache.new ≡ cache_get K.eq (entries_of cache.old) key.now }
    ensures lookups { (q : K)
        → lookup (K.eq q) (entries_of cache.new) ≡ lookup (K.eq q) (entries_of cache.old) }
    ensures absent { result ≡ None → state_of cache.new ≡ state_of cache.old }
    ensures distinct { IsEntries K.eq (entries_of cache.old) }
    ensures within { StaysWithin (state_of cache.old) (state_of cache.new) }
    ensures capacity { (state_of cache.new).cap ≡ (state_of cache.old).cap }
{
    cache.get(key).copied()
}

/// Sets the value of a key, whose entry is then the last one, and returns the old value.
fn renew<K: Eq + Hash, V: Copy>(cache: &mut LruCache<K, V>, key: &K, value: V) -> Option<V>
    ensures old { result ≡ lookup (K.eq key.now) (entries_of cache.old) }
    ensures written { IfSome result (λ _. entries_of cache.new
        ≡ set_value (K.eq key.now) (cache_get K.eq (entries_of cache.old) key.now) value) }
    ensures lookups { IfSome result (λ _. (q : K) → lookup (K.eq q) (entries_of cache.new)
        ≡ cond (K.eq key.now q) (Some value) (lookup (K.eq q) (entries_of cache.old))) }
    ensures absent { result ≡ None → state_of cache.new ≡ state_of cache.old }
    ensures within { StaysWithin (state_of cache.old) (state_of cache.new) }
    ensures capacity { (state_of cache.new).cap ≡ (state_of cache.old).cap }
{
    match cache.get_mut(key) {
        Some(stored) => Some(mem::replace(stored, value)),
        None => None,
    }
}

/// Inserts what was on probation into the protected segment. Returns its value, in `Err` if memory runs out,
/// and what has to be on probation again: what is evicted, or the pair itself if memory runs out.
fn protect<K: Eq + Hash + Drop, V: Copy>(
    protected: &mut LruCache<K, V>,
    key: K,
    value: V,
) -> (Result<Option<V>, V>, Option<(K, V)>)
    requires absent { lookup (K.eq key) (entries_of protected.old) ≡ None }
    requires within { IsWithin (state_of protected.old) 0 }
    requires distinct { IsEntries K.eq (entries_of protected.old) }
    ensures protected { IfOk result.0 (λ found. (found ≡ Some value)
        × (result.1 ≡ pushed_out K.eq (entries_of protected.old) (state_of protected.old).cap key value)
        × (entries_of protected.new
        ≡ cache_put K.eq (entries_of protected.old) (state_of protected.old).cap key value)) }
    ensures refused { IfErr result.0 (λ found. (found ≡ value) × (result.1 ≡ Some (key, value))
        × ((state_of protected.old).map.spare ≡ 0)
        × (entries_of protected.new ≡ entries_of protected.old)) }
    ensures parts { AreParts K.eq (option_to_list result.1) (entries_of protected.new)
        ((key, value) ∷ entries_of protected.old) }
    ensures fits { IsWithin (state_of protected.new) 0 }
    ensures capacity { (state_of protected.new).cap ≡ (state_of protected.old).cap }
{
    match protected.push(key, value) {
        Ok(left) => (Ok(Some(value)), left),
        Err(pair) => (Err(value), Some(pair)),
    }
}

/// Inserts on probation what was protected, in the node of an entry that was removed.
#[tactic(auto, using(hashlink::proofs::Joined::two_lists))]
fn demote<K: Eq + Hash + Drop, V: Drop>(probation: &mut LruCache<K, V>, demoted: Option<(K, V)>)
    requires absent { IfSome demoted (λ e. lookup (K.eq e.0) (entries_of probation.old) ≡ None) }
    requires room { length (entries_of probation.old) < (state_of probation.old).cap }
    requires node { 1 ≤ (state_of probation.old).map.spare }
    ensures entries { entries_of probation.new ≡ entries_of probation.old ++ option_to_list demoted }
    ensures within { IsWithin (state_of probation.new) 0 }
    ensures capacity { (state_of probation.new).cap ≡ (state_of probation.old).cap }
{
    let Some((key, value)) = demoted else {
        return;
    };
    match probation.push(key, value) {
        Ok(_) => {}
        Err(_) => unreachable!(), // there is a free node
    }
}
