//! A cache of names, each with an address that is valid until a time.
ghost use Rattle.std.specs.Prelude.{◌≡◌, ◌≤◌, [], ◌∷◌, ◌++◌, IfErr, IfOk, IsFalse, IsTrue, OnErr, OnOk};
ghost use Rattle.std.specs.{Prelude.{List, String, filter, is_some, length, string_bytes, ℕ}, Global.Global};
ghost use Rattle.std.specs.String.{string_eq};
ghost use Rattle.std.specs.{Option.option_and_then, Map.{lookup, remove_entry}};
ghost use Rattle.hashlink.specs.{Cache.cache_put, Cached.{entries_of, state_of}, Texts.is_text};
ghost use Rattle.hashlink_uses.specs.Answers.{address_at, holds_at};

use hashlink::LruCache;
use std::hash::BuildHasher;

/// The address of a name, and the time until which it is valid.
#[derive(Clone, Copy, Debug, PartialEq, Eq, Drop)]
pub struct Answer {
    pub address: u32,
    pub expires: u64,
}

/// Stores the address of a name, which is then the most recently used name, and returns what was known about
/// it. It allocates only for a new name. If that fails, it returns the name and its address in `Err` and
/// nothing changes.
pub fn learn<S: BuildHasher>(
    names: &mut LruCache<String, Answer, S>,
    name: String,
    answer: Answer,
) -> Result<Option<Answer>, (String, Answer)>
    ensures entries { OnOk result (entries_of names.new
        ≡ cache_put string_eq (entries_of names.old) (state_of names.old).cap name answer) }
    ensures known { IfOk result (λ known. known ≡ lookup (string_eq name) (entries_of names.old)) }
    ensures unchanged { OnErr result (entries_of names.new ≡ entries_of names.old) }
    ensures handed_back { IfErr result (λ pair. pair ≡ (name, answer)) }
    ensures fits { OnOk result (length (entries_of names.new) ≤ (state_of names.new).cap) }
    ensures capacity { (state_of names.new).cap ≡ (state_of names.old).cap }
{
    names.insert(name, answer)
}

/// Returns the address of a name, if it is known and still valid. The name, which is looked up without making
/// a `String`, is then the most recently used one.
pub fn address_of<S: BuildHasher>(
    names: &mut LruCache<String, Answer, S>,
    name: &str,
    now: u64,
) -> Option<u32>
    ensures address { result
        ≡ option_and_then (address_at now) (lookup (is_text name.now) (entries_of names.old)) }
    ensures kept { (text : List ℕ) → lookup (is_text text) (entries_of names.new)
        ≡ lookup (is_text text) (entries_of names.old) }
{
    let answer = names.get(name)?;
    if answer.expires <= now {
        return None;
    }
    Some(answer.address)
}

/// Writes a new address of a known name, which is then the most recently used name, and returns whether it is
/// known.
pub fn renew<S: BuildHasher>(
    names: &mut LruCache<String, Answer, S>,
    name: &str,
    answer: Answer,
) -> bool
    ensures known { result ≡ is_some (lookup (is_text name.now) (entries_of names.old)) }
    ensures renewed { IsTrue result → (stored : String Global) × (string_bytes stored ≡ name.now)
        × (entries_of names.new
        ≡ remove_entry (is_text name.now) (entries_of names.old) ++ (stored, answer) ∷ []) }
    ensures unchanged { IsFalse result → entries_of names.new ≡ entries_of names.old }
{
    let Some(stored) = names.get_mut(name) else {
        return false;
    };
    *stored = answer;
    true
}

/// Removes a name, and returns what was known about it.
pub fn forget<S: BuildHasher>(names: &mut LruCache<String, Answer, S>, name: &str) -> Option<Answer>
    ensures known { result ≡ lookup (is_text name.now) (entries_of names.old) }
    ensures entries { entries_of names.new ≡ remove_entry (is_text name.now) (entries_of names.old) }
    ensures capacity { (state_of names.new).cap ≡ (state_of names.old).cap }
{
    names.remove(name)
}

/// Removes every name whose address is no longer valid. The others keep their order.
pub fn sweep<S: BuildHasher>(names: &mut LruCache<String, Answer, S>, now: u64)
    ensures left { entries_of names.new ≡ filter (λ e. holds_at now e.1) (entries_of names.old) }
    ensures capacity { (state_of names.new).cap ≡ (state_of names.old).cap }
{
    names.retain(|_, answer| answer.expires > now);
}
