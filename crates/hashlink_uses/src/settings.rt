//! Settings in the order in which they were first set, and other settings that override them.
ghost use Rattle.std.specs.Prelude.{◌≡◌, ◌++◌, ◌∷◌, Bool, IfErr, IsOk, IsSome, List, OnErr, OnOk, true};
ghost use Rattle.std.specs.{Cmp.IsEquivalence, Map.{keys_of, lookup, remove_entry}, Set.is_member};
ghost use Rattle.std.specs.{Option.{option_map, option_or}, String.string_eq};
ghost use Rattle.hashlink.specs.{Entries.{IsEntries, place_or_end, put}, Keyed.entries_of, Texts.is_text};
ghost use Rattle.hashlink_uses.specs.{Appearances.first_appearances, Merged.merged};
ghost use Rattle.hashlink_uses.specs.Sections.{StopsLaying, laid_over, settings_in};

use hashlink::LinkedHashMap;
use std::alloc::AllocError;
use std::hash::{BuildHasher, Hash};

/// Sets a setting. A present one keeps its place and takes the value; a new one goes to the back. It
/// allocates only for a new one. If that fails, it returns the setting in `Err` and nothing changes.
pub fn set<K: Eq + Hash + Drop, V: Drop, S: BuildHasher>(
    settings: &mut LinkedHashMap<K, V, S>,
    key: K,
    value: V,
) -> Result<(), (K, V)>
    ensures entries { OnOk result (entries_of settings.new
        ≡ put K.eq (entries_of settings.old) key value (place_or_end K.eq (entries_of settings.old) key)) }
    ensures there { IsSome (lookup (K.eq key) (entries_of settings.old)) → IsOk result }
    ensures refused { IfErr result
        (λ pair. (pair ≡ (key, value)) × (entries_of settings.new ≡ entries_of settings.old)) }
{
    settings.replace(key, value)?;
    Ok(())
}

/// Sets each of the other settings in order. If an allocation fails, it returns the setting in `Err`; the
/// settings before it stay set, and the ones after it are dropped. `what_a_merge_leaves` describes the
/// result.
pub fn merge<K: Eq + Hash + Drop, V: Drop, S: BuildHasher, R: BuildHasher + Drop>(
    settings: &mut LinkedHashMap<K, V, S>,
    others: LinkedHashMap<K, V, R>,
) -> Result<(), (K, V)>
    ensures all { OnOk result
        (entries_of settings.new ≡ merged K.eq (entries_of settings.old) (entries_of others)) }
    ensures stopped { IfErr result (λ pair. (set left : List (K × V))
        × (entries_of others ≡ set ++ pair ∷ left)
        × (entries_of settings.new ≡ merged K.eq (entries_of settings.old) set)) }
{
    for (key, value) in others {
        set(settings, key, value)?;
    }
    Ok(())
}

/// Settings in sections, looked up by names.
pub type Sections = LinkedHashMap<String, LinkedHashMap<String, String>>;

/// Lays other sections over these, in order. A section that is present keeps its place, and the other's
/// settings are merged into it; a new one goes to the back. If memory runs out, what was set before stays
/// set, and the rest is dropped.
pub fn lay_over(sections: &mut Sections, others: Sections) -> Result<(), AllocError>
    ensures all { OnOk result (settings_in (entries_of sections.new) ≡ laid_over string_eq string_eq
        (settings_in (entries_of sections.old)) (settings_in (entries_of others))) }
    ensures stopped { OnErr result (StopsLaying string_eq string_eq (settings_in (entries_of sections.old))
        (settings_in (entries_of others)) (settings_in (entries_of sections.new))) }
{
    for (name, settings) in others {
        match sections.get_mut(&name) {
            Some(section) => {
                let Ok(()) = merge(section, settings) else {
                    return Err(AllocError);
                };
            }
            None => {
                let Ok(_) = sections.insert(name, settings) else {
                    return Err(AllocError);
                };
            }
        }
    }
    Ok(())
}

/// Sets a whole section. A present one keeps its place; a new one goes to the back. If memory runs out,
/// nothing changes.
pub fn set_section(
    sections: &mut Sections,
    name: String,
    settings: LinkedHashMap<String, String>,
) -> Result<(), AllocError>
    ensures set { OnOk result (settings_in (entries_of sections.new)
        ≡ put string_eq (settings_in (entries_of sections.old)) name (entries_of settings)
        (place_or_end string_eq (settings_in (entries_of sections.old)) name)) }
    ensures unchanged { OnErr result
        (settings_in (entries_of sections.new) ≡ settings_in (entries_of sections.old)) }
    ensures distinct { IsEntries string_eq (settings_in (entries_of sections.new)) }
{
    let Ok(_) = sections.replace(name, settings) else {
        return Err(AllocError);
    };
    Ok(())
}

/// Removes a section, and returns its settings.
pub fn remove_section(sections: &mut Sections, name: &str) -> Option<LinkedHashMap<String, String>>
    ensures found { option_map entries_of result
        ≡ lookup (is_text name.now) (settings_in (entries_of sections.old)) }
    ensures left { settings_in (entries_of sections.new)
        ≡ remove_entry (is_text name.now) (settings_in (entries_of sections.old)) }
{
    sections.remove(name)
}

/// After a merge each key has the other value if there is one, and else its own. The present keys keep their
/// order, and the new keys follow in the order of the others. No key is lost or doubled. The function has an
/// empty body: its contract is the theorem.
pub fn what_a_merge_leaves<K, V>()
    ensures wins { (eq : K → K → Bool) → IsEquivalence eq → (key : K) (es others : List (K × V))
        → IsEntries eq es → IsEntries eq others
        → lookup (eq key) (merged eq es others) ≡ option_or (lookup (eq key) others) (lookup (eq key) es) }
    ensures order { (eq : K → K → Bool) (es others : List (K × V)) → keys_of (merged eq es others)
        ≡ keys_of es ++ first_appearances eq (keys_of es) (keys_of others) }
    ensures kept { (eq : K → K → Bool) (key : K) (es others : List (K × V))
        → is_member eq (keys_of es) key ≡ true → is_member eq (keys_of (merged eq es others)) key ≡ true }
    ensures distinct { (eq : K → K → Bool) → IsEquivalence eq → (es others : List (K × V))
        → IsEntries eq es → IsEntries eq (merged eq es others) }
{}
