//! Numbers for names: each name has the place at which it came in, and keeps it.
ghost use Rattle.std.specs.Prelude.{◌≡◌, ◌++◌, ◌∷◌, [], ℕ, List, IfOk, OnErr, OnOk, Some, map, if◌then◌else◌};
ghost use Rattle.std.specs.{Prelude.{option_copied, option_map, slice_get, string_bytes}, Map.keys_of};
ghost use Rattle.std.specs.{Set.is_member, Str.bytes_eq};
ghost use Rattle.hashlink.specs.Keyed.{entries_of};
ghost use Rattle.hashlink_uses.specs.Numbered.{AreNumbered};

use hashlink::LinkedHashMap;
use std::alloc::{AllocError, Global};
use std::marker::Model;

/// Names with their numbers. A clause sees the names in the order in which they were added. The number of a
/// name is its index there.
#[derive(Drop)]
pub struct Symbols {
    numbers: LinkedHashMap<String, u64>,
}

impl Model for Symbols {
    ghost Value = { List (List ℕ) };

    ghost view = { λ s. map string_bytes (keys_of (entries_of s.numbers)) };

    ghost invariant = { λ s. AreNumbered (entries_of s.numbers) };
}

impl Symbols {
    /// Creates a table of no names.
    pub fn new(alloc: Global) -> Self
        ensures { result ≡ [] }
    {
        Symbols {
            numbers: LinkedHashMap::new(alloc),
        }
    }

    /// Returns the number of a name, which has one from then on. If memory runs out, nothing changes.
    pub fn number(&mut self, alloc: Global, name: &str) -> Result<u64, AllocError>
        ensures number { IfOk result (λ number. slice_get self.new number ≡ Some name.now) }
        ensures names { OnOk result (self.new
            ≡ if is_member bytes_eq self.old name.now then self.old else self.old ++ name.now ∷ []) }
        ensures unchanged { OnErr result (self.new ≡ self.old) }
    {
        if let Some(number) = self.numbers.get(name) {
            return Ok(*number);
        }
        let key = String::from_str(alloc, name)?;
        let number = self.numbers.len() as u64;
        let Ok(_) = self.numbers.insert(key, number) else {
            return Err(AllocError);
        };
        Ok(number)
    }

    /// Returns the name of a number, if there is one.
    pub fn name(&self, number: usize) -> Option<&String>
        ensures { option_map string_bytes (option_copied result) ≡ slice_get self.now number }
    {
        self.numbers.keys().nth(number)
    }
}
