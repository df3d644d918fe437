//! Sessions by the time of their last use. Those that were not used for long expire.
ghost use Rattle.std.specs.Prelude.{◌≡◌, ◌≤◌, ◌++◌, ◌∷◌, [], ℕ, All, IsFalse, IsTrue, List, OnErr, OnOk};
ghost use Rattle.std.specs.Prelude.{filter, is_some, length, nat_eq, nat_le};
ghost use Rattle.std.specs.{List.Sorted.IsNonDecreasingBy, Map.{keys_of, lookup, remove_entry}};
ghost use Rattle.std.specs.Set.{remove_key};
ghost use Rattle.hashlink.specs.Keyed.{entries_of};

use hashlink::LinkedHashMap;
use std::alloc::{AllocError, Global};
use std::marker::Model;

/// Sessions, each with the time of its last use. A clause sees them in the order of these times, the one that
/// was used longest ago first.
#[derive(Drop)]
pub struct Sessions {
    last_uses: LinkedHashMap<u64, u64>,
}

impl Model for Sessions {
    ghost Value = { List (ℕ × ℕ) };

    ghost view = { λ s. entries_of s.last_uses };

    ghost invariant = { λ s. IsNonDecreasingBy (λ e. e.1) (entries_of s.last_uses) };
}

impl Sessions {
    /// Creates a table without sessions.
    pub fn new(alloc: Global) -> Self
        ensures { result ≡ [] }
    {
        Sessions {
            last_uses: LinkedHashMap::new(alloc),
        }
    }

    /// Opens a session, or uses it if it is open. If memory runs out, nothing changes.
    pub fn open(&mut self, session: u64, now: u64) -> Result<(), AllocError>
        requires { All (λ e. e.1 ≤ now) self.old }
        ensures opened { OnOk result
            (self.new ≡ remove_entry (nat_eq session) self.old ++ (session, now) ∷ []) }
        ensures order { OnOk result
            (keys_of self.new ≡ remove_key (nat_eq session) (keys_of self.old) ++ session ∷ []) }
        ensures unchanged { OnErr result (self.new ≡ self.old) }
    {
        let Ok(_) = self.last_uses.insert(session, now) else {
            return Err(AllocError);
        };
        Ok(())
    }

    /// Uses a session, and returns whether it is open.
    pub fn touch(&mut self, session: u64, now: u64) -> bool
        requires { All (λ e. e.1 ≤ now) self.old }
        ensures found { result ≡ is_some (lookup (nat_eq session) self.old) }
        ensures used { IsTrue result
            → self.new ≡ remove_entry (nat_eq session) self.old ++ (session, now) ∷ [] }
        ensures unchanged { IsFalse result → self.new ≡ self.old }
    {
        let Some(last_use) = self.last_uses.to_back(&session) else {
            return false;
        };
        *last_use = now;
        true
    }

    /// Closes the sessions that were last used before a time. The others stay as they are.
    pub fn expire(&mut self, before: u64)
        ensures { self.new ≡ filter (λ e. nat_le before e.1) self.old }
    {
        while let Some((_, last_use)) = self.last_uses.front() {
            if *last_use >= before {
                return;
            }
            self.last_uses.pop_front();
        }
    }

    /// Returns when a session was last used, if it is open.
    pub fn last_use(&self, session: u64) -> Option<u64>
        ensures { result ≡ lookup (nat_eq session) self.now }
    {
        self.last_uses.get(&session).copied()
    }

    /// Returns the number of sessions.
    pub fn len(&self) -> usize
        ensures len { result ≡ length self.now }

        // They are in the order of their last uses, whatever was called before.
        ensures ordered { IsNonDecreasingBy (λ e. e.1) self.now }
    {
        self.last_uses.len()
    }
}
