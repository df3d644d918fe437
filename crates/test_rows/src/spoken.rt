//! Containers that the lines of a row call, and how they are printed.
ghost use Rattle.std.specs.Iterator.{IsFinite};

use crate::calls::{Map, Set, Weighted, call_map, call_set, call_sets, compare};
use crate::hashers::Hashing;
use crate::items::{Home, Line, Named, Shown, Stop, Word};
use hashlink::weighted::WeightedCache;
use hashlink::{LinkedHashMap, LinkedHashSet, LruCache};
use std::hash::Hash;

/// Where answers and contents are printed: nowhere, unless the program is asked to print them.
pub type Voice<'v> = Option<&'v HostRuntime>;

/// Prints the words of an answer.
pub fn say_words(rt: &HostRuntime, words: &[Word]) {
    let _ = print!(rt; "=");
    for word in words {
        say_word(rt, *word);
    }
    let _ = println!(rt; "");
}

pub fn say_word(rt: &HostRuntime, word: Word) {
    let _ = print!(rt; " {word}");
}

pub fn say_room(rt: &HostRuntime, len: usize, capacity: usize) {
    let _ = print!(rt; "+ {len} {capacity}");
}

/// Prints the words for all that are left, and ends the line.
pub fn say_all<I: Iterator>(rt: &HostRuntime, all: I)
where
    I::Item: Shown,
    requires begins { I.can_next all }
    requires ends { IsFinite (I.remaining all) }
{
    for it in all {
        say_word(rt, it.shown());
    }
    let _ = println!(rt; "");
}

/// A container of a row.
pub trait Stands: Sized {
    /// An empty container, of this capacity or budget if it has one.
    fn make(home: Home<'_>, capacity: usize) -> Self;

    /// Prints a line of its length, its capacity or budget, and its pairs.
    fn stand(&self, rt: &HostRuntime);
}

impl<K: Named + Eq + Hash + Drop, V: Named + Drop> Stands for LinkedHashMap<K, V, Hashing> {
    fn make(home: Home<'_>, _capacity: usize) -> LinkedHashMap<K, V, Hashing> {
        LinkedHashMap::with_hasher(home.alloc, home.hashing)
    }

    fn stand(&self, rt: &HostRuntime) {
        say_room(rt, self.len(), self.capacity());
        say_all(rt, self.iter());
    }
}

impl<T: Named + Eq + Hash + Drop> Stands for LinkedHashSet<T, Hashing> {
    fn make(home: Home<'_>, _capacity: usize) -> LinkedHashSet<T, Hashing> {
        LinkedHashSet::with_hasher(home.alloc, home.hashing)
    }

    fn stand(&self, rt: &HostRuntime) {
        say_room(rt, self.len(), self.capacity());
        say_all(rt, self.iter());
    }
}

impl<K: Named + Eq + Hash + Drop, V: Named + Drop> Stands for LruCache<K, V, Hashing> {
    fn make(home: Home<'_>, capacity: usize) -> LruCache<K, V, Hashing> {
        LruCache::with_hasher(home.alloc, capacity, home.hashing)
    }

    fn stand(&self, rt: &HostRuntime) {
        say_room(rt, self.len(), self.capacity());
        say_all(rt, self.iter());
    }
}

impl Stands for Weighted {
    fn make(home: Home<'_>, capacity: usize) -> Weighted {
        WeightedCache::with_hasher(home.alloc, capacity as u64, home.hashing)
    }

    fn stand(&self, rt: &HostRuntime) {
        say_room(rt, self.len(), self.budget() as usize);
        say_word(rt, Word::Item(self.total(), 0));
        say_all(rt, self.iter());
    }
}

/// A container that the lines of a row call.
pub trait Spoken: Sized {
    /// How many items it holds.
    fn count_items(&self) -> usize;

    /// Makes the call that the words name, after `both` of the two containers, if there are such calls.
    fn call(&mut self, other: &Self, line: &mut Line<'_>) -> Result<(), Stop>;
}

impl Spoken for Map {
    fn count_items(&self) -> usize {
        self.len().saturating_mul(2)
    }

    fn call(&mut self, other: &Map, line: &mut Line<'_>) -> Result<(), Stop> {
        if line.words.has("both") {
            return compare(self, other, line);
        }
        call_map(self, line)
    }
}

impl Spoken for Set {
    fn count_items(&self) -> usize {
        self.len()
    }

    fn call(&mut self, other: &Set, line: &mut Line<'_>) -> Result<(), Stop> {
        if line.words.has("both") {
            return call_sets(self, other, line);
        }
        call_set(self, line)
    }
}
