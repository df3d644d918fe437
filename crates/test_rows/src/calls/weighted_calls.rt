//! Lines that call a cache with a budget.
use crate::hashers::Hashing;
use crate::items::{Answer, Item, Line, Name, Shown, Stop, Word, no_memory, walk_and_clone};
use crate::spoken::Spoken;
use hashlink_weighted::{WeightError, WeightedCache};
use std::alloc::{AllocError, Global};
use std::mem;

pub type Weighted = WeightedCache<Item, Item, Hashing>;

impl Spoken for Weighted {
    fn count_items(&self) -> usize {
        self.len().saturating_mul(2)
    }

    /// Makes the call of a line. The number of a value is its weight.
    fn call(&mut self, _other: &Weighted, line: &mut Line<'_>) -> Result<(), Stop> {
        let name = line.words.word();
        let word = match_word!(name,
            "len" => Word::count(self.len()),
            "is_empty" => Word::Is(self.is_empty()),
            "total" => Word::Item(self.total(), 0),
            "budget" => Word::Item(self.budget(), 0),
            "try_take" => taken(mem::try_take(self)),
            "new" => Word::Item(new(line.home.alloc, self.budget()).budget(), 0),
            "get" => self.get(&line.item()?).shown(),
            "peek" => self.peek(&line.item()?).shown(),
            "remove" => self.remove(&line.item()?).shown(),
            "insert" => return put_pair(self, line),
            "insert_evicting" => return put_evicting(self, line),
            "iter" => return walk_and_clone(self.iter(), line),
            _ => return Err(Stop::Unread),
        );
        line.say(word)
    }
}

/// How many entries the cache had that was taken out.
fn taken(taken: Result<Weighted, AllocError>) -> Word {
    match taken {
        Ok(cache) => Word::count(cache.len()),
        Err(AllocError) => Word::Memory,
    }
}

/// A cache of this budget with the default hasher.
fn new(alloc: Global, budget: u64) -> WeightedCache<Name, Name> {
    WeightedCache::new(alloc, budget)
}

fn put_pair(cache: &mut Weighted, line: &mut Line<'_>) -> Result<(), Stop> {
    let (key, value) = line.pair()?;
    let weight = value.name().number;
    line.give(inserted(cache.insert(key, value, weight)))
}

/// Inserts a pair, with room to record each pair that it may evict.
fn put_evicting(cache: &mut Weighted, line: &mut Line<'_>) -> Result<(), Stop> {
    line.answers.words.reserve(cache.len())?;
    let (key, value) = line.pair()?;
    let answer = insert_evicting(cache, key, value, &mut line.answers.words);
    line.give(answer)
}

/// Records each evicted pair, in order.
fn insert_evicting(
    cache: &mut Weighted,
    key: Item,
    value: Item,
    evicted: &mut Vec<Word>,
) -> Answer {
    let weight = value.name().number;
    inserted(cache.insert_evicting(
        key,
        value,
        weight,
        &mut |key, value| {
            let _ = evicted.push((key, value).shown());
        },
    ))
}

fn inserted(answer: Result<Option<Item>, WeightError<Item, Item>>) -> Answer {
    match answer {
        Ok(old) => Answer::Word(old.shown()),
        Err(WeightError::Memory(pair)) => no_memory(pair),
        Err(WeightError::TooHeavy(pair)) => Answer::Back(Word::Heavy, pair.shown()),
    }
}

/// An entry of a cache with a budget, in which the number of the value is its weight.
impl Shown for (&Item, &Item, u64) {
    fn shown(self) -> Word {
        let (key, value, weight) = self;
        if weight != value.name().number {
            return Word::Wrong;
        }
        (key, value).shown()
    }
}
