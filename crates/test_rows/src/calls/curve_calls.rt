//! Lines that call a miss curve.
ghost use Rattle.std.specs.Prelude.{◌≡◌, IfOk};

use crate::hashers::Hashing;
use crate::items::{Answer, Home, Item, Line, Shown, Stop, Word, no_memory};
use crate::spoken::{Spoken, Stands, say_room, say_word};
use hashlink_curve::MissCurve;
use std::alloc::AllocError;

pub type Curve = MissCurve<Item, Hashing>;

impl Stands for Curve {
    fn make(home: Home<'_>, _capacity: usize) -> Curve {
        MissCurve::with_hasher(home.alloc, home.hashing)
    }

    /// Prints the numbers of keys and of uses, and each capacity at which the curve falls with its misses.
    fn stand(&self, rt: &HostRuntime) {
        say_room(rt, self.distinct(), self.accesses() as usize);
        for (capacity, misses) in self.falls() {
            say_word(rt, Word::Pair((capacity as u64, 0), (misses, 0)));
        }
        let _ = println!(rt; "");
    }
}

impl Spoken for Curve {
    fn count_items(&self) -> usize {
        self.distinct()
    }

    fn call(&mut self, _other: &Curve, line: &mut Line<'_>) -> Result<(), Stop> {
        let word = match_word!(line.words.word(),
            "distinct" => Word::count(self.distinct()),
            "accesses" => Word::Item(self.accesses(), 0),
            "misses" => Word::Item(self.misses(line.words.size()), 0),
            "falls" => Word::count(count_falls(self)),
            "is_reserved" => Word::Is(self.reserved() > 0),
            "record" => return record(self, line),
            "record_with" => return record_with(self, line),
            _ => return Err(Stop::Unread),
        );
        line.say(word)
    }
}

/// At how many capacities the curve falls.
fn count_falls(curve: &Curve) -> usize {
    let mut count = 0usize;
    for _ in curve.falls() {
        count = count.saturating_add(1);
    }
    count
}

/// Records the distance of the key, if it was used before.
fn record(curve: &mut Curve, line: &mut Line<'_>) -> Result<(), Stop> {
    let key = line.item()?;
    let answer = match curve.record(key) {
        Ok(distance) => said(distance),
        Err(key) => no_memory(key),
    };
    line.give(answer)
}

fn said(distance: Option<usize>) -> Answer {
    match distance {
        Some(others) => Answer::Word(Word::count(others)),
        None => Answer::Word(Word::Nothing),
    }
}

/// The same by the key, which is made only for a first use.
fn record_with(curve: &mut Curve, line: &mut Line<'_>) -> Result<(), Stop> {
    let name = line.words.name();
    let key = Item::new(line.home, name)?;
    let made = Item::new(line.home, name)?;
    let answer = match record_made(curve, &key, made) {
        Ok(distance) => said(distance),
        Err(AllocError) => Answer::Word(Word::Memory),
    };
    line.give(answer)
}

/// Records the key. The made key, which is equal to it, is the one that is recorded at a first use.
fn record_made(curve: &mut Curve, key: &Item, made: Item) -> Result<Option<usize>, AllocError>
    requires { made.group ≡ key.now.group }
{
    curve.record_with(
        key,
        || -> Result<Item, AllocError>
            ensures given { IfOk result (λ k. k ≡ made) }
        { Ok(made) },
    )
}
