//! Runs a row.
use crate::calls::{Cache, Curve, Map, Set, Weighted};
use crate::hashers::Hashing;
use crate::items::{Home, Line, Name, Stop, Word, Words, are_written};
use crate::lists::{run_as_uses, run_list, run_on_pair};
use crate::row::{Row, cut, words_of};
use crate::spoken::{Spoken, Stands, say_words};
use crate::texts::run_as_text;
use hashlink::{LinkedHashMap, LinkedHashSet, LruCache};

/// Runs the row, after which no item may live. A row for which an allocation fails is counted as left out.
pub fn run<'f>(row: Row<'f>, line: &mut Line<'f>) -> Result<(), Stop> {
    match run_under_all(row, line) {
        Err(Stop::Memory) => leave_out(line),
        ended => ended?,
    }
    line.place = (row.first, row.mode);
    Stop::Living.unless(line.home.living() == 0)
}

fn leave_out(line: &mut Line<'_>) {
    line.answers.tally.left_out = line.answers.tally.left_out.saturating_add(1);
    if let Some(rt) = line.voice {
        let _ = println!(rt; "left out");
    }
}

/// The hashers by their words.
const HASHERS: [(&str, Hashing); 3] = [
    ("default", Hashing::Default),
    ("same_hash", Hashing::Same),
    ("two_hashes", Hashing::Two),
];

/// Runs the row under the hasher that it names, or else under each. Commands to two caches, uses and texts
/// are run only under the default one.
fn run_under_all<'f>(row: Row<'f>, line: &mut Line<'f>) -> Result<(), Stop> {
    line.words = Words::new(row.mode);
    if let Some(hashing) = line.words.known(&HASHERS) {
        return run_under(row, hashing, line);
    }
    let words = line.words;
    match_word!(line.words.word(),
        "pair_commands" => run_on_pair(row, line),
        "uses" => run_as_uses(row, line),
        "text" => run_as_text(row, line),
        _ => {
            for (_, hashing) in HASHERS {
                line.words = words;
                run_under(row, hashing, line)?;
            }
            Ok(())
        },
    )
}

/// Runs the row under one hasher. The words name the container.
fn run_under<'f>(row: Row<'f>, hashing: Hashing, line: &mut Line<'f>) -> Result<(), Stop> {
    begin(row, hashing, line);
    match_word!(line.words.word(),
        "map" => speak::<Map>(row, line),
        "set" => speak::<Set>(row, line),
        "cache" => speak::<Cache>(row, line),
        "weighted" => speak::<Weighted>(row, line),
        "curve" => speak::<Curve>(row, line),
        "copied_map" => speak::<LinkedHashMap<Name, Name, Hashing>>(row, line),
        "copied_set" => speak::<LinkedHashSet<Name, Hashing>>(row, line),
        "commands" => run_list::<LinkedHashMap<u64, u64, Hashing>>(row, line),
        "cache_commands" => run_list::<LruCache<u64, u64, Hashing>>(row, line),
        _ => Err(Stop::Unread),
    )
}

/// Prints the row and the hasher to which the following output belongs.
pub fn begin<'f>(row: Row<'f>, hashing: Hashing, line: &mut Line<'f>) {
    line.place = (row.first, row.mode);
    line.home.hashing = hashing;
    if let Some(rt) = line.voice {
        let first = row.first;
        let hasher = name_of(hashing);
        let _ = println!(rt; "row {first} {hasher}");
    }
}

fn name_of(hashing: Hashing) -> &'static str {
    match hashing {
        Hashing::Default => "default",
        Hashing::Same => "same_hash",
        Hashing::Two => "two_hashes",
    }
}

/// Makes the calls on two empty containers. Their capacity, if they have one, is the next word.
fn speak<'f, C: Spoken + Stands + Drop>(row: Row<'f>, line: &mut Line<'f>) -> Result<(), Stop> {
    let (home, capacity) = (line.home, line.words.capacity());
    let mut speech = Speech {
        first: C::make(home, capacity),
        second: C::make(home, capacity),
        is_sure: true,
    };
    count_anew(home);
    speech.run(row, line)
}

fn count_anew(home: Home<'_>) {
    let _cost = home.cost();
    let _clones = home.clones();
    let _lost = home.lost();
}

/// The two containers of a row.
#[derive(Drop)]
struct Speech<C> {
    first: C,
    second: C,
    /// Whether the next answer has to be the written one: no call with a written answer failed to allocate.
    is_sure: bool,
}

impl<C: Spoken + Stands> Speech<C> {
    /// Runs the lines of the row, except for comments, which begin with `#`.
    fn run<'f>(&mut self, row: Row<'f>, line: &mut Line<'f>) -> Result<(), Stop> {
        let mut number = row.first;
        for text in row.lines.split('\n') {
            line.place = (number, text);
            if !text.starts_with('#') {
                self.run_line(text, line)?;
            }
            number = number.saturating_add(1);
        }
        Ok(())
    }

    fn run_line<'f>(&mut self, text: &'f str, line: &mut Line<'f>) -> Result<(), Stop> {
        let (calls, wanted) = cut(text);
        let (words, last) = words_of(calls);
        for n in words.n..last.saturating_add(1) {
            self.run_calls(Words { n, ..words }, wanted, line)?;
        }
        Ok(())
    }

    /// Makes the calls of a line, between which stand commas, as between their answers.
    fn run_calls<'f>(
        &mut self,
        words: Words<'f>,
        wanted: Option<&'f str>,
        line: &mut Line<'f>,
    ) -> Result<(), Stop> {
        let mut answers = wanted.unwrap_or("").split(", ");
        for rest in words.rest.split(", ") {
            let answer = answers.next();
            Stop::Unread.unless(wanted.is_none() || answer.is_some())?;
            line.words = Words { rest, ..words };
            line.answers.words.clear();
            self.run_call(if wanted.is_some() { answer } else { None }, line)?;
        }
        Stop::Unread.unless(wanted.is_none() || answers.next().is_none())
    }

    /// Makes the call that the words name, and judges its answer.
    fn run_call<'f>(&mut self, wanted: Option<&'f str>, line: &mut Line<'f>) -> Result<(), Stop> {
        self.call(wanted.is_some(), line)?;
        Stop::Unread.unless(!line.words.is_unread)?;
        self.say(line);
        self.judge(wanted, line)
    }

    /// Makes the call that the words name on the first container or, after `other`, on the second, or records
    /// the counts. A line that asks for hashes, comparisons or clones has to have its answer, which
    /// `is_answered` tells, because the reference model does not know them.
    fn call(&mut self, is_answered: bool, line: &mut Line<'_>) -> Result<(), Stop> {
        let words = line.words;
        match line.words.word() {
            "other" => self.second.call(&self.first, line),
            "count_anew" => {
                count_anew(line.home);
                Ok(())
            }
            "cost" | "clones" if !is_answered => Err(Stop::Unread),
            "cost" => {
                let (hashes, comparisons) = line.home.cost();
                line.say_all(&[Word::Item(hashes, 0), Word::Item(comparisons, 0)])
            }
            "clones" => {
                let clones = line.home.clones();
                line.say(Word::Item(clones, 0))
            }
            "lost" => {
                let lost = line.home.lost();
                line.say(Word::Item(lost, 0))
            }
            _ => {
                line.words = words;
                self.first.call(&self.second, line)
            }
        }
    }

    /// Prints the answer, and the contents of each container afterwards.
    fn say(&self, line: &Line<'_>) {
        if let Some(rt) = line.voice {
            say_words(rt, line.answers.words.as_slice());
            self.first.stand(rt);
            self.second.stand(rt);
        }
    }

    /// Judges the answer, and the number of live items.
    fn judge(&mut self, wanted: Option<&str>, line: &mut Line<'_>) -> Result<(), Stop> {
        Stop::Answer.unless(self.is_written(wanted, line))?;
        let (first, second) = (self.first.count_items(), self.second.count_items());
        Stop::Living.unless(line.home.living() == first.saturating_add(second))
    }

    /// Whether the answer is the written one, if it has to be. An answer of no words is not written.
    fn is_written(&mut self, wanted: Option<&str>, line: &mut Line<'_>) -> bool {
        let is_refused = line.answers.count_refused();
        let words = line.answers.words.as_slice();
        let Some(wanted) = wanted else {
            self.is_sure = self.is_sure && !is_refused;
            return line.is_open || words.is_empty();
        };
        let is_written = are_written(words, wanted, line.words.n);
        self.is_sure = self.is_sure && (is_written || !is_refused);
        is_written || !self.is_sure
    }
}
