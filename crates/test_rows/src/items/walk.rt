//! Iterators by steps from both ends.
ghost use Rattle.std.specs.Prelude.{⊤};

use crate::items::answers::{Stop, Word};
use crate::items::counts::add;
use crate::items::line::Line;
use crate::items::said::Shown;
use crate::items::steps::{Goes, Step};
use crate::items::words::Words;
use std::mem;

/// An iterator that goes from both ends.
pub trait Walk {
    /// Holds of the states at which a step may be made.
    ghost can_step: { Self → Type 0 } = { λ _. ⊤ };

    /// Makes the step, and returns the word for it. If a value is lent for writing, it is written.
    fn step(&mut self, step: Step) -> Word
        requires { can_step self.old };
}

/// An iterator that returns items and knows how many are left.
#[derive(Drop)]
pub struct Exact<I>(pub I);

impl<I: DoubleEndedIterator + ExactSizeIterator> Walk for Exact<I>
where
    I::Item: Shown,
{
    ghost can_step = { λ s. I.Iterator.can_next s.0 × I.DoubleEndedIterator.can_next_back s.0 };

    fn step(&mut self, step: Step) -> Word {
        let came = go(&mut self.0, step.goes);
        step.said(came, self.0.len(), self.0.size_hint())
    }
}

/// The word for what the iterator returns.
pub fn go<I: DoubleEndedIterator>(walk: &mut I, goes: Goes) -> Word
where
    I::Item: Shown,
    requires forth { I.Iterator.can_next walk.old }
    requires back { I.can_next_back walk.old }
{
    match goes {
        Goes::Left => Word::Nothing,
        Goes::Back => walk.next_back().shown(),
        _ => walk.next().shown(),
    }
}

/// Makes the steps up to a word `clone`, and records each. After `times` a step is made that many times.
pub fn take_steps<W: Walk>(walk: &mut W, line: &mut Line<'_>) -> Result<(), Stop>
    requires { (w : W) → W.can_step w }
{
    for _ in 0..64 {
        let Some((times, word)) = next_steps(&mut line.words) else {
            return Ok(());
        };
        repeat(walk, times, word, line)?;
    }
    Err(Stop::Unread)
}

/// How many times the next step is made, and its word, if there is one before the end or a word `clone`.
fn next_steps<'l>(words: &mut Words<'l>) -> Option<(u64, &'l str)> {
    match words.next() {
        Some("times") => Some((words.name().group, words.word())),
        Some("clone") | None => None,
        Some(word) => Some((1, word)),
    }
}

fn repeat<W: Walk>(walk: &mut W, times: u64, word: &str, line: &mut Line<'_>) -> Result<(), Stop>
    requires { (w : W) → W.can_step w }
{
    for _ in 0..times {
        let step = Step::read(word, &mut line.words);
        line.say(walk.step(step))?;
    }
    Ok(())
}

/// The same for an iterator that is passed by value.
pub fn walk_whole<W: Walk + Drop>(mut walk: W, line: &mut Line<'_>) -> Result<(), Stop>
    requires { (w : W) → W.can_step w }
{
    take_steps(&mut walk, line)
}

/// The same for an iterator that is then forgotten; each entry left counts as `items` items.
pub fn walk_and_forget<W: Walk + Iterator>(
    mut walk: W,
    items: usize,
    line: &mut Line<'_>,
) -> Result<(), Stop>
    requires { (w : W) → W.Walk.can_step w }
{
    let taken = take_steps(&mut walk, line);
    let (left, _) = walk.size_hint();
    let counts = line.home.counts;
    add(&counts.forgotten, left.saturating_mul(items) as u64);
    add(&counts.lost, left as u64);
    mem::forget(walk);
    taken
}

/// The same for an iterator that returns items. A clone makes the steps after `clone`, then the iterator.
pub fn walk_and_clone<I: DoubleEndedIterator + ExactSizeIterator + Clone + Drop>(
    first: I,
    line: &mut Line<'_>,
) -> Result<(), Stop>
where
    I::Item: Shown,
    requires forth { (s : I) → I.Iterator.can_next s }
    requires back { (s : I) → I.DoubleEndedIterator.can_next_back s }
{
    let mut first = Exact(first);
    take_steps(&mut first, line)?;
    if line.words.rest.is_empty() {
        return Ok(());
    }
    let again = line.words;
    walk_whole(Exact(first.0.clone()?), line)?;
    line.words = again;
    walk_whole(first, line)
}
