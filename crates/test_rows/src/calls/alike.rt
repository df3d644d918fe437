//! Iterators over two sets, with their bounds, compared with a clone.
use crate::items::{Item, Line, Name, Shown, Stop, Word};

/// Records the bounds and the item of each step: for the given number of steps or, without a number, up to
/// the end. After that no item may follow. A clone that is made after the first step has to return the same.
pub fn say_steps<'s, I: Iterator<Item = &'s Item> + Clone>(
    mut first: I,
    steps: Option<Name>,
    line: &mut Line<'_>,
) -> Result<(), Stop>
    requires { (s : I) → I.can_next s }
{
    let Some(steps) = steps else {
        return say_all(first, line);
    };
    for _ in 0..steps.group {
        line.say_all(&next_step(&mut first))?;
    }
    Ok(())
}

fn say_all<'s, I: Iterator<Item = &'s Item> + Clone>(
    mut first: I,
    line: &mut Line<'_>,
) -> Result<(), Stop>
    requires { (s : I) → I.can_next s }
{
    let mut step = next_step(&mut first);
    line.say_all(&step)?;
    let mut clone = first.clone()?;
    for _ in 0..64 {
        if step[2] == Word::Nothing {
            return say_end(&mut first, line);
        }
        step = next_step(&mut first);
        line.say_all(&step)?;
        if next_step(&mut clone) != step {
            line.say(Word::Wrong)?;
        }
    }
    Err(Stop::Unread)
}

/// Records `Wrong` if an iterator that has ended does not stay ended.
fn say_end<'s, I: Iterator<Item = &'s Item>>(walk: &mut I, line: &mut Line<'_>) -> Result<(), Stop>
    requires { (s : I) → I.can_next s }
{
    if walk.next().is_none() && matches!(walk.size_hint(), (0, Some(0))) {
        return Ok(());
    }
    line.say(Word::Wrong)
}

/// The bounds on the number of items left, and then the next item.
fn next_step<'s, I: Iterator<Item = &'s Item>>(walk: &mut I) -> [Word; 3]
    requires { (s : I) → I.can_next s }
{
    let (least, most) = walk.size_hint();
    let most = match most {
        Some(most) => Word::count(most),
        None => Word::Nothing,
    };
    [Word::count(least), most, walk.next().shown()]
}
