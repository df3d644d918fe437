//! First appearances of items and of lines.
ghost use Rattle.std.specs.{Prelude.{◌≡◌, [], ◌∷◌, ◌++◌, IfOk, OnOk, if◌then◌else◌, map}, Set.is_member};
ghost use Rattle.std.specs.{Str.bytes_eq, Str.Lines.lines};
ghost use Rattle.hashlink.specs.Sets.{elements_of};
ghost use Rattle.hashlink_uses.specs.Appearances.{first_appearances};

use hashlink::LinkedHashSet;
use std::alloc::{AllocError, Global};
use std::hash::Hash;

/// Returns the items that equal no earlier one, in their order.
pub fn distinct<T: Copy + Eq + Hash>(
    alloc: Global,
    items: &[T],
) -> Result<LinkedHashSet<T>, AllocError>
    ensures { IfOk result (λ seen. elements_of seen ≡ first_appearances T.eq [] items.now) }
{
    let mut seen = LinkedHashSet::new(alloc);
    for item in items {
        add_new(&mut seen, *item)?;
    }
    Ok(seen)
}

/// Puts an item last, unless an equal one is present.
fn add_new<T: Copy + Eq + Hash>(seen: &mut LinkedHashSet<T>, item: T) -> Result<(), AllocError>
    ensures { OnOk result (elements_of seen.new
        ≡ if is_member T.eq (elements_of seen.old) item then elements_of seen.old
        else elements_of seen.old ++ item ∷ []) }
{
    if seen.contains(&item) {
        return Ok(());
    }
    match seen.insert(item) {
        Ok(_) => Ok(()),
        Err(_) => Err(AllocError),
    }
}

/// Returns the lines of a text that equal no earlier one, in their order.
pub fn distinct_lines(alloc: Global, text: &str) -> Result<LinkedHashSet<&str>, AllocError>
    ensures { IfOk result (λ seen. map (λ line. line.now) (elements_of seen)
        ≡ first_appearances bytes_eq [] (lines text.now)) }
{
    let lines = lines_of(alloc, text)?;
    distinct(alloc, lines.as_slice())
}

/// Returns the lines of a text.
fn lines_of(alloc: Global, text: &str) -> Result<Vec<&str>, AllocError>
    ensures { IfOk result (λ found. map (λ line. line.now) found.items ≡ lines text.now) }
{
    text.lines().collect(alloc)
}
