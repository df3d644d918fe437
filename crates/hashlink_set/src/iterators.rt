//! A step over the items of one iterator and then of another.
ghost use Rattle.hashlink_set.specs.Walks.{GivesFromTwo};

/// Returns the next item of `first` or, if it has none, of `second`. It costs what the steps cost.
#[inline(always)]
pub(crate) fn next_of_two<X, A: Iterator<Item = X>, B: Iterator<Item = X>>(
    first: &mut A,
    second: &mut B,
) -> Option<X>
    requires first { A.can_next first.old }
    requires second { B.can_next second.old }
    ensures { GivesFromTwo A.next_gives B.next_gives first.old second.old result first.new
        second.new }
{
    if let Some(item) = first.next() {
        return Some(item);
    }
    second.next()
}
