//! Marks at places, and the number of marks before a place.
ghost use Rattle.std.specs.Prelude.{◌≡◌, ℕ, ◌+◌, ◌-◌, ◌/◌, ◌<◌, ◌≤◌, ◌^◌, List, [], ◌∷◌, ◌++◌, IfOk, nat_lt};
ghost use Rattle.std.specs.{Prelude.{slice_index, length, set, sum}, List.count_by};
ghost use Rattle.hashlink_curve.specs.Marks.{Marked, rows_of, sum_before, HasNode, CanChange, changed};

use std::alloc::{AllocError, Global};
use std::marker::Model;

/// The greatest number of places.
const MAX_PLACES: usize = 1 << 60;

/// The number of entries of a row that have one sum.
const BLOCK: usize = 64;

/// Marks at places. Above the row of places is a row of sums, one for each block of 64 places. Above it is a
/// row of the sums of its blocks, and so on up to a row of one block.
#[derive(Drop)]
pub(crate) struct Marks {
    row: Vec<u8>,
    sums: Vec<Vec<usize>>,
}

impl Model for Marks {
    ghost use Rattle.std.specs.Prelude.{ℕ, List};
    ghost use Rattle.hashlink_curve.specs.Marks.{AreSummed, rows_of};

    ghost Value = { List ℕ };

    ghost view = { λ m. m.row.items };

    ghost invariant = { λ m. AreSummed m.row.items (rows_of m.sums.items) };
}

impl Marks {
    /// Creates a row without places. It does not allocate.
    pub(crate) fn new(alloc: Global) -> Self
        ensures unmarked { Marked result [] }
        ensures none { length result ≡ 0 }
    {
        Marks {
            row: Vec::new(alloc),
            sums: Vec::new(alloc),
        }
    }

    /// Creates a row of this many places without a mark.
    pub(crate) fn with_places(alloc: Global, places: usize) -> Result<Self, AllocError>
        ensures unmarked { IfOk result (λ marks. Marked marks []) }
        ensures exact { IfOk result (λ marks. length marks ≡ places) }
    {
        if places > MAX_PLACES {
            return Err(AllocError);
        }
        let row = vec![in alloc; 0; places]?;
        let mut sums = Vec::new(alloc);
        let mut width = places;
        while width > BLOCK {
            width = width / BLOCK + 1;
            sums.push(vec![in alloc; 0; width]?)?;
        }
        Ok(Marks { row, sums })
    }

    /// Returns the number of places.
    pub(crate) fn width(&self) -> usize
        ensures { result ≡ length self.now }
    {
        self.row.len()
    }

    /// Returns the number of marks before the place. It takes at most 63 steps for each row.
    fn before(&self, place: usize) -> usize
        requires { place < length self.now }
        ensures { (places : List ℕ) → Marked self.now places → result ≡ count_by
            (λ p. nat_lt p place) places }
    {
        let node = place / BLOCK;
        sum_of_bytes(&self.row[BLOCK * node..place]) + sum_before(&self.sums, node)
    }

    /// Sets a mark at the place, which has to have none. It takes a step for each row.
    pub(crate) fn mark(&mut self, place: usize)
        requires within { place < length self.old }
        requires unmarked { slice_index self.old place ≡ 0 }
        ensures marked { (xs ys : List ℕ) → Marked self.old (xs ++ ys) → Marked self.new (xs ++ place ∷ ys) }
        ensures width { length self.new ≡ length self.old }
        ensures small { length self.new < 2 ^ 62 }
    {
        self.change_at(place, 0, 1);
    }

    /// Moves the mark at `place`, which has to have one, to the place `to`, which has to have none. Returns
    /// the number of marks before `place`. It takes at most 65 steps for each row.
    pub(crate) fn move_mark(&mut self, place: usize, to: usize) -> usize
        requires within { (place < length self.old) × (to < length self.old) }
        requires marked { 0 < slice_index self.old place }
        requires unmarked { slice_index self.old to ≡ 0 }
        ensures before { (places : List ℕ) → Marked self.old places → result ≡ count_by
            (λ p. nat_lt p place) places }
        ensures moved { (xs ys : List ℕ) → Marked self.old (xs ++ place ∷ ys)
            → Marked self.new ((xs ++ ys) ++ to ∷ []) }
        ensures width { length self.new ≡ length self.old }
        ensures small { length self.new < 2 ^ 62 }
    {
        let before = self.before(place);
        self.change_at(place, 1, 0);
        self.mark(to);
        before
    }

    /// Subtracts `less` marks from the place, and adds `more`. It takes a step for each row.
    fn change_at(&mut self, place: usize, less: u8, more: u8)
        requires within { place < length self.old }
        requires enough { less ≤ slice_index self.old place }
        requires one { slice_index self.old place ≤ 1 → slice_index self.old place + more ≤ less + 1 }
        ensures changed { self.new ≡ set self.old place (slice_index self.old place - less + more) }
        ensures small { length self.new < 2 ^ 62 }
    {
        self.row[place] = self.row[place] - less + more;
        change(
            &mut self.sums,
            place / BLOCK,
            usize::from(less),
            usize::from(more),
        );
    }
}

/// Returns the sum of the bytes.
fn sum_of_bytes(bytes: &[u8]) -> usize
    requires { sum bytes.now < 2 ^ 64 }
    ensures { result ≡ sum bytes.now }
{
    bytes.iter().map(|&byte| usize::from(byte)).sum()
}

/// Returns the sum of the numbers.
fn sum_of(numbers: &[usize]) -> usize
    requires { sum numbers.now < 2 ^ 64 }
    ensures { result ≡ sum numbers.now }
{
    numbers.iter().sum()
}

/// Returns the sum before the node in the first row. Each further row has the sums of the blocks of the row
/// before.
fn sum_before(rows: &[Vec<usize>], node: usize) -> usize
    requires within { HasNode node (rows_of rows.now) }
    requires fits { sum_before node (rows_of rows.now) < 2 ^ 64 }
    ensures { result ≡ sum_before node (rows_of rows.now) }
{
    let Some((row, above)) = rows.split_first() else {
        return 0;
    };
    let next = node / BLOCK;
    sum_of(&row[BLOCK * next..node]) + sum_before(above, next)
}

/// Subtracts `less` from the node in the first row, adds `more`, and does the same in the rows above.
fn change(rows: &mut [Vec<usize>], node: usize, less: usize, more: usize)
    requires { CanChange node less more (rows_of rows.old) }
    ensures { rows_of rows.new ≡ changed node less more (rows_of rows.old) }
{
    if rows.is_empty() {
        return;
    }
    let (first, above) = rows.split_at_mut(1);
    let row = &mut first[0];
    row[node] = row[node] - less + more;
    change(above, node / BLOCK, less, more);
}
