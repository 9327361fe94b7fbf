#![tactic(auto)]
// Tables: a few cells, the first of them in use, and what their items are known by.
pub mod few;

ghost use Rattle.std.specs.Prelude.{◌≡◌, ℕ, ◌+◌, ◌-◌, ◌<◌, ◌≤◌, length, take, drop, MatchOption, slice_index_or};
ghost use Rattle.std.specs.List.{remove};
ghost use Rattle.table.specs.Found.{First, Lacks};
ghost use Rattle.table.specs.Ordered.{insert_by};

// An item of a table, known by its key.
pub trait Keyed {
    ghost key: { Self → ℕ };

    fn key(&self) -> u32
        ensures { result ≡ key self.now };
}

impl Keyed for u32 {
    ghost key = { λ n. n };

    fn key(&self) -> u32 {
        *self
    }
}

// The three functions below take a slice and a count, and no struct of both: they promise it of any
// slice. `Few` is the struct.

// The index of the first of the first `used` items with that key. It looks at one after the other,
// and is no binary search, since it promises it of items in any order.
pub fn find<T: Keyed>(table: &[T], used: usize, key: u32) -> Option<usize>
    ensures { MatchOption result (Lacks T.Keyed.key key (take used table.now)) (λ i. (i < used) × First T.Keyed.key key table.now i) }
{
    let items = &table[..used.min(table.len())];
    items.iter().position(|item| item.key() == key)
}

// Where an item of that key goes among the first `used`: before the first whose key is greater.
fn place<T: Keyed>(table: &[T], used: usize, key: u32) -> usize
    requires { used ≤ length table.now }
    ensures within { result ≤ used }
    ensures before { (j : ℕ) (d : T) → j < result → T.Keyed.key (slice_index_or (take used table.now) j d) ≤ key }
    ensures next { result < used → (d : T) → key < T.Keyed.key (slice_index_or (take used table.now) result d) }
{
    let items = &table[..used];
    items
        .iter()
        .position(|item| key < item.key())
        .unwrap_or(used)
}

// Puts the item before the first of the first `used` items whose key is greater, and moves the
// later ones up by one. A table with no free cell stays as it is.
pub fn insert<T: Keyed + Copy>(table: &mut [T], used: usize, item: T)
    ensures items { used < length table.old → take (used + 1) table.new ≡ insert_by T.Keyed.key item (take used table.old) }
    ensures rest { used < length table.old → drop (used + 1) table.new ≡ drop (used + 1) table.old }
    ensures full { length table.old ≤ used → table.new ≡ table.old }
{
    if used < table.len() {
        let at = place(table, used, item.key());
        table[at..used + 1].rotate_right(1);
        table[at] = item;
    }
}

// Takes the item at `at` out of the first `used`, and moves the later ones down by one. With no
// such item the table stays as it is.
pub fn remove<T: Copy>(table: &mut [T], used: usize, at: usize)
    ensures items { at < used → used ≤ length table.old → take (used - 1) table.new ≡ remove (take used table.old) at }
    ensures rest { at < used → used ≤ length table.old → drop used table.new ≡ drop used table.old }
    ensures past { used ≤ at → table.new ≡ table.old }
    ensures long { length table.old < used → table.new ≡ table.old }
{
    if at < used && used <= table.len() {
        table[at..used].rotate_left(1);
    }
}
