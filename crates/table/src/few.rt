// Tables of fixed length whose first cells are in use.
ghost use Rattle.std.specs.Prelude.{◌≡◌, ◌≤◌, length, ⊤};

use crate::Keyed;
use std::alloc::AllocError;

// At most `N` items: the first `used` cells of a table. A Vec would take memory of the heap, which
// no call here may; the library's ArrayVec is not Copy, as cards and decks are, and says nothing of
// the cells past its count.
pub struct Few<T, const N: usize> {
    pub table: [T; N],
    pub used: usize,
    ghost whole: { length table ≡ N },
    ghost few: { used ≤ N },
}

// By hand, since no derive takes a struct with a ghost field and a type parameter.
impl<T: Copy, const N: usize> Clone for Few<T, N> {
    ghost is_clone = { λ x y. y ≡ x };

    ghost is_infallible = { λ _. ⊤ };

    fn clone(&self) -> Result<Few<T, N>, AllocError> {
        Ok(*self)
    }
}

impl<T: Copy, const N: usize> Copy for Few<T, N> {}

impl<T, const N: usize> Few<T, N> {
    ghost use Rattle.std.specs.Prelude.{nat_le};
    ghost use Rattle.table.specs.Few.{items_of};

    // How many items there are.
    pub fn len(&self) -> usize
        ensures { result ≡ length (items_of self.now) }
    {
        self.as_slice().len()
    }

    pub fn as_slice(&self) -> &[T]
        ensures { result.now ≡ items_of self.now }
    {
        &self.table[..self.used]
    }

    // Whether there is no room for another item.
    pub fn is_full(&self) -> bool
        ensures { result ≡ nat_le N (length (items_of self.now)) }
    {
        self.used == N
    }
}

impl<T: Copy, const N: usize> Few<T, N> {
    ghost use Rattle.std.specs.Prelude.{◌+◌, ◌<◌, [], take, drop};
    ghost use Rattle.std.specs.List.{remove};
    ghost use Rattle.table.specs.Few.{items_of};

    // No item; `filler` stands in the cells that are not in use.
    pub fn new(filler: T) -> Few<T, N>
        ensures { items_of result ≡ [] }
    {
        Few {
            table: [filler; N],
            used: 0,
        }
    }

    // The first `N` of these items; `filler` stands in the cells that are not in use.
    pub fn from_slice(filler: T, items: &[T]) -> Few<T, N>
        ensures first { items_of result ≡ take N items.now }
        ensures all { length items.now ≤ N → items_of result ≡ items.now }
    {
        let used = items.len().min(N);
        let mut table = [filler; N];
        table[..used].copy_from_slice(&items[..used]);
        Few { table, used }
    }

    // Takes the item at `at` out, and moves the later ones down by one. With no such item the table
    // stays as it is.
    pub fn remove(&mut self, at: usize)
        ensures items { at < self.old.used → items_of self.new ≡ remove (items_of self.old) at }
        ensures rest { at < self.old.used → drop self.old.used self.new.table ≡ drop self.old.used self.old.table }
        ensures past { self.old.used ≤ at → self.new ≡ self.old }
    {
        if at < self.used {
            let cells = &mut self.table[..];
            crate::remove(cells, self.used, at);
            self.used -= 1;
        }
    }
}

impl<T: Keyed, const N: usize> Few<T, N> {
    ghost use Rattle.std.specs.Prelude.{◌<◌, MatchOption};
    ghost use Rattle.table.specs.Few.{items_of};
    ghost use Rattle.table.specs.Found.{First, Lacks};

    // The index of the first item with that key.
    pub fn find(&self, key: u32) -> Option<usize>
        ensures { MatchOption result (Lacks T.Keyed.key key (items_of self.now)) (λ i. (i < self.now.used) × First T.Keyed.key key self.now.table i) }
    {
        crate::find(&self.table[..], self.used, key)
    }
}

impl<T: Keyed + Copy, const N: usize> Few<T, N> {
    ghost use Rattle.std.specs.Prelude.{◌+◌, ◌<◌, drop};
    ghost use Rattle.table.specs.Few.{items_of};
    ghost use Rattle.table.specs.Ordered.{insert_by};

    // Puts the item before the first whose key is greater, and moves the later ones up by one. A
    // full table stays as it is.
    pub fn insert(&mut self, item: T)
        ensures items { self.old.used < N → items_of self.new ≡ insert_by T.Keyed.key item (items_of self.old) }
        ensures rest { self.old.used < N → drop (self.old.used + 1) self.new.table ≡ drop (self.old.used + 1) self.old.table }
        ensures full { N ≤ self.old.used → self.new ≡ self.old }
    {
        if self.used < N {
            let cells = &mut self.table[..];
            crate::insert(cells, self.used, item);
            self.used += 1;
        }
    }
}
