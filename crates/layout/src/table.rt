// Keys and values side by side in two arrays of 13 places, of which the first `len` are in use.
// kept: two arrays, a length and no invariant of its own, the project's form of a list of pairs (docs/DECISIONS.md); so each method that needs `len ≤ 13` asks for it.
ghost use Rattle.std.specs.Prelude.{◌≡◌, ◌+◌, ◌-◌, ◌<◌, ◌≤◌, [], length, nat_lt, take, slice_set};
ghost use Rattle.std.specs.List.{insert, prefix_len, slice_get};
ghost use Rattle.layout.specs.Held.{pairs_left};
ghost use Rattle.layout.specs.PairLists.{value_of, with_pair};
ghost use Rattle.layout.specs.Tables.{pairs_in};

use crate::iter::PairsIter;
use crate::meanings::Pair;

#[derive(Clone, Copy)]
pub struct Table {
    pub keys: [u8; 13],
    pub values: [i32; 13],
    pub len: usize,
}

// Puts `x` at a place and moves the elements from there on up by one; the last one makes room.
fn insert_at<T: Copy>(xs: &mut [T], at: usize, x: T)
    requires { at < length xs.old }
    ensures { xs.new ≡ insert (take (length xs.old - 1) xs.old) at x }
{
    xs.copy_within(at..xs.len() - 1, at + 1);
    xs[at] = x;
}

impl Table {
    pub(crate) fn new() -> Table
        ensures { (pairs_in result ≡ []) × (result.len ≡ 0) }
    {
        Table {
            keys: [0; 13],
            values: [0; 13],
            len: 0,
        }
    }

    pub(crate) fn iter(&self) -> PairsIter<'_>
        requires { self.now.len ≤ 13 }
        ensures { pairs_left result ≡ pairs_in self.now }
    {
        PairsIter::new(&self.keys[..self.len], &self.values[..self.len])
    }

    // How many keys stand before this one.
    // kept: no `partition_point`: its answer needs rising keys, a premise that the table does not have and `place` and `lay` would have to ask for.
    pub(crate) fn place(&self, key: u8) -> usize
        requires { self.now.len ≤ 13 }
        ensures { result ≡ prefix_len (λ k. nat_lt k key) (take self.now.len self.now.keys) }
    {
        self.keys[..self.len]
            .iter()
            .take_while(|k| **k < key)
            .count()
    }

    pub(crate) fn find(&self, key: u8) -> Option<i32>
        requires { self.now.len ≤ 13 }
        ensures { result ≡ value_of (pairs_in self.now) key }
    {
        self.keys[..self.len]
            .iter()
            .zip(&self.values[..self.len])
            .find(|(k, _)| **k == key)
            .map(|(_, value)| *value)
    }

    // Adds a pair behind the others.
    pub(crate) fn push(&mut self, pair: Pair)
        requires room { self.old.len < 13 }
        ensures pairs { pairs_in self.new ≡ insert (pairs_in self.old) self.old.len pair }
        ensures len { self.new.len ≡ self.old.len + 1 }
    {
        self.keys[self.len] = pair.key;
        self.values[self.len] = pair.value;
        self.len += 1;
    }

    // Out of line: a pair seldom comes between others, and the two copies take the registers of each
    // loop that lays pairs.
    #[inline(never)]
    pub(crate) fn insert(&mut self, at: usize, pair: Pair)
        requires within { at ≤ self.old.len }
        requires room { self.old.len < 13 }
        ensures pairs { pairs_in self.new ≡ insert (pairs_in self.old) at pair }
        ensures len { self.new.len ≡ self.old.len + 1 }
    {
        insert_at(&mut self.keys[..=self.len], at, pair.key);
        insert_at(&mut self.values[..=self.len], at, pair.value);
        self.len += 1;
    }

    #[tactic(auto, using(crate::proofs::Paired::paired_set))]
    pub(crate) fn replace(&mut self, at: usize, pair: Pair)
        requires within { at < self.old.len }
        requires fits { self.old.len ≤ 13 }
        ensures pairs { pairs_in self.new ≡ slice_set (pairs_in self.old) at pair }
        ensures len { self.new.len ≡ self.old.len }
    {
        self.keys[at] = pair.key;
        self.values[at] = pair.value;
    }

    // How many pairs there are.
    #[tactic(auto, using(crate::proofs::Paired::length_listed))]
    pub(crate) fn count(&self) -> usize
        requires { self.now.len ≤ 13 }
        ensures pairs { result ≡ length (pairs_in self.now) }
        ensures few { result ≤ 13 }
    {
        self.len
    }

    // The pair at a place.
    #[tactic(auto, using(crate::proofs::Paired::slice_get_listed))]
    pub(crate) fn at(&self, i: usize) -> Option<Pair>
        requires { self.now.len ≤ 13 }
        ensures { result ≡ slice_get (pairs_in self.now) i }
    {
        (i < self.len).then(|| Pair {
            key: self.keys[i],
            value: self.values[i],
        })
    }

    // Adds a pair at its place in the order, or replaces the one of its key.
    pub(crate) fn lay(&mut self, pair: Pair)
        requires few { self.old.len ≤ 13 }
        requires room { length (with_pair pair (pairs_in self.old)) ≤ 13 }
        ensures pairs { pairs_in self.new ≡ with_pair pair (pairs_in self.old) }
        ensures few { self.new.len ≤ 13 }
    {
        let at = self.place(pair.key);
        if at == self.len {
            self.push(pair);
        } else if self.keys[at] == pair.key {
            self.replace(at, pair);
        } else {
            self.insert(at, pair);
        }
    }
}
