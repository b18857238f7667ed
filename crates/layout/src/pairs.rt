// A list of pairs: rising keys, each once, and values that the catalogue admits. So it has at most 13.
ghost use Rattle.std.specs.Prelude.{◌≡◌, ◌≤◌, true, [], length, if◌then◌else◌};
ghost use Rattle.std.specs.List.{slice_get};
ghost use Rattle.layout.specs.Catalogue.{admits as admitted};
ghost use Rattle.layout.specs.PairLists.{well_formed, merged, value_of, with_pair};
ghost use Rattle.layout.specs.Tables.{pairs_in};

use crate::catalogue::admits;
use crate::meanings::Pair;
use crate::table::Table;

#[derive(Clone, Copy)]
pub struct Pairs {
    pub(crate) table: Table,
    ghost few: { table.len ≤ 13 },
    ghost ok: { well_formed (pairs_in table) ≡ true },
}

impl Pairs {
    pub fn new() -> Pairs
        ensures { pairs_in result.table ≡ [] }
    {
        Pairs {
            table: Table::new(),
        }
    }

    pub fn len(&self) -> usize
        ensures len { result ≡ length (pairs_in self.now.table) }
        ensures few { result ≤ 13 }
    {
        self.table.count()
    }

    pub fn value(&self, key: u8) -> Option<i32>
        ensures { result ≡ value_of (pairs_in self.now.table) key }
    {
        self.table.find(key)
    }

    // The pair at a place, counted from 0 in the order of the keys.
    pub fn at(&self, i: usize) -> Option<Pair>
        ensures { result ≡ slice_get (pairs_in self.now.table) i }
    {
        self.table.at(i)
    }

    // Adds a pair or replaces the one of its key; false, and no change, where the catalogue does not admit it.
    // kept: the answer is a bool: there is one way only to fail, and the pair that was refused is the caller's copy.
    pub fn lay(&mut self, pair: Pair) -> bool
        ensures answer { result ≡ admitted pair }
        ensures pairs { pairs_in self.new.table ≡ (if admitted pair then with_pair pair (pairs_in self.old.table) else pairs_in self.old.table) }
    {
        if !admits(pair) {
            return false;
        }
        self.table.lay(pair);
        true
    }

    // Lays the pairs of another list over these, in their order.
    pub(crate) fn overlay(&mut self, other: &Pairs)
        ensures { pairs_in self.new.table ≡ merged (pairs_in self.old.table) (pairs_in other.now.table) }
    {
        for pair in other {
            let _ = self.lay(pair);
        }
    }
}
