// The pairs of a list, one after the other.
ghost use Rattle.std.specs.Prelude.{◌≡◌};
ghost use Rattle.std.specs.Iterator.{YieldsFirst, item_count};
ghost use Rattle.layout.specs.Held.{pairs_of, pairs_left};
ghost use Rattle.layout.specs.PairLists.{paired};

use crate::meanings::Pair;
use crate::pairs::Pairs;
use std::slice::Iter;

// Gives the pairs of a list in the order of their keys.
// kept: two iterators side by side; tried with one `Zip`, whose contract leaves open what it has to give after its end, where `YieldsFirst`
// promises that it is nothing.
#[derive(Drop)]
pub struct PairsIter<'a> {
    keys: Iter<'a, u8>,
    values: Iter<'a, i32>,
}

impl<'a> PairsIter<'a> {
    pub(crate) fn new(keys: &'a [u8], values: &'a [i32]) -> PairsIter<'a>
        ensures { pairs_left result ≡ paired keys.now values.now }
    {
        PairsIter {
            keys: keys.iter(),
            values: values.iter(),
        }
    }
}

impl Pairs {
    pub fn iter(&self) -> PairsIter<'_>
        ensures { pairs_left result ≡ pairs_of self.now }
    {
        self.table.iter()
    }
}

impl<'a> IntoIterator for &'a Pairs {
    type Item = Pair;

    type IntoIter = PairsIter<'a>;

    ghost into_iter_gives = { λ pairs it. pairs_left it ≡ pairs_of pairs.now };

    fn into_iter(self) -> PairsIter<'a> {
        self.iter()
    }
}

impl Iterator for PairsIter<'_> {
    type Item = Pair;

    ghost next_gives = { YieldsFirst pairs_left };

    ghost remaining = { item_count pairs_left };

    fn next(&mut self) -> Option<Pair> {
        Some(Pair {
            key: *self.keys.next()?,
            value: *self.values.next()?,
        })
    }
}
