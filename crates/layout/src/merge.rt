// Two lists of pairs in one.
ghost use Rattle.std.specs.Prelude.{◌≡◌};
ghost use Rattle.layout.specs.Held.{pairs_of};
ghost use Rattle.layout.specs.PairLists.{merged as laid_over, LookupLaws};

use crate::pairs::Pairs;

// The pairs of the first, with those of the second laid over them.
#[tactic(auto, using(crate::proofs::Lookups::lookup_laws))]
pub fn merged(base: &Pairs, change: &Pairs) -> Pairs
    ensures pairs { pairs_of result ≡ laid_over (pairs_of base.now) (pairs_of change.now) }
    ensures lookups { LookupLaws }
{
    let mut all = *base;
    all.overlay(change);
    all
}
