// Adding to an open change.
ghost use Rattle.std.specs.Prelude.{◌≡◌};
ghost use Rattle.layout.specs.Held.{pairs_of};
ghost use Rattle.store.specs.Changes.{put_answer, put_change};

use crate::refusals::Refusal;
use layout::catalogue::{admits, is_key};
use layout::meanings::Pair;
use layout::pairs::Pairs;

// How many pairs a change may have.
// kept: 12 as in the `COMMIT_MOST` of `layout`, which says what a unit of the format may count.
const MOST: usize = 12;

// Adds a pair to a change or replaces the one of its key, and answers how many pairs it then has.
pub(crate) fn add(change: &mut Pairs, pair: Pair) -> Result<u32, Refusal>
    ensures answer { result ≡ put_answer (pairs_of change.old) pair }
    ensures pairs { pairs_of change.new ≡ put_change (pairs_of change.old) pair }
{
    if !is_key(pair.key) {
        return Err(Refusal::UnknownKey);
    }
    if !admits(pair) {
        return Err(Refusal::NotAdmitted);
    }
    if change.len() >= MOST && change.value(pair.key).is_none() {
        return Err(Refusal::ChangeFull);
    }
    let _ = change.lay(pair);
    // kept: `as`, proved to fit; `try_from` would answer an error that cannot come.
    Ok(change.len() as u32)
}
