// What stands after a change.
ghost use Rattle.std.specs.Prelude.{◌≡◌};
ghost use Rattle.layout.specs.Held.{pairs_of};
ghost use Rattle.journal.specs.Log.{reading_of};
ghost use Rattle.journal.specs.Commit.{committed};

use crate::choices::{is_room, other_bank};
use crate::standing::Standing;
use layout::merge::merged;
use layout::pairs::Pairs;

// What stands when a change with this number was written whole, in banks of `units` units.
// kept: standing, change and number as parameters, as in `write_change`: a struct of them would be made and taken apart in one function of the store.
pub fn standing_after(standing: &Standing, change: &Pairs, number: u32, units: usize) -> Standing
    ensures { reading_of result ≡ committed units (reading_of standing.now) (pairs_of change.now) number }
{
    let pairs = merged(&standing.pairs, change);
    if is_room(units, standing.end, change.len()) {
        Standing {
            bank: standing.bank,
            pairs,
            number,
            end: standing.end + change.len() + 1,
        }
    } else {
        Standing {
            bank: other_bank(standing.bank),
            pairs,
            number,
            end: pairs.len() + 1,
        }
    }
}
