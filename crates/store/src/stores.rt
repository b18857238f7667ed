// The store of coefficients over any flash.
ghost use Rattle.std.specs.Prelude.{◌≡◌};
ghost use Rattle.journal.specs.Log.{reading_of};
ghost use Rattle.journal.specs.Commit.{formatted};

use crate::phases::Phase;
use flash::interface::Flash;
use journal::standing::Standing;
use layout::pairs::Pairs;

mod calls;
mod judging;
mod measuring;
mod planning;

// What stands by the units is held in `standing` unless the store is cold, an open change in `change` while it is changing.
// kept: fields beside the phase. Held in it, they would be matched for a second time, with an arm that cannot be, by the calls that only look at what
// stands: these are judged by the one match on phase and event, as the project wants, and that answers a number.
// What the store knows is what its units say: so it is of a new one, and each call keeps it (clauses `tied`).
// kept: that as a clause of each call, and no ghost field, which would cite the bound `Flash` and so ask it of every type that holds a store.
#[derive(Drop)]
pub struct Store<F> {
    flash: F,
    phase: Phase,
    standing: Standing,
    change: Pairs,
    next: u32,
}

// What an empty store has in its units: a header in bank 0.
pub(crate) fn empty() -> Standing
    ensures { reading_of result ≡ formatted }
{
    Standing {
        bank: 0,
        pairs: Pairs::new(),
        number: 0,
        end: 1,
    }
}

impl<F: Flash> Store<F> {
    ghost use Rattle.store.specs.Memories.{cold};
    ghost use Rattle.store.specs.Moments.{moment, Tied};

    // A cold store over a flash, whose next ticket has this number.
    pub fn new(flash: F, next: u32) -> Self
        ensures flash { result.flash ≡ flash }
        ensures cold { (moment F.Flash result).memory ≡ cold }
        ensures next { (moment F.Flash result).next ≡ next }
        ensures tied { Tied (moment F.Flash result) }
    {
        Store {
            flash,
            phase: Phase::Cold,
            standing: empty(),
            change: Pairs::new(),
            next,
        }
    }

    // Takes the store apart.
    pub fn into_flash(self) -> F
        ensures { result ≡ self.flash }
    {
        self.flash
    }
}
