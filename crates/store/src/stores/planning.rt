// Where the power-ups of the store's flash follow a plan.
ghost use Rattle.std.specs.Prelude.{◌≡◌};
ghost use Rattle.flash.specs.Plans.{Added};
ghost use Rattle.store.specs.Moments.{moment};

use crate::stores::Store;
use flash::planned::Planned;
use flash::plans::PlanEntry;

impl<F: Planned> Store<F> {
    // Adds an entry to the plan of the flash, and answers how many there are, unless the plan is full. The store stays as it is.
    pub fn add_entry(&mut self, entry: PlanEntry) -> Option<usize>
        ensures plan { Added F.most (F.Flash.plan self.old.flash) entry result (F.Flash.plan self.new.flash) }
        ensures same { moment F.Flash self.new ≡ moment F.Flash self.old }
        ensures itself { F.added self.old.flash entry self.new.flash }
    {
        self.flash.add_entry(entry)
    }
}
