// A flash to whose plan entries can be added while it is in use.
ghost use Rattle.std.specs.Prelude.{◌≡◌, ℕ};
ghost use Rattle.flash.specs.FlashState.{flash_state};
ghost use Rattle.flash.specs.Plans.{Added};
ghost use Rattle.flash.specs.declared.plans.PlanEntry.{PlanEntry};

use crate::interface::Flash;
use crate::plans::PlanEntry;

pub trait Planned: Flash {
    // How many entries a plan can have, those that were taken included.
    ghost most: { ℕ };

    // What adding an entry makes of a flash of just this kind: the flash before it, the entry, and
    // the flash after it.
    ghost added: { Self → PlanEntry → Self → Type 0 };

    // Adds an entry at the plan's end and tells how many there are; none is added where the plan is full. As a flash all stays as it is.
    fn add_entry(&mut self, entry: PlanEntry) -> Option<usize>
        ensures kept { flash_state (Self.units self.new) (Self.width self.new) (Self.power self.new) (Self.charge self.new) ≡ flash_state (Self.units self.old) (Self.width self.old) (Self.power self.old) (Self.charge self.old) }
        ensures plan { Added most (Self.plan self.old) entry result (Self.plan self.new) }
        ensures added { added self.old entry self.new };
}
