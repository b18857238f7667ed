// The calls of the store that give readings. They need its phase, its standing pairs and its number, and never touch the flash.
ghost use Rattle.std.specs.Prelude.{◌≡◌};
ghost use Rattle.store.specs.declared.entries.Entry.TheVariants.{Temperature, Pressure};
ghost use Rattle.store.specs.Moments.{moment, Tied};
ghost use Rattle.store.specs.Calls.{Does, step_numbers};
ghost use Rattle.store.specs.Law.{FollowsLedger};

use crate::phases::Event;
use crate::refusals::Refusal;
use crate::steps::{Line, Step};
use crate::stores::Store;
use crate::worked::{line, step_from_ut};
use flash::interface::Flash;

impl<F: Flash> Store<F> {
    // The temperature from the raw value UT, as a step for one pressure.
    pub fn temperature(&mut self, ut: i32) -> Result<Step, Refusal>
        ensures does { Does (moment F.Flash self.old) (Temperature ut (step_numbers result)) (moment F.Flash self.new) }
        ensures tied { Tied (moment F.Flash self.old) → Tied (moment F.Flash self.new) }
        ensures ledger { FollowsLedger (moment F.Flash self.old) (Temperature ut (step_numbers result)) (moment F.Flash self.new) }
        ensures flash { self.new.flash ≡ self.old.flash }
    {
        self.judge(Event::Look)?;
        let numbers = step_from_ut(&self.standing, ut)?;
        Ok(Step { numbers })
    }

    // The line of a step and the raw value UP. The step is used up, refused or not.
    pub fn pressure(&mut self, step: Step, up: i32) -> Result<Line, Refusal>
        ensures does { Does (moment F.Flash self.old) (Pressure step.numbers up result) (moment F.Flash self.new) }
        ensures tied { Tied (moment F.Flash self.old) → Tied (moment F.Flash self.new) }
        ensures ledger { FollowsLedger (moment F.Flash self.old) (Pressure step.numbers up result) (moment F.Flash self.new) }
        ensures flash { self.new.flash ≡ self.old.flash }
    {
        self.judge(Event::Look)?;
        line(&self.standing, step.numbers, up)
    }
}
