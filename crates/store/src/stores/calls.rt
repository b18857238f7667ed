// The calls of the store that concern its units.
//
// Of each call four things are said. `does`: exactly what it answers and what it leaves, whatever the store was before. `tied`: what the store knows stays
// what its units say. `ledger`: after every past since an accepted format the answer is the one that the ledger of that past calls for, and the store
// agrees with the past and this call; of format, `past`: accepted, it begins one. `flash`: what became of the flash itself, with all that its kind holds
// besides what is seen of it.
ghost use Rattle.std.specs.Prelude.{◌≡◌};
ghost use Rattle.store.specs.declared.entries.Entry.TheVariants.{Recover, Begin, Put, Commit, Abandon, Get};
ghost use Rattle.store.specs.Moments.{moment, Tied};
ghost use Rattle.store.specs.Calls.{Formats, Does, ticket_number};
ghost use Rattle.store.specs.Flashes.{RecoversFlash, FormatsFlash, CommitsFlash};
ghost use Rattle.store.specs.Law.{FollowsLedger, BeginsPast};

use crate::phases::Event;
use crate::refusals::Refusal;
use crate::stores::Store;
use crate::tickets::Ticket;
use flash::interface::Flash;
use layout::catalogue::is_key;
use layout::meanings::Pair;

impl<F: Flash> Store<F> {
    // Powers up, drops an open change, erases both banks and writes the header of an empty store; answers 0. Accepted, it begins a past.
    pub fn format(&mut self) -> Result<u32, Refusal>
        ensures does { Formats (moment F.Flash self.old) result (moment F.Flash self.new) }
        ensures tied { Tied (moment F.Flash self.old) → Tied (moment F.Flash self.new) }
        ensures past { BeginsPast result (moment F.Flash self.new) }
        ensures flash { FormatsFlash F.Flash self.old.flash result self.new.flash }
    {
        self.judge(Event::Format)
    }

    // Powers up, drops an open change and takes pairs and number from the units alone; answers the number.
    pub fn recover(&mut self) -> Result<u32, Refusal>
        ensures does { Does (moment F.Flash self.old) (Recover result) (moment F.Flash self.new) }
        ensures tied { Tied (moment F.Flash self.old) → Tied (moment F.Flash self.new) }
        ensures ledger { FollowsLedger (moment F.Flash self.old) (Recover result) (moment F.Flash self.new) }
        ensures flash { RecoversFlash F.Flash self.old.flash self.new.flash }
    {
        self.judge(Event::Recover)
    }

    // Opens an empty change and gives its ticket.
    pub fn begin(&mut self) -> Result<Ticket, Refusal>
        ensures does { Does (moment F.Flash self.old) (Begin (ticket_number result)) (moment F.Flash self.new) }
        ensures tied { Tied (moment F.Flash self.old) → Tied (moment F.Flash self.new) }
        ensures ledger { FollowsLedger (moment F.Flash self.old) (Begin (ticket_number result)) (moment F.Flash self.new) }
        ensures flash { self.new.flash ≡ self.old.flash }
    {
        let number = self.judge(Event::Begin)?;
        Ok(Ticket { number })
    }

    // Adds a pair to the open change or replaces the one of its key; answers how many pairs the change has.
    // kept: key and value as two arguments, here, in `Entry` and in the requests of a run: the definitions of a put name both, and a `Pair` would be made
    // for each call.
    pub fn put(&mut self, ticket: &Ticket, key: u8, value: i32) -> Result<u32, Refusal>
        ensures does { Does (moment F.Flash self.old) (Put ticket.now.number key value result) (moment F.Flash self.new) }
        ensures tied { Tied (moment F.Flash self.old) → Tied (moment F.Flash self.new) }
        ensures ledger { FollowsLedger (moment F.Flash self.old) (Put ticket.now.number key value result) (moment F.Flash self.new) }
        ensures flash { self.new.flash ≡ self.old.flash }
    {
        self.judge(Event::Put {
            ticket: ticket.number,
            pair: Pair { key, value },
        })
    }

    // Writes the open change; answers the new number. The ticket is taken in every case.
    pub fn commit(&mut self, ticket: Ticket) -> Result<u32, Refusal>
        ensures does { Does (moment F.Flash self.old) (Commit ticket.number result) (moment F.Flash self.new) }
        ensures tied { Tied (moment F.Flash self.old) → Tied (moment F.Flash self.new) }
        ensures ledger { FollowsLedger (moment F.Flash self.old) (Commit ticket.number result) (moment F.Flash self.new) }
        ensures flash { CommitsFlash F.Flash (moment F.Flash self.old).memory ticket.number
            self.old.flash self.new.flash }
    {
        let Ticket { number } = ticket;
        self.judge(Event::Commit { ticket: number })
    }

    // Drops the open change. The ticket is taken in every case.
    pub fn abandon(&mut self, ticket: Ticket) -> Result<(), Refusal>
        ensures does { Does (moment F.Flash self.old) (Abandon ticket.number result) (moment F.Flash self.new) }
        ensures tied { Tied (moment F.Flash self.old) → Tied (moment F.Flash self.new) }
        ensures ledger { FollowsLedger (moment F.Flash self.old) (Abandon ticket.number result) (moment F.Flash self.new) }
        ensures flash { self.new.flash ≡ self.old.flash }
    {
        let Ticket { number } = ticket;
        self.judge(Event::Abandon { ticket: number })?;
        Ok(())
    }

    // The standing value of a key, if it has one; never that of an open change.
    pub fn get(&mut self, key: u8) -> Result<Option<i32>, Refusal>
        ensures does { Does (moment F.Flash self.old) (Get key result) (moment F.Flash self.new) }
        ensures tied { Tied (moment F.Flash self.old) → Tied (moment F.Flash self.new) }
        ensures ledger { FollowsLedger (moment F.Flash self.old) (Get key result) (moment F.Flash self.new) }
        ensures flash { self.new.flash ≡ self.old.flash }
    {
        self.judge(Event::Look)?;
        if is_key(key) {
            Ok(self.standing.pairs.value(key))
        } else {
            Err(Refusal::UnknownKey)
        }
    }
}
