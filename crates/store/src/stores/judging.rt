// How the store judges its calls: by its phase and the call together.
ghost use Rattle.std.specs.Prelude.{◌≡◌, ℕ};
ghost use Rattle.layout.specs.Held.{pairs_of};
ghost use Rattle.journal.specs.Log.{reading_of};
ghost use Rattle.store.specs.Moments.{moment};
ghost use Rattle.store.specs.Calls.{Judged, Recovers, Formats, Opens, PutsOpen, CommitsOpen};
ghost use Rattle.store.specs.Flashes.{RecoversFlash, FormatsFlash, CommitsOpenFlash, OnFlash};

use crate::changes::add;
use crate::flashes::{is_roomy, power_up_and_format, power_up_and_read, write};
use crate::phases::{Event, Phase};
use crate::refusals::Refusal;
use crate::stores::{Store, empty};
use flash::interface::Flash;
use journal::changes::standing_after;
use layout::meanings::Pair;
use layout::pairs::Pairs;

impl<F: Flash> Store<F> {
    fn recover_units(&mut self) -> Result<u32, Refusal>
        ensures recovers { Recovers (moment F.Flash self.old) result (moment F.Flash self.new) }
        ensures flash { RecoversFlash F.Flash self.old.flash self.new.flash }
    {
        self.phase = Phase::Cold;
        if !is_roomy(&self.flash) {
            return Err(Refusal::SmallFlash);
        }
        let standing = power_up_and_read(&mut self.flash).ok_or(Refusal::NoHeader)?;
        self.standing = standing;
        self.phase = Phase::Ready;
        Ok(standing.number)
    }

    fn format_units(&mut self) -> Result<u32, Refusal>
        ensures formats { Formats (moment F.Flash self.old) result (moment F.Flash self.new) }
        ensures flash { FormatsFlash F.Flash self.old.flash result self.new.flash }
    {
        if !is_roomy(&self.flash) {
            return Err(Refusal::SmallFlash);
        }
        self.phase = Phase::Cold;
        power_up_and_format(&mut self.flash)?;
        self.standing = empty();
        self.phase = Phase::Ready;
        Ok(0)
    }

    // Opens an empty change.
    fn open(&mut self) -> Result<u32, Refusal>
        requires { self.old.phase ≡ Phase.Ready }
        ensures opens { Opens (moment F.Flash self.old) (reading_of self.old.standing) result (moment F.Flash self.new) }
        ensures flash { self.new.flash ≡ self.old.flash }
    {
        let ticket = self.next;
        self.next = ticket.checked_add(1).ok_or(Refusal::NoTickets)?;
        self.change = Pairs::new();
        self.phase = Phase::Changing { ticket };
        Ok(ticket)
    }

    // Adds a pair to the open change.
    fn put_open(&mut self, pair: Pair) -> Result<u32, Refusal>
        requires { (ticket : ℕ) × (self.old.phase ≡ Phase.Changing ticket) }
        ensures flash { self.new.flash ≡ self.old.flash }
        ensures puts { (ticket : ℕ) → self.old.phase ≡ Phase.Changing ticket → PutsOpen (moment F.Flash self.old) (reading_of self.old.standing) ticket (pairs_of self.old.change) pair result (moment F.Flash self.new) }
    {
        add(&mut self.change, pair)
    }

    // Writes the open change, which ends it.
    fn commit_open(&mut self) -> Result<u32, Refusal>
        requires { (ticket : ℕ) × (self.old.phase ≡ Phase.Changing ticket) }
        ensures commits { CommitsOpen (moment F.Flash self.old) (reading_of self.old.standing) (pairs_of self.old.change) result (moment F.Flash self.new) }
        ensures flash { CommitsOpenFlash F.Flash (reading_of self.old.standing)
            (pairs_of self.old.change) self.old.flash self.new.flash }
    {
        let Some(number) = self.standing.number.checked_add(1) else {
            self.phase = Phase::Ready;
            return Err(Refusal::LastNumber);
        };
        let units = self.flash.units_per_bank();
        self.phase = Phase::Cold;
        write(&mut self.flash, &self.standing, &self.change, number)?;
        self.standing = standing_after(&self.standing, &self.change, number, units);
        self.phase = Phase::Ready;
        Ok(number)
    }

    // Judges a call by the phase and the call together, and changes the store.
    // kept: one match on phase and event, the project's form (docs/DECISIONS.md).
    pub(crate) fn judge(&mut self, event: Event) -> Result<u32, Refusal>
        ensures judged { Judged (moment F.Flash self.old) event result (moment F.Flash self.new) }
        ensures flash { OnFlash F.Flash (moment F.Flash self.old).memory event
            self.old.flash result self.new.flash }
    {
        match (self.phase, event) {
            (_, Event::Format) => self.format_units(),
            (_, Event::Recover) => self.recover_units(),
            (Phase::Cold, _) => Err(Refusal::Cold),
            (Phase::Ready | Phase::Changing { .. }, Event::Look) => Ok(self.standing.number),
            (Phase::Ready, Event::Begin) => self.open(),
            (Phase::Changing { .. }, Event::Begin) => Err(Refusal::ChangeOpen),
            (
                Phase::Changing { ticket },
                Event::Put {
                    ticket: shown,
                    pair,
                },
            ) if shown == ticket => { self.put_open(pair) }
            (Phase::Changing { ticket }, Event::Commit { ticket: shown }) if shown == ticket => {
                self.commit_open()
            }
            (Phase::Changing { ticket }, Event::Abandon { ticket: shown }) if shown == ticket => {
                self.phase = Phase::Ready;
                Ok(0)
            }
            (Phase::Ready | Phase::Changing { .. }, _) => Err(Refusal::WrongTicket),
        }
    }
}
