// A session: the store on a simulator, and the ticket and the step that it holds from one line to the next.
ghost use Rattle.std.specs.Prelude.{◌≡◌, IfOk, None};
ghost use Rattle.lines.specs.declared.answers.Answer.TheVariants.{Number};
ghost use Rattle.lines.specs.declared.commands.Command.TheVariants.{Plan, Format, Recover, Begin, Put, Commit, Abandon, Get, Temperature, Pressure};
ghost use Rattle.lines.specs.Commands.{command_of as command_in_line};
ghost use Rattle.session.specs.Sessions.{Answered, Carried, LetGo, answer_of, blank_session, refused};
ghost use Rattle.session.specs.Held.{session, simulated_store};

use flash::plans::PlanEntry;
use flash::units::Unit;
use lines::answers::Answer;
use lines::commands::{Command, command_of};
use simulator::Simulator;
use std::alloc::{AllocError, Global};
use store::refusals::Refusal;
use store::steps::Step;
use store::stores::Store;
use store::tickets::Ticket;

// The answer to a line that is no command, to an entry for a full plan, and where there is no ticket or no step: none of these is a call of the store.
const UNKNOWN: Answer = Answer::Refused(17);

const BANKS: usize = 2;

const UNITS: usize = 64;

const FIRST_TICKET: u32 = 1;

// The ticket of the change that was begun, and the step of the last temperature, each until it is used.
pub struct Session {
    store: Store<Simulator>,
    ticket: Option<Ticket>,
    step: Option<Step>,
}

// What a refused call answers: 11 with its place, or the number of another refusal.
fn refused(why: Refusal) -> Answer
    ensures { result ≡ refused why }
{
    match why {
        Refusal::WriteStopped(place) => Answer::WriteStopped(place),
        _ => Answer::Refused(why.number()),
    }
}

// What a call answers that gives a number.
fn number_answer(answer: Result<u32, Refusal>) -> Answer
    ensures { result ≡ answer_of Number answer }
{
    match answer {
        Ok(number) => Answer::Number(number),
        Err(why) => refused(why),
    }
}

impl Session {
    /// A session on a new simulator of 2 banks of 64 units, whose first ticket is 1.
    pub fn blank(heap: Global) -> Result<Session, AllocError>
        ensures { IfOk result (λ s. session s ≡ blank_session) }
    {
        let table = vec![in heap; Unit::Blank; BANKS * UNITS]?;
        // never refused: the table has as many units as the banks
        let flash = Simulator::new(BANKS, UNITS, table).unwrap();
        Ok(Session::new(Store::new(flash, FIRST_TICKET)))
    }

    // A session on a store, with no change and no step held.
    pub fn new(store: Store<Simulator>) -> Session
        ensures store { (session result).store ≡ simulated_store store }
        ensures flash { result.store.flash ≡ store.flash }
        ensures ticket { (session result).ticket ≡ None }
        ensures step { (session result).step ≡ None }
    {
        Session {
            store,
            ticket: None,
            step: None,
        }
    }

    // Abandons the ticket that is held, if one is.
    fn let_go(&mut self)
        ensures abandoned { LetGo (session self.old).ticket (session self.old).store (session self.new).store }
        ensures held { (session self.new).ticket ≡ None }
        ensures step { (session self.new).step ≡ (session self.old).step }
    {
        if let Some(ticket) = self.ticket.take() {
            let _ = self.store.abandon(ticket);
        }
    }

    fn plan(&mut self, entry: PlanEntry) -> Answer
        ensures { Carried (session self.old) (Plan entry.charge entry.residue entry.pattern) result (session self.new) }
    {
        match self.store.add_entry(entry) {
            // kept: `as`, proved to fit; `try_from` would answer an error that cannot come.
            Some(count) => Answer::Number(count as u32),
            None => UNKNOWN,
        }
    }

    fn format(&mut self) -> Answer
        ensures { Carried (session self.old) Format result (session self.new) }
    {
        self.let_go();
        number_answer(self.store.format())
    }

    fn recover(&mut self) -> Answer
        ensures { Carried (session self.old) Recover result (session self.new) }
    {
        self.let_go();
        number_answer(self.store.recover())
    }

    fn begin(&mut self) -> Answer
        ensures { Carried (session self.old) Begin result (session self.new) }
    {
        match self.store.begin() {
            Ok(ticket) => {
                let number = ticket.number();
                if let Some(older) = self.ticket.replace(ticket) {
                    let _ = self.store.abandon(older);
                }
                Answer::Number(number)
            }
            Err(why) => refused(why),
        }
    }

    fn put(&mut self, key: u8, value: i32) -> Answer
        ensures { Carried (session self.old) (Put key value) result (session self.new) }
    {
        match &self.ticket {
            Some(ticket) => number_answer(self.store.put(ticket, key, value)),
            None => UNKNOWN,
        }
    }

    #[tactic(auto, using(crate::proofs::Powering::committed))]
    fn commit(&mut self) -> Answer
        ensures { Carried (session self.old) Commit result (session self.new) }
    {
        match self.ticket.take() {
            Some(ticket) => number_answer(self.store.commit(ticket)),
            None => UNKNOWN,
        }
    }

    fn abandon(&mut self) -> Answer
        ensures { Carried (session self.old) Abandon result (session self.new) }
    {
        match self.ticket.take() {
            Some(ticket) => match self.store.abandon(ticket) {
                Ok(()) => Answer::Done,
                Err(why) => refused(why),
            },
            None => UNKNOWN,
        }
    }

    fn get(&mut self, key: u8) -> Answer
        ensures { Carried (session self.old) (Get key) result (session self.new) }
    {
        match self.store.get(key) {
            Ok(value) => Answer::Value(value),
            Err(why) => refused(why),
        }
    }

    // A refused temperature leaves the step that is held.
    fn temperature(&mut self, ut: i32) -> Answer
        ensures { Carried (session self.old) (Temperature ut) result (session self.new) }
    {
        match self.store.temperature(ut) {
            Ok(step) => {
                let t = step.numbers().t;
                self.step = Some(step);
                Answer::Temperature { t }
            }
            Err(why) => refused(why),
        }
    }

    fn pressure(&mut self, up: i32) -> Answer
        ensures { Carried (session self.old) (Pressure up) result (session self.new) }
    {
        match self.step.take() {
            Some(step) => match self.store.pressure(step, up) {
                Ok(line) => Answer::Line {
                    t: line.t,
                    pa: line.p,
                },
                Err(why) => refused(why),
            },
            None => UNKNOWN,
        }
    }

    // Makes the store's call that a command stands for, if what it needs is held.
    fn carry_out(&mut self, command: Command) -> Answer
        ensures { Carried (session self.old) command result (session self.new) }
    {
        match command {
            Command::Plan {
                charge,
                residue,
                pattern,
            } => self.plan(PlanEntry {
                charge,
                residue,
                pattern,
            }),
            Command::Format => self.format(),
            Command::Recover => self.recover(),
            Command::Begin => self.begin(),
            Command::Put { key, value } => self.put(key, value),
            Command::Commit => self.commit(),
            Command::Abandon => self.abandon(),
            Command::Get { key } => self.get(key),
            Command::Temperature { ut } => self.temperature(ut),
            Command::Pressure { up } => self.pressure(up),
        }
    }

    // Answers one line.
    pub fn answer(&mut self, line: &[u8]) -> Answer
        ensures { Answered (command_in_line line.now) (session self.old) result (session self.new) }
    {
        match command_of(line) {
            Some(command) => self.carry_out(command),
            None => UNKNOWN,
        }
    }

    // Ends the session: a change that is held is abandoned.
    pub fn finish(self) -> Store<Simulator>
        ensures abandoned { LetGo (session self).ticket (session self).store
            (simulated_store result) }
        ensures flash { result.flash ≡ self.store.flash }
    {
        let Session {
            mut store,
            ticket,
            step: _,
        } = self;
        if let Some(ticket) = ticket {
            let _ = store.abandon(ticket);
        }
        store
    }
}
