// What a run holds between its calls: the tickets that it was given and has not handed back, and the steps that it was given, each
// until it is used. Both tables have their room from the start, so that no ticket is ever lost for want of memory.
ghost use Rattle.std.specs.Prelude.{◌≡◌, [], ◌∷◌, ◌++◌, Some};
ghost use Rattle.runs.specs.Held.{Seen, Taken, StepTaken, held};
ghost use Rattle.runs.specs.Hands.{held_by, Spare, OneMore};

use std::collections::VecDeque;
use store::steps::{Step, StepNumbers};
use store::tickets::Ticket;

// kept: steps by their places, with the places of the used ones left empty: a request names a step by its place.
pub(crate) struct Hand {
    pub tickets: VecDeque<Ticket>,
    pub steps: Vec<Option<Step>>,
}

impl Hand {
    // The first ticket of this number.
    pub(crate) fn look(&self, number: u32) -> Option<&Ticket>
        ensures { Seen (held_by self.now).tickets number result }
    {
        self.tickets.iter().find(|ticket| ticket.number() == number)
    }

    // Hands back the first ticket of this number.
    // kept: `OneMore` in eight contracts, here and in `running`, and `Spare 1` in five: the one relates a hand before and after, the other is used
    // up by what is kept, so that no field can hold either.
    pub(crate) fn take(&mut self, number: u32) -> Option<Ticket>
        ensures taken { Taken (held_by self.old).tickets number result (held_by self.new).tickets }
        ensures steps { (held_by self.new).steps ≡ (held_by self.old).steps }
        ensures room { OneMore self.old self.new }
    {
        let place = self
            .tickets
            .iter()
            .position(|ticket| ticket.number() == number)?;
        self.tickets.remove(place)
    }

    // Holds one ticket more, and answers its number.
    pub(crate) fn keep(&mut self, ticket: Ticket) -> u32
        requires { Spare 1 self.old }
        ensures number { result ≡ ticket.number }
        ensures kept { held_by self.new ≡ held ((held_by self.old).tickets ++ (ticket.number ∷ [])) (held_by self.old).steps }
        ensures room { OneMore self.old self.new }
    {
        let number = ticket.number();
        self.tickets.push_back_reserved(ticket);
        number
    }

    // Holds one step more, and answers its numbers.
    // kept: beside `keep`, since each contract says which of the two tables grows.
    pub(crate) fn keep_step(&mut self, step: Step) -> StepNumbers
        requires { Spare 1 self.old }
        ensures numbers { result ≡ step.numbers }
        ensures kept { held_by self.new ≡ held (held_by self.old).tickets ((held_by self.old).steps ++ (Some step.numbers ∷ [])) }
        ensures room { OneMore self.old self.new }
    {
        let numbers = step.numbers();
        self.steps.push_reserved(Some(step));
        numbers
    }

    // The step at a place, if there is one that was not used yet; it is used now.
    pub(crate) fn take_step(&mut self, place: usize) -> Option<Step>
        ensures taken { StepTaken (held_by self.old).steps place result (held_by self.new).steps }
        ensures tickets { (held_by self.new).tickets ≡ (held_by self.old).tickets }
        ensures room { OneMore self.old self.new }
    {
        self.steps.get_mut(place)?.take()
    }
}
