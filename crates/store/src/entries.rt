// Calls with their answers, as a record of what was called keeps them.
use crate::refusals::Refusal;
use crate::steps::{Line, StepNumbers};

// One call with its arguments and what it answered; a ticket stands for its number, a step for its numbers.
// kept: each call with its arguments once more than in `Event` and in the requests of a run: an answer stands here alone, and neither of those
// knows what a step was.
#[derive(Clone, Copy, PartialEq, Eq, Debug)]
pub enum Entry {
    Recover {
        answer: Result<u32, Refusal>,
    },
    Begin {
        answer: Result<u32, Refusal>,
    },
    Put {
        ticket: u32,
        key: u8,
        value: i32,
        answer: Result<u32, Refusal>,
    },
    Commit {
        ticket: u32,
        answer: Result<u32, Refusal>,
    },
    Abandon {
        ticket: u32,
        answer: Result<(), Refusal>,
    },
    Get {
        key: u8,
        answer: Result<Option<i32>, Refusal>,
    },
    Temperature {
        ut: i32,
        answer: Result<StepNumbers, Refusal>,
    },
    Pressure {
        step: StepNumbers,
        up: i32,
        answer: Result<Line, Refusal>,
    },
}
