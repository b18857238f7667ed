// What can be asked of a run.

// One call. A ticket is named by its number, a step by its place among the steps that the run was given, counted from 0.
// kept: an enum of its own beside the store's `Entry` and `Event`, which list the same calls: a request has a step's place where an entry has
// the step's numbers and the answer, and an event has only what the phase has a say in. One type for all three would hold what two lack.
#[derive(Clone, Copy, PartialEq, Eq, Debug)]
pub enum Request {
    Recover,
    Begin,
    Put { ticket: u32, key: u8, value: i32 },
    Commit { ticket: u32 },
    Abandon { ticket: u32 },
    Get { key: u8 },
    Temperature { ut: i32 },
    Pressure { step: usize, up: i32 },
}
