// The memory that a run may need, had before its first call.
ghost use Rattle.std.specs.Prelude.{◌≡◌, ◌+◌, ◌≤◌, [], IfOk, vec_capacity};
ghost use Rattle.std.specs.VecDeque.{deque_capacity};

use crate::hands::Hand;
use std::alloc::{AllocError, Global};
use std::collections::VecDeque;
use store::entries::Entry;

// Room for the tickets, the steps and the answers of at most `most` requests, and for the abandons after them.
pub struct Room {
    pub(crate) hand: Hand,
    pub(crate) log: Vec<Option<Entry>>,
    // kept: a number of its own, though each table has just the capacity that it was asked for: the contracts promise this number, and to read
    // it off one of the three tables would be one rule more to know.
    pub(crate) most: usize,
    ghost no_tickets: { hand.tickets.items ≡ [] },
    ghost no_steps: { hand.steps.items ≡ [] },
    ghost no_log: { log.items ≡ [] },
    ghost tickets_fit: { most ≤ deque_capacity hand.tickets },
    ghost steps_fit: { most ≤ vec_capacity hand.steps },
    ghost log_fits: { most + most ≤ vec_capacity log },
}

impl Room {
    // How many requests there is room for; a run takes up no more of them.
    pub fn most(&self) -> usize
        ensures { result ≡ self.now.most }
    {
        self.most
    }

    /// Gives the room back without a run.
    pub fn give_back(self) {
        let Room {
            hand: Hand { tickets, steps: _ },
            log: _,
            most: _,
        } = self;
        tickets.destroy_empty();
    }

    // Room for a run of at most `most` requests, unless memory fails.
    pub fn new(heap: Global, most: usize) -> Result<Room, AllocError>
        ensures { IfOk result (λ room. room.most ≡ most) }
    {
        let calls = most.checked_add(most).ok_or(AllocError)?;
        let log = Vec::with_capacity(heap, calls)?;
        let steps = Vec::with_capacity(heap, most)?;
        let tickets = VecDeque::with_capacity(heap, most)?;
        Ok(Room {
            hand: Hand { tickets, steps },
            log,
            most,
        })
    }
}
