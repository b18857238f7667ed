// Lists of calls made on a store.
ghost use Rattle.std.specs.Prelude.{◌≡◌, ◌+◌, ◌≤◌, [], map, length, take, Some, IfOk, IfErr, vec_len, vec_capacity};
ghost use Rattle.std.specs.VecDeque.{deque_len};
ghost use Rattle.store.specs.declared.entries.Entry.TheVariants.{Begin as begun, Temperature as took_temperature};
ghost use Rattle.runs.specs.declared.requests.Request.TheVariants.{Begin, Temperature, Pressure};
ghost use Rattle.runs.specs.Hands.{held_by, Spare, OneMore};
ghost use Rattle.runs.specs.Held.{held};
ghost use Rattle.runs.specs.States.{store_state};
ghost use Rattle.runs.specs.Runs.{Turn, Made, RunMade, abandoning};
ghost use Rattle.runs.specs.Whole.{WholeRun, FormatRefused};

use crate::hands::Hand;
use crate::requests::Request;
use crate::rooms::Room;
use flash::interface::Flash;
use store::entries::Entry;
use store::refusals::Refusal;
use store::steps::StepNumbers;
use store::stores::Store;

// Opens a change, and holds its ticket.
fn begin<F: Flash>(store: &mut Store<F>, hand: &mut Hand) -> Result<u32, Refusal>
    requires { Spare 1 hand.old }
    ensures turn { Turn F.Flash (store_state F.Flash store.old) (held_by hand.old) Begin
        (Some (begun result)) (store_state F.Flash store.new) (held_by hand.new) }
    ensures room { OneMore hand.old hand.new }
{
    Ok(hand.keep(store.begin()?))
}

// Takes a temperature, and holds its step.
fn temperature<F: Flash>(
    store: &mut Store<F>,
    hand: &mut Hand,
    ut: i32,
) -> Result<StepNumbers, Refusal>
    requires { Spare 1 hand.old }
    ensures turn { Turn F.Flash (store_state F.Flash store.old) (held_by hand.old) (Temperature ut)
        (Some (took_temperature ut result)) (store_state F.Flash store.new) (held_by hand.new) }
    ensures room { OneMore hand.old hand.new }
{
    Ok(hand.keep_step(store.temperature(ut)?))
}

// Takes a pressure with the step at a place, if it is held.
fn pressure<F: Flash>(store: &mut Store<F>, hand: &mut Hand, place: usize, up: i32) -> Option<Entry>
    ensures turn { Turn F.Flash (store_state F.Flash store.old) (held_by hand.old)
        (Pressure place up)
        result (store_state F.Flash store.new) (held_by hand.new) }
    ensures room { OneMore hand.old hand.new }
{
    let taken = hand.take_step(place)?;
    Some(Entry::Pressure {
        step: taken.numbers(),
        up,
        answer: store.pressure(taken, up),
    })
}

// Takes up one request: makes the call that it asks for, if what it names is held.
fn turn<F: Flash>(store: &mut Store<F>, hand: &mut Hand, request: Request) -> Option<Entry>
    requires { Spare 1 hand.old }
    ensures turn { Turn F.Flash (store_state F.Flash store.old) (held_by hand.old) request
        result (store_state F.Flash store.new) (held_by hand.new) }
    ensures room { OneMore hand.old hand.new }
{
    let entry = match request {
        Request::Recover => Entry::Recover {
            answer: store.recover(),
        },
        Request::Begin => Entry::Begin {
            answer: begin(store, hand),
        },
        Request::Put { ticket, key, value } => Entry::Put {
            ticket,
            key,
            value,
            answer: store.put(hand.look(ticket)?, key, value),
        },
        Request::Commit { ticket } => Entry::Commit {
            ticket,
            answer: store.commit(hand.take(ticket)?),
        },
        Request::Abandon { ticket } => Entry::Abandon {
            ticket,
            answer: store.abandon(hand.take(ticket)?),
        },
        Request::Get { key } => Entry::Get {
            key,
            answer: store.get(key),
        },
        Request::Temperature { ut } => Entry::Temperature {
            ut,
            answer: temperature(store, hand, ut),
        },
        Request::Pressure { step, up } => pressure(store, hand, step, up)?,
    };
    Some(entry)
}

// Takes up the requests in their order.
// kept: store and hand side by side in six functions, here and in `abandon_each` with the log: the store is the caller's and lent for the run, the hand is taken apart at its
// end, and the log is the answer. The contracts speak of the store's moments, which in a struct would all lie behind its borrow.
fn take_up<F: Flash>(
    store: &mut Store<F>,
    hand: &mut Hand,
    requests: &[Request],
    log: &mut Vec<Option<Entry>>,
)
    requires hand { Spare (length requests.now) hand.old }
    requires log { vec_len log.old + length requests.now ≤ vec_capacity log.old }
    ensures made { Made F.Flash (store_state F.Flash store.old) (held_by hand.old) requests.now
        log.old.items log.new.items (store_state F.Flash store.new) (held_by hand.new) }
    ensures len { vec_len log.new ≡ vec_len log.old + length requests.now }
    ensures room { vec_capacity log.new ≡ vec_capacity log.old }
    ensures few { deque_len hand.new.tickets ≤ deque_len hand.old.tickets + length requests.now }
{
    for request in requests {
        let outcome = turn(store, hand, *request);
        log.push_reserved(outcome);
    }
}

// Abandons each ticket that is still held, in the order in which they were given.
fn abandon_each<F: Flash>(store: &mut Store<F>, hand: &mut Hand, log: &mut Vec<Option<Entry>>)
    requires log { vec_len log.old + deque_len hand.old.tickets ≤ vec_capacity log.old }
    ensures made { Made F.Flash (store_state F.Flash store.old) (held_by hand.old)
        (map abandoning (held_by hand.old).tickets) log.old.items log.new.items
        (store_state F.Flash store.new) (held [] (held_by hand.old).steps) }
    ensures none { deque_len hand.new.tickets ≡ 0 }
{
    while let Some(ticket) = hand.tickets.pop_front() {
        let number = ticket.number();
        let answer = store.abandon(ticket);
        log.push_reserved(Some(Entry::Abandon {
            ticket: number,
            answer,
        }));
    }
}

/// Makes the calls that are asked for, one after the other, on the store, and holds the tickets and
/// the steps that they give; at the end it abandons the tickets that it still holds. Answers what
/// came of each request and then of each of these abandons: the call with its answer, or none where
/// the request named a ticket that was not held or a step that was not there. It takes up as many
/// requests as there is room for.
pub fn make_calls<F: Flash>(
    store: &mut Store<F>,
    requests: &[Request],
    room: Room,
) -> Vec<Option<Entry>>
    ensures run { RunMade F.Flash (store_state F.Flash store.old) (take room.most requests.now)
        result.items (store_state F.Flash store.new) }
{
    let Room {
        mut hand,
        mut log,
        most,
    } = room;
    let count = requests.len().min(most);
    take_up(store, &mut hand, &requests[..count], &mut log);
    abandon_each(store, &mut hand, &mut log);
    let Hand { tickets, steps: _ } = hand;
    tickets.destroy_empty();
    log
}

/// Formats the store, and then makes the calls that are asked for, as `make_calls` does. Where the
/// format is refused it answers that refusal, and makes no other call.
///
/// Its contract is the law of a whole run, from the format on: docs/LEDGER.md tells it in words.
pub fn format_and_make_calls<F: Flash>(
    store: &mut Store<F>,
    requests: &[Request],
    room: Room,
) -> Result<Vec<Option<Entry>>, Refusal>
    ensures run { IfOk result (λ log. WholeRun F.Flash (store_state F.Flash store.old)
        (take room.most requests.now) log.items (store_state F.Flash store.new)) }
    ensures refused { IfErr result (λ why. FormatRefused F.Flash (store_state F.Flash store.old) why
        (store_state F.Flash store.new)) }
{
    match store.format() {
        Ok(_) => Ok(make_calls(store, requests, room)),
        Err(why) => {
            room.give_back();
            Err(why)
        }
    }
}
