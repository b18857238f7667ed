// What a run is asked, and what it is expected to answer up to the commit that may be cut.
ghost use Rattle.std.specs.Prelude.{◌≡◌, ◌++◌, ◌+◌, ◌≤◌, ◌^◌, ◌<◌, [], map, OnOk, IfOk};
ghost use Rattle.layout.specs.Held.{pairs_of};
ghost use Rattle.every_cut.specs.Asked.{open_calls, commit_calls, repeated_commits, calls_before, last_requests, request_of, outcome_of, requests, expected_log};

use crate::calibrations::second_pairs;
use crate::ways::Way;
use figures::example::example_pairs;
use layout::meanings::Pair;
use layout::pairs::Pairs;
use runs::requests::Request;
use std::alloc::{AllocError, Global};
use store::entries::Entry;

// How often the first calibration is committed: 12 units each behind the header, so that bank 0 is
// full up to unit 48.
const WHOLE: u32 = 4;

// A call that is asked for, and this call with the answer that is expected.
#[derive(Clone, Copy)]
pub struct ExpectedCall {
    pub request: Request,
    pub entry: Entry,
}

// Opens a change and puts pairs into it.
fn open(calls: &mut Vec<ExpectedCall>, ticket: u32, pairs: &Pairs) -> Result<(), AllocError>
    ensures { OnOk result (calls.new.items
        ≡ calls.old.items ++ open_calls ticket (pairs_of pairs.now)) }
{
    calls.push(ExpectedCall {
        request: Request::Begin,
        entry: Entry::Begin { answer: Ok(ticket) },
    })?;
    let mut count = 0;
    for Pair { key, value } in pairs {
        count += 1;
        calls.push(ExpectedCall {
            request: Request::Put { ticket, key, value },
            entry: Entry::Put {
                ticket,
                key,
                value,
                answer: Ok(count),
            },
        })?;
    }
    Ok(())
}

// And commits it. As long as every commit is accepted, its number is that of its ticket.
fn commit(calls: &mut Vec<ExpectedCall>, ticket: u32, pairs: &Pairs) -> Result<(), AllocError>
    ensures { OnOk result (calls.new.items
        ≡ calls.old.items ++ commit_calls ticket (pairs_of pairs.now)) }
{
    open(calls, ticket, pairs)?;
    calls.push(ExpectedCall {
        request: Request::Commit { ticket },
        entry: Entry::Commit {
            ticket,
            answer: Ok(ticket),
        },
    })?;
    Ok(())
}

// Commits the same pairs this often, the first time with this ticket.
#[tactic(auto, unfolding(crate::specs::Asked::repeated_commits))]
fn commit_often(
    calls: &mut Vec<ExpectedCall>,
    count: u32,
    ticket: u32,
    pairs: &Pairs,
) -> Result<(), AllocError>
    requires { count + ticket < 2 ^ 32 }
    ensures { OnOk result (calls.new.items
        ≡ calls.old.items ++ repeated_commits count ticket (pairs_of pairs.now)) }
{
    for i in 0..count {
        commit(calls, ticket + i, pairs)?;
    }
    Ok(())
}

// The first calibration until the bank is nearly full, with commits of no pairs behind it; a
// recover, which brings the charge; and the second calibration, up to its commit.
fn calls_before(heap: Global, way: Way) -> Result<Vec<ExpectedCall>, AllocError>
    ensures { IfOk result (λ calls. calls.items ≡ calls_before way) }
{
    let mut calls = Vec::new(heap);
    let number = WHOLE + way.empty();
    commit_often(&mut calls, WHOLE, 1, &example_pairs())?;
    commit_often(&mut calls, way.empty(), WHOLE + 1, &Pairs::new())?;
    calls.push(ExpectedCall {
        request: Request::Recover,
        entry: Entry::Recover { answer: Ok(number) },
    })?;
    open(&mut calls, number + 1, &second_pairs())?;
    Ok(calls)
}

// The commit that may be cut, a recover, and a get of every coefficient.
fn add_last_requests(requests: &mut Vec<Request>, ticket: u32) -> Result<(), AllocError>
    ensures { OnOk result (requests.new.items ≡ requests.old.items ++ last_requests ticket) }
{
    requests.push(Request::Commit { ticket })?;
    requests.push(Request::Recover)?;
    for Pair { key, .. } in &example_pairs() {
        requests.push(Request::Get { key })?;
    }
    Ok(())
}

fn requests_in(heap: Global, calls: &[ExpectedCall]) -> Result<Vec<Request>, AllocError>
    ensures { IfOk result (λ requests. requests.items ≡ map request_of calls.now) }
{
    let mut requests = Vec::new(heap);
    for call in calls {
        requests.push(call.request)?;
    }
    Ok(requests)
}

fn outcomes_in(heap: Global, calls: &[ExpectedCall]) -> Result<Vec<Option<Entry>>, AllocError>
    ensures { IfOk result (λ log. log.items ≡ map outcome_of calls.now) }
{
    let mut log = Vec::new(heap);
    for call in calls {
        log.push(Some(call.entry))?;
    }
    Ok(log)
}

// What a run is asked, and how its log is expected to begin.
#[derive(Drop)]
pub struct Asked {
    pub requests: Vec<Request>,
    pub expected: Vec<Option<Entry>>,
}

impl Asked {
    pub fn new(heap: Global, way: Way) -> Result<Asked, AllocError>
        ensures requests { IfOk result (λ asked. asked.requests.items ≡ requests way) }
        ensures expected { IfOk result (λ asked. asked.expected.items ≡ expected_log way) }
    {
        let calls = calls_before(heap, way)?;
        let mut requests = requests_in(heap, &calls)?;
        add_last_requests(&mut requests, WHOLE + way.empty() + 1)?;
        let expected = outcomes_in(heap, &calls)?;
        Ok(Asked { requests, expected })
    }
}
