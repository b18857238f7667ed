// A run on a store over a simulator: a calibration is committed and read with, the commit of the
// next one is cut by a power failure, and the store is recovered. Every call and what came of it,
// in words. That recover and format power the flash up exactly once, as its kind does it, and also
// where it is on, is a clause of the store's calls over any flash (`OnePowerUp`); here each
// power-up brings its own charge, and the cuts show it.
#![tactic(auto)]

use anyhow::Context;
use compensation::datasheet::{UP, UT};
use compensation::text::{degrees, hectopascals};
use figures::example::example_pairs;
use flash::planned::Planned;
use flash::plans::PlanEntry;
use flash::units::Unit;
use layout::catalogue::name_of;
use layout::meanings::Pair;
use runs::requests::Request;
use runs::rooms::Room;
use runs::running::format_and_make_calls;
use simulator::Simulator;
use std::alloc::Global;
use store::entries::Entry;
use store::refusals::Refusal;
use store::stores::Store;

const BANKS: usize = 2;

const UNITS: usize = 64;

// The keys of AC1 and PCOR.
// kept: numbers of its own, as a program stands alone; a `const` cannot ask for the key of a name.
const AC1: u8 = 1;

const PCOR: u8 = 13;

// The charges that the power-ups bring, in their order. For the format: its three writes, twelve of the first commit, and five of the second, so that
// the sixth of these is cut. For the recover after that cut: just the twelve writes of the third commit. For the next recover, of a
// flash that is on: one write, so that the second one of a commit is cut. For the recover after that: plenty. For the format at the end: two of its three writes.
const CHARGES: [u32; 5] = [3 + 12 + 5, 12, 1, 100, 2];

// A simulator of blank units whose power-ups bring these charges.
// kept: a maker of its own, as in the other programs: they stand alone, and one maker for all would be a public function of the simulator more.
fn simulator(heap: Global) -> anyhow::Result<Simulator> {
    let table = vec![in heap; Unit::Blank; BANKS * UNITS]?;
    let mut simulator = Simulator::new(BANKS, UNITS, table)
        .ok()
        .context("no simulator")?;
    for charge in CHARGES {
        let _ = simulator.add_entry(PlanEntry {
            charge,
            residue: 2,
            pattern: 0,
        });
    }
    Ok(simulator)
}

// Opens a change, puts the datasheet's coefficients into it with another AC1, and commits it.
fn ask_calibration(asked: &mut Vec<Request>, ticket: u32, ac1: i32) -> anyhow::Result<()> {
    let pairs = example_pairs();
    asked.push(Request::Begin)?;
    for Pair { key, value } in &pairs {
        let value = if key == AC1 { ac1 } else { value };
        asked.push(Request::Put { ticket, key, value })?;
    }
    asked.push(Request::Commit { ticket })?;
    Ok(())
}

// A temperature, and a pressure with the step that it gives: the one at this place among the run's steps.
fn ask_reading(asked: &mut Vec<Request>, step: usize) -> anyhow::Result<()> {
    asked.push(Request::Temperature { ut: UT })?;
    asked.push(Request::Pressure { step, up: UP })?;
    Ok(())
}

fn requests(heap: Global) -> anyhow::Result<Vec<Request>> {
    let mut asked = Vec::new(heap);
    ask_calibration(&mut asked, 1, 408)?;
    ask_reading(&mut asked, 0)?;
    asked.push(Request::Temperature { ut: UT })?;
    ask_calibration(&mut asked, 2, 500)?;
    asked.push(Request::Get { key: AC1 })?;
    asked.push(Request::Recover)?;
    asked.push(Request::Get { key: AC1 })?;
    asked.push(Request::Pressure { step: 1, up: UP })?;
    ask_last_part(&mut asked)?;
    Ok(asked)
}

// The change once more, this time whole; a step from before it; a change that a recover drops, and its ticket afterwards; a
// second cut.
fn ask_last_part(asked: &mut Vec<Request>) -> anyhow::Result<()> {
    asked.push(Request::Temperature { ut: UT })?;
    ask_calibration(asked, 3, 500)?;
    asked.push(Request::Pressure { step: 2, up: UP })?;
    ask_reading(asked, 3)?;
    asked.push(Request::Pressure { step: 3, up: UP })?;
    asked.push(Request::Begin)?;
    asked.push(Request::Recover)?;
    asked.push(Request::Put {
        ticket: 4,
        key: PCOR,
        value: 10,
    })?;
    asked.push(Request::Get { key: PCOR })?;
    asked.push(Request::Begin)?;
    asked.push(Request::Put {
        ticket: 5,
        key: PCOR,
        value: 10,
    })?;
    asked.push(Request::Commit { ticket: 5 })?;
    asked.push(Request::Recover)?;
    asked.push(Request::Get { key: PCOR })?;
    Ok(())
}

// kept: the words are this program's; the store's refusals are known by their numbers.
fn show_refusal(rt: &impl Print, refusal: Refusal) -> anyhow::Result<()> {
    print!(rt; "refused with {}", refusal.number())?;
    match refusal {
        Refusal::WriteStopped((bank, Some(unit))) => println!(rt;
            ", cut at unit {unit} of bank {bank}"
        )?,
        Refusal::WriteStopped((bank, None)) => println!(rt; ", cut in the erase of bank {bank}")?,
        Refusal::Absent(key) => println!(rt; ", key {key} is absent")?,
        _ => println!(rt; "")?,
    }
    Ok(())
}

// What a call answered, by `tell`, or its refusal.
fn show_answer<T: Drop, F: FnOnce(T) -> anyhow::Result<()>>(
    rt: &impl Print,
    answer: Result<T, Refusal>,
    tell: F,
) -> anyhow::Result<()>
    requires { (x : T) → F.pre tell x }
{
    match answer {
        Ok(x) => tell(x),
        Err(refusal) => show_refusal(rt, refusal),
    }
}

fn show_number(rt: &impl Print, what: &str, answer: Result<u32, Refusal>) -> anyhow::Result<()> {
    show_answer(rt, answer, |number| {
        println!(rt; "{what} {number}")?;
        Ok(())
    })
}

fn name(key: u8) -> &'static str {
    name_of(key).unwrap_or("?")
}

fn show_value(rt: &impl Print, answer: Result<Option<i32>, Refusal>) -> anyhow::Result<()> {
    show_answer(rt, answer, |value| {
        match value {
            Some(value) => println!(rt; "{value}")?,
            None => println!(rt; "no value")?,
        }
        Ok(())
    })
}

fn show_call(rt: &impl Print, entry: Entry) -> anyhow::Result<()> {
    match entry {
        Entry::Recover { .. } => print!(rt; "recover: ")?,
        Entry::Begin { .. } => print!(rt; "begin: ")?,
        Entry::Put {
            ticket,
            key,
            value,
            ..
        } => {
            let name = name(key);
            print!(rt; "put {name} {value} into the change of ticket {ticket}: ")?
        }
        Entry::Commit { ticket, .. } => print!(rt; "commit of ticket {ticket}: ")?,
        Entry::Abandon { ticket, .. } => print!(rt; "abandon of ticket {ticket}: ")?,
        Entry::Get { key, .. } => print!(rt; "get {}: ", name(key))?,
        Entry::Temperature { ut, .. } => print!(rt; "temperature from {ut}: ")?,
        Entry::Pressure { up, .. } => print!(rt; "pressure from {up}: ")?,
    }
    Ok(())
}

fn show_outcome(rt: &impl Print, entry: Entry) -> anyhow::Result<()> {
    match entry {
        Entry::Recover { answer } => show_number(rt, "number", answer),
        Entry::Begin { answer } => show_number(rt, "ticket", answer),
        Entry::Put { answer, .. } => show_number(rt, "pairs", answer),
        Entry::Commit { answer, .. } => show_number(rt, "number", answer),
        Entry::Abandon { answer, .. } => show_answer(rt, answer, |_| {
            println!(rt; "done")?;
            Ok(())
        }),
        Entry::Get { answer, .. } => show_value(rt, answer),
        Entry::Temperature { answer, .. } => show_answer(rt, answer, |step| {
            println!(rt; "{} degrees", degrees(step.t))?;
            Ok(())
        }),
        Entry::Pressure { answer, .. } => show_answer(rt, answer, |line| {
            println!(rt; "{} degrees, {} hPa", degrees(line.t), hectopascals(line.p))?;
            Ok(())
        }),
    }
}

// A call and what came of it, or that none was made.
fn show(rt: &impl Print, outcome: Option<Entry>) -> anyhow::Result<()> {
    match outcome {
        Some(entry) => {
            show_call(rt, entry)?;
            show_outcome(rt, entry)
        }
        None => {
            println!(rt; "not made: the ticket or the step is not there")?;
            Ok(())
        }
    }
}

// Formats the store and makes the calls of the run.
fn show_run(rt: &HostRuntime, store: &mut Store<Simulator>) -> anyhow::Result<()> {
    let asked = requests(rt.alloc())?;
    print!(rt; "format: ")?;
    let room = Room::new(rt.alloc(), asked.len())?;
    match format_and_make_calls(store, &asked, room) {
        Ok(log) => {
            // An accepted format answers 0, by the contract of the call.
            println!(rt; "number 0")?;
            for outcome in &log {
                show(rt, *outcome)?;
            }
            Ok(())
        }
        Err(refusal) => show_refusal(rt, refusal),
    }
}

fn show_format(rt: &impl Print, store: &mut Store<Simulator>) -> anyhow::Result<()> {
    print!(rt; "format: ")?;
    let answer = store.format();
    show_number(rt, "number", answer)
}

fn run(rt: &HostRuntime) -> anyhow::Result<()> {
    let mut store = Store::new(simulator(rt.alloc())?, 1);
    show_run(rt, &mut store)?;
    show_format(rt, &mut store)?;
    print!(rt; "recover: ")?;
    let answer = store.recover();
    show_number(rt, "number", answer)?;
    show_format(rt, &mut store)
}

fn main(rt: HostRuntime) -> anyhow::Result<()> {
    run(&rt)
}
