// How much work the store does. A line on standard input is a job, `OP FLASH U N REPS`. The answer
// is a checksum of all that the calls gave, so that a program which does the same in another
// language can be held against this one, and no compiler can leave the work out.
//
//     OP         what is done REPS times
//     full       a recover; commits filled bank 0 before, and then bank 1, which is active
//     half       a recover; bank 1 is filled to about its middle
//     fresh      a recover of what a format wrote
//     commit     a begin, N puts and a commit
//     change     a begin, N puts and an abandon
//     get        a get, of one key after the other
//     reading    a temperature, and a pressure by its step
//     written    a begin, N puts and a commit; what every unit holds counts in the end
//     random     a recover over units made at random, and what stands then
//
//     FLASH      2 banks of U units:
//     simulator  a simulator
//     image      an image
//     mirror     a mirror of two images
//     mirrors    a mirror of two mirrors of images
//     simulators a mirror of two simulators
//
// N is how many pairs each commit has, at most 12: those of the keys 1 to N.
#![tactic(auto)]

mod random_units;

use anyhow::Context;
use flash::interface::Flash;
use flash::units::Unit;
use image::Image;
use mirror::Mirror;
use random_units::Maker;
use simulator::Simulator;
use std::alloc::Global;
use std::io::{BufRead, BufReader};
use store::stores::Store;
use store::tickets::Ticket;

const BANKS: usize = 2;

const FIRST_TICKET: u32 = 1;

// The bytes of an image's header and of each of its units.
const HEADER_SIZE: usize = 17;

const UNIT_SIZE: usize = 9;

const OSS: u8 = 12;

const LAST_KEY: u8 = 13;

// What a key without a value adds to a checksum.
const NO_VALUE: i32 = 7;

// AC1 to MD of the chip's datasheet, by their keys 1 to 11.
const EXAMPLE: [i32; 11] = [
    408, -72, -14383, 32741, 32757, 23153, 6190, 4, -32768, -8711, 2868,
];

#[derive(Clone, Copy)]
enum Op {
    Full,
    Half,
    Fresh,
    Commit,
    Change,
    Get,
    Reading,
    Written,
    Random,
}

#[derive(Clone, Copy)]
enum Kind {
    Simulator,
    Image,
    Mirror,
    Mirrors,
    Simulators,
}

#[derive(Clone, Copy)]
struct Job {
    op: Op,
    kind: Kind,
    units: usize,
    pairs: u8,
    repetitions: u32,
}

// A checksum of the numbers that were added, in their order.
#[derive(Clone, Copy)]
struct Checksum(u64);

impl Checksum {
    fn add(&mut self, number: u64) {
        self.0 = self.0.wrapping_mul(31).wrapping_add(number);
    }

    fn add_signed(&mut self, number: i32) {
        self.add(i64::from(number).cast_unsigned());
    }

    fn add_value(&mut self, value: Option<i32>) {
        self.add_signed(value.unwrap_or(NO_VALUE));
    }
}

fn op_named(word: &str) -> Option<Op> {
    match word {
        "full" => Some(Op::Full),
        "half" => Some(Op::Half),
        "fresh" => Some(Op::Fresh),
        "commit" => Some(Op::Commit),
        "change" => Some(Op::Change),
        "get" => Some(Op::Get),
        "reading" => Some(Op::Reading),
        "written" => Some(Op::Written),
        "random" => Some(Op::Random),
        _ => None,
    }
}

fn kind_named(word: &str) -> Option<Kind> {
    match word {
        "simulator" => Some(Kind::Simulator),
        "image" => Some(Kind::Image),
        "mirror" => Some(Kind::Mirror),
        "mirrors" => Some(Kind::Mirrors),
        "simulators" => Some(Kind::Simulators),
        _ => None,
    }
}

fn job_of(line: &str) -> Option<Job> {
    let mut words = line.split(' ');
    Some(Job {
        op: op_named(words.next()?)?,
        kind: kind_named(words.next()?)?,
        units: words.next()?.parse().ok()?,
        pairs: words.next()?.parse().ok()?,
        repetitions: words.next()?.parse().ok()?,
    })
}

// The value of a key from 1 to 12 in a round, one that the catalogue admits: of OSS from 0 to 3, of
// the others from 1 to 1000.
fn value_in_round(key: u8, round: u32) -> i32 {
    let some = (u64::from(round) * 13 + u64::from(key) * 7) % 1000;
    let value = if key == OSS { some % 4 } else { some + 1 };
    // kept: `as`, here and below, proved to fit; `try_from` would answer an error that cannot come.
    value as i32
}

// Puts the keys 1 to `pairs`; how many pairs the change then has.
fn put_round<F: Flash>(
    store: &mut Store<F>,
    ticket: &Ticket,
    pairs: u8,
    round: u32,
) -> Option<u32> {
    let mut count = 0;
    for key in 1..=pairs {
        count = store.put(ticket, key, value_in_round(key, round)).ok()?;
    }
    Some(count)
}

fn put_example<F: Flash>(store: &mut Store<F>, ticket: &Ticket) -> Option<u32> {
    let mut count = 0;
    for (key, value) in (1..).zip(EXAMPLE) {
        count = store.put(ticket, key, value).ok()?;
    }
    Some(count)
}

// Commits a change whose puts were all accepted, and drops any other.
fn commit_if<F: Flash>(store: &mut Store<F>, ticket: Ticket, put: Option<u32>) -> Option<u32> {
    match put {
        Some(_) => store.commit(ticket).ok(),
        None => {
            let _ = store.abandon(ticket);
            None
        }
    }
}

fn commit_round<F: Flash>(store: &mut Store<F>, pairs: u8, round: u32) -> Option<u32> {
    let ticket = store.begin().ok()?;
    let put = put_round(store, &ticket, pairs, round);
    commit_if(store, ticket, put)
}

fn commit_example<F: Flash>(store: &mut Store<F>) -> Option<u32> {
    let ticket = store.begin().ok()?;
    let put = put_example(store, &ticket);
    commit_if(store, ticket, put)
}

fn abandon_round<F: Flash>(store: &mut Store<F>, pairs: u8, round: u32) -> Option<u32> {
    let ticket = store.begin().ok()?;
    let put = put_round(store, &ticket, pairs, round);
    store.abandon(ticket).ok()?;
    put
}

// How many commits of so many pairs fit into bank 0 behind its header.
fn commits_in_first(units: usize, pairs: u8) -> usize {
    units.saturating_sub(1) / (usize::from(pairs) + 1)
}

// How many fit into bank 1, behind the commit that moved there: it has the pairs and a header.
fn commits_in_second(units: usize, pairs: u8) -> usize {
    let each = usize::from(pairs) + 1;
    units.saturating_sub(each) / each
}

// How many commits a job makes before its recovers.
fn commits_before(job: &Job) -> usize {
    let first = commits_in_first(job.units, job.pairs);
    let second = commits_in_second(job.units, job.pairs);
    match job.op {
        Op::Full => first.saturating_add(1).saturating_add(second),
        Op::Half => first.saturating_add(1).saturating_add(second / 2),
        _ => 0,
    }
}

fn fill<F: Flash>(store: &mut Store<F>, job: &Job, sum: &mut Checksum) -> Option<()> {
    for (round, _) in (0..).zip(0..commits_before(job)) {
        let number = commit_round(store, job.pairs, round)?;
        sum.add(u64::from(number));
    }
    Some(())
}

fn recovers<F: Flash>(store: &mut Store<F>, job: &Job, sum: &mut Checksum) -> Option<()> {
    fill(store, job, sum)?;
    for _ in 0..job.repetitions {
        let number = store.recover().ok()?;
        sum.add(u64::from(number));
        sum.add_value(store.get(1).ok()?);
    }
    Some(())
}

fn commits<F: Flash>(store: &mut Store<F>, job: &Job, sum: &mut Checksum) -> Option<()> {
    for round in 0..job.repetitions {
        let number = commit_round(store, job.pairs, round)?;
        sum.add(u64::from(number));
    }
    Some(())
}

fn changes<F: Flash>(store: &mut Store<F>, job: &Job, sum: &mut Checksum) -> Option<()> {
    for round in 0..job.repetitions {
        let count = abandon_round(store, job.pairs, round)?;
        sum.add(u64::from(count));
    }
    Some(())
}

fn gets<F: Flash>(store: &mut Store<F>, job: &Job, sum: &mut Checksum) -> Option<()> {
    let _ = commit_example(store)?;
    for i in 0..job.repetitions {
        let key = 1 + (i % u32::from(LAST_KEY)) as u8;
        sum.add_value(store.get(key).ok()?);
    }
    Some(())
}

fn readings<F: Flash>(store: &mut Store<F>, job: &Job, sum: &mut Checksum) -> Option<()> {
    let _ = commit_example(store)?;
    for i in 0..job.repetitions {
        let step = store.temperature((27000 + i % 1000) as i32).ok()?;
        let line = store.pressure(step, (23000 + i % 4096) as i32).ok()?;
        sum.add_signed(i32::from(line.t));
        sum.add_signed(line.p);
    }
    Some(())
}

// What stands when all is done.
fn add_standing<F: Flash>(store: &mut Store<F>, sum: &mut Checksum) -> Option<()> {
    for key in 1..=LAST_KEY {
        sum.add_value(store.get(key).ok()?);
    }
    Some(())
}

// What every unit holds.
fn add_units<F: Flash>(flash: &F, sum: &mut Checksum) -> Option<()> {
    for bank in 0..flash.banks() {
        for unit in 0..flash.units_per_bank() {
            match flash.read(bank, unit).ok()? {
                Unit::Blank => sum.add(1),
                Unit::Programmed(value) => sum.add(value),
                Unit::Unreadable => sum.add(2),
            }
        }
    }
    Some(())
}

// Does a job on a store over a blank flash, and gives the flash back.
fn worked<F: Flash + Drop>(flash: F, job: &Job, sum: &mut Checksum) -> Option<F> {
    let mut store = Store::new(flash, FIRST_TICKET);
    let _ = store.format().ok()?;
    match job.op {
        Op::Full | Op::Half | Op::Fresh => recovers(&mut store, job, sum)?,
        Op::Commit | Op::Written => commits(&mut store, job, sum)?,
        Op::Change => changes(&mut store, job, sum)?,
        Op::Get => gets(&mut store, job, sum)?,
        Op::Reading => readings(&mut store, job, sum)?,
        // its units are not those of a format
        Op::Random => return None,
    }
    add_standing(&mut store, sum)?;
    Some(store.into_flash())
}

// Recovers a store over whatever the flash holds, and gives the flash back.
fn recovered<F: Flash + Drop>(flash: F, sum: &mut Checksum) -> Option<F> {
    let mut store = Store::new(flash, FIRST_TICKET);
    match store.recover() {
        Ok(number) => {
            sum.add(u64::from(number));
            add_standing(&mut store, sum)?;
        }
        Err(refusal) => sum.add(u64::from(refusal.number())),
    }
    Some(store.into_flash())
}

fn recovers_random<F: Flash + Drop>(flash: F, job: &Job, sum: &mut Checksum) -> Option<()> {
    let mut flash = flash;
    let mut maker = Maker::new();
    for _ in 0..job.repetitions {
        maker.fill(&mut flash)?;
        flash = recovered(flash, sum)?;
    }
    Some(())
}

// The checksum of a job; none where a call was refused that a job has accepted.
fn sum_of<F: Flash + Drop>(flash: F, job: &Job) -> Option<u64> {
    let mut sum = Checksum(0);
    match job.op {
        Op::Random => recovers_random(flash, job, &mut sum)?,
        Op::Written => add_units(&worked(flash, job, &mut sum)?, &mut sum)?,
        _ => {
            let _ = worked(flash, job, &mut sum)?;
        }
    }
    Some(sum.0)
}

fn done_on<F: Flash + Drop>(flash: F, job: &Job) -> anyhow::Result<u64> {
    sum_of(flash, job).context("a call was refused")
}

// kept: makers of its own, as in the other programs: they stand alone, and one maker for all would
// be a public function more of each kind of flash.
fn simulator(heap: Global, units: usize) -> anyhow::Result<Simulator> {
    let table = vec![in heap; Unit::Blank; units.saturating_mul(BANKS)]?;
    Simulator::new(BANKS, units, table)
        .ok()
        .context("no simulator")
}

// A blank image, off, whose power-ups bring the greatest charge.
fn image(heap: Global, units: usize) -> anyhow::Result<Image> {
    let width = u16::try_from(units).ok().context("too many units")?;
    let [high, low] = width.to_be_bytes();
    let header: [u8; HEADER_SIZE] = [
        0x43, 0x46, 0x49, 0, 1, 2, high, low, 0, 0, 0, 0, 255, 255, 255, 255, 0,
    ];
    let mut bytes = header.to_vec(heap)?;
    bytes.resize(HEADER_SIZE + UNIT_SIZE * BANKS * usize::from(width), 0)?;
    Image::open(bytes).ok().context("no image")
}

fn mirror(heap: Global, units: usize) -> anyhow::Result<Mirror<Image, Image>> {
    Ok(Mirror::new(image(heap, units)?, image(heap, units)?))
}

fn done(heap: Global, job: &Job) -> anyhow::Result<u64> {
    let units = job.units;
    match job.kind {
        Kind::Simulator => done_on(simulator(heap, units)?, job),
        Kind::Image => done_on(image(heap, units)?, job),
        Kind::Mirror => done_on(mirror(heap, units)?, job),
        Kind::Mirrors => done_on(Mirror::new(mirror(heap, units)?, mirror(heap, units)?), job),
        Kind::Simulators => {
            done_on(
                Mirror::new(simulator(heap, units)?, simulator(heap, units)?),
                job,
            )
        }
    }
}

fn run(rt: &HostRuntime) -> anyhow::Result<()> {
    for line in BufReader::new(rt.alloc(), rt.stdin())?.lines(rt.alloc()) {
        let job = job_of(line?.as_str()).context("no job")?;
        println!(rt; "{}", done(rt.alloc(), &job)?)?;
    }
    Ok(())
}

fn main(rt: HostRuntime) -> anyhow::Result<()> {
    run(&rt)
}
