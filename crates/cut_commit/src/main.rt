// A commit of two coefficients, cut at each of its writes in turn: what the bank that is written holds, unit by unit, and what is read.
#![tactic(auto)]

use anyhow::Context;
use flash::faults::{FlashFault, Place};
use flash::interface::Flash;
use flash::planned::Planned;
use flash::plans::PlanEntry;
use flash::units::Unit;
use journal::reading::read_units;
use journal::standing::Standing;
use journal::writers::{format_banks, write_change};
use layout::codec::meaning;
use layout::meanings::{Meaning, Pair};
use layout::pairs::Pairs;
use simulator::Simulator;
use std::alloc::Global;

const BANKS: usize = 2;

const UNITS: usize = 64;

// The keys of AC1 and B2.
// kept: numbers of its own, as a program stands alone; a `const` cannot ask for the key of a name.
const AC1: u8 = 1;

const B2: u8 = 8;

// A charge for every write before the one that is to be cut.
const PLENTY: u32 = 1000;

// A simulator that is powered up twice: with plenty of charge, and then with `charge`, its cut leaving a unit unreadable.
// kept: a maker of its own, as in the other programs: they stand alone, and one maker for all would be a public function of the simulator more.
fn planned(heap: Global, charge: u32) -> anyhow::Result<Simulator> {
    let table = vec![in heap; Unit::Blank; BANKS * UNITS]?;
    let mut simulator = Simulator::new(BANKS, UNITS, table)
        .ok()
        .context("no simulator")?;
    for charge in [PLENTY, charge] {
        let _ = simulator.add_entry(PlanEntry {
            charge,
            residue: 2,
            pattern: 0,
        });
    }
    Ok(simulator)
}

fn two_pairs(ac1: i32, b2: i32) -> Pairs {
    let mut pairs = Pairs::new();
    let _ = pairs.lay(Pair {
        key: AC1,
        value: ac1,
    });
    let _ = pairs.lay(Pair { key: B2, value: b2 });
    pairs
}

// Writes a change over what stands; the place of the write that was refused, if one was.
fn write<F: Flash>(flash: &mut F, change: &Pairs) -> anyhow::Result<Option<Place>> {
    let standing = read_units(flash).context("nothing stands")?;
    let number = standing.number.saturating_add(1);
    let written = write_change(flash, &standing, change, number);
    Ok(written.err().map(|fault| fault.place()))
}

// kept: the words for a unit are this program's own.
fn show_unit(rt: &impl Print, at: usize, unit: Unit) -> anyhow::Result<()> {
    print!(rt; "  unit {at}: ")?;
    match (unit, meaning(unit)) {
        (Unit::Blank, _) => println!(rt; "blank")?,
        (Unit::Unreadable, _) => println!(rt; "unreadable")?,
        (_, Meaning::Noise) => println!(rt; "nothing that the store knows")?,
        (_, Meaning::Record(pair)) => println!(rt; "record, key {} is {}", pair.key, pair.value)?,
        (_, Meaning::Commit { count, number }) => println!(rt;
            "commit number {number} of {count} records"
        )?,
        (_, Meaning::Header { count, number }) => println!(rt;
            "header number {number} of {count} records"
        )?,
    }
    Ok(())
}

fn show_standing(rt: &impl Print, standing: &Standing) -> anyhow::Result<()> {
    println!(rt;
        "  read: number {}, AC1 {}, B2 {}",
        standing.number,
        standing.pairs.value(AC1).unwrap_or(0),
        standing.pairs.value(B2).unwrap_or(0)
    )?;
    Ok(())
}

// The units of a bank in words, up to the last that is not blank.
fn show_bank<F: Flash>(rt: &impl Print, flash: &F, bank: usize) -> anyhow::Result<()> {
    let mut blank = true;
    // kept: a range: a flash is asked unit by unit, and has no list of them.
    for at in 0..UNITS {
        match flash.read(bank, at) {
            Ok(Unit::Blank) => {}
            Ok(unit) => {
                show_unit(rt, at, unit)?;
                blank = false;
            }
            Err(fault) => println!(rt; "  unit {at}: refused with {}", fault.number())?,
        }
    }
    if blank {
        println!(rt; "  all units blank")?;
    }
    Ok(())
}

// A store with `before` commits of AC1 408 and B2 4; then AC1 500 and B2 5 are committed with the charge, and the bank that was written is shown.
fn cut_at(rt: &HostRuntime, before: u32, charge: u32, bank: usize) -> anyhow::Result<()> {
    let mut flash = planned(rt.alloc(), charge)?;
    flash.power_up();
    format_banks(&mut flash).ok().context("not formatted")?;
    // kept: a range: the same write again, and no index is counted.
    for _ in 0..before {
        let _ = write(&mut flash, &two_pairs(408, 4))?;
    }
    flash.power_up();
    let stopped = write(&mut flash, &two_pairs(500, 5))?;
    flash.power_up();
    print!(rt; "charge {charge}: ")?;
    match stopped {
        None => println!(rt; "all writes completed")?,
        Some((at, None)) => println!(rt; "cut in the erase of bank {at}")?,
        Some((at, Some(unit))) => println!(rt; "cut at unit {unit} of bank {at}")?,
    }
    show_bank(rt, &flash, bank)?;
    let standing = read_units(&flash).context("nothing stands")?;
    show_standing(rt, &standing)
}

fn run(rt: &HostRuntime) -> anyhow::Result<()> {
    println!(rt; "Two records behind commit number 1, AC1 408 and B2 4: three writes.")?;
    // kept: ranges here and below: of charges, each of which is one case.
    for charge in 0..4u32 {
        cut_at(rt, 1, charge, 0)?;
    }
    println!(rt; "")?;
    println!(rt;
        "Two records with bank 0 full at commit number 21: bank 1 is erased and written, four writes."
    )?;
    for charge in 0..5u32 {
        cut_at(rt, 21, charge, 1)?;
    }
    Ok(())
}

fn main(rt: HostRuntime) -> anyhow::Result<()> {
    run(&rt)
}
