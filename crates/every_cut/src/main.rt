// A second calibration is committed over a first one, and the power is cut at each of the writes in
// turn: what is cut, what the next recover answers, and which calibration stands then. Once the
// change fits behind what stands, to the last unit of the bank, and once it is one unit too long
// for that, so that the other bank is erased and written. That in every row one of the two stands,
// whole, is the contract of `make_table`, which stands on the law of each run.
#![tactic(auto)]

mod asking;
mod blank;
mod calibrations;
mod logs;
mod rows;
mod tables;
mod ways;

use flash::faults::Place;
use rows::{Row, Stands, Totals};
use std::alloc::Global;
use tables::{Part, make_table};
use ways::Way;

// Bank and unit; an erase has no unit.
fn cut_text(heap: Global, cut: Option<Place>) -> anyhow::Result<String> {
    Ok(match cut {
        Some((bank, Some(unit))) => format!(in heap; "{bank} {unit:>4}")?,
        Some((bank, None)) => format!(in heap; "{bank}    -")?,
        None => format!(in heap; "none")?,
    })
}

fn number_text(heap: Global, number: Option<u32>) -> anyhow::Result<String> {
    Ok(match number {
        Some(number) => format!(in heap; "{number}")?,
        None => format!(in heap; "refused")?,
    })
}

fn stands_text(stands: Stands) -> &'static str {
    match stands {
        Stands::First => "first",
        Stands::Second => "second",
        Stands::Mixed => "mixed",
    }
}

fn show_row(rt: &HostRuntime, row: Row) -> anyhow::Result<()> {
    let cut = cut_text(rt.alloc(), row.cut)?;
    let number = number_text(rt.alloc(), row.number)?;
    println!(rt;
        "{:>6}  {:<12}  {:>9}  {:>7}  {:>5}  {:>6}  {}",
        row.case.charge,
        row.case.left.name(),
        cut.as_str(),
        number.as_str(),
        row.first,
        row.second,
        stands_text(row.stands())
    )?;
    Ok(())
}

fn show_totals(rt: &impl Print, name: &str, totals: Totals) -> anyhow::Result<()> {
    println!(rt;
        "{}: {} rows, {} cut; the first stands in {}, the second in {}, mixed {}",
        name, totals.rows, totals.cut, totals.first, totals.second, totals.mixed
    )?;
    Ok(())
}

fn show_part(rt: &HostRuntime, way: Way, part: &Part) -> anyhow::Result<()> {
    println!(rt; "{}, {} writes:", way.name(), way.writes())?;
    println!(rt; "charge  a cut leaves  bank unit  recover  first  second  stands")?;
    for row in &part.rows {
        show_row(rt, *row)?;
    }
    show_totals(rt, way.name(), part.totals)?;
    println!(rt; "")?;
    Ok(())
}

fn run(rt: &HostRuntime) -> anyhow::Result<()> {
    let table = make_table(rt.alloc())?;
    show_part(rt, Way::InPlace, &table.in_place)?;
    show_part(rt, Way::OtherBank, &table.other_bank)?;
    show_totals(rt, "Both ways", table.both)
}

fn main(rt: HostRuntime) -> anyhow::Result<()> {
    run(&rt)
}
