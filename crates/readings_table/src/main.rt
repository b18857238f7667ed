// Works out a table of readings: each line of standard input has the coefficients AC1 to PCOR, UT and UP, parted by commas.
// A line comes back with what it gives: the temperature's refusal or B5 and T, then the pressure's refusal or P in Pa.
// Lines that begin with # are remarks and come back as they are.
#![tactic(auto)]

use compensation::calibration::Calibration;
use compensation::coefficients::Coefficients;
use std::io::{BufRead, BufReader};

// Thirteen coefficients and two raw values.
const COLUMNS: usize = 15;

// A line that is a reading.
#[derive(Clone, Copy)]
struct Reading {
    coefficients: Coefficients,
    ut: i32,
    up: i32,
}

fn numbers(line: &str) -> Option<[i64; COLUMNS]> {
    let mut row = [0; COLUMNS];
    let mut words = line.split(',');
    for z in &mut row {
        *z = words.next()?.parse().ok()?;
    }
    if words.next().is_some() {
        return None;
    }
    Some(row)
}

fn parsed(line: &str) -> Option<Reading> {
    let [
        ac1,
        ac2,
        ac3,
        ac4,
        ac5,
        ac6,
        b1,
        b2,
        mb,
        mc,
        md,
        oss,
        pcor,
        ut,
        up,
    ] = numbers(line)?;
    Some(Reading {
        coefficients: Coefficients {
            ac1,
            ac2,
            ac3,
            ac4,
            ac5,
            ac6,
            b1,
            b2,
            mb,
            mc,
            md,
            oss,
            pcor,
        },
        ut: i32::try_from(ut).ok()?,
        up: i32::try_from(up).ok()?,
    })
}

fn show(rt: &impl Print, line: &str, k: &Calibration, reading: Reading) -> anyhow::Result<()> {
    let t = match k.temperature(reading.ut) {
        Ok(t) => t,
        Err(refusal) => {
            println!(rt; "{line},{},,,,", refusal.number())?;
            return Ok(());
        }
    };
    match k.pressure(t.b5, reading.up) {
        Ok(p) => println!(rt; "{line},,{},{},,{}", t.b5, t.t, p.pa)?,
        Err(refusal) => println!(rt; "{line},,{},{},{},", t.b5, t.t, refusal.number())?,
    }
    Ok(())
}

fn answer(rt: &impl Print, line: &str) -> anyhow::Result<()> {
    let Some(reading) = parsed(line) else {
        println!(rt; "{line}: not a reading")?;
        return Ok(());
    };
    match Calibration::new(reading.coefficients) {
        Some(k) => show(rt, line, &k, reading),
        None => {
            println!(rt; "{line}: a coefficient outside its range")?;
            Ok(())
        }
    }
}

fn run(rt: &HostRuntime) -> anyhow::Result<()> {
    println!(rt;
        "AC1,AC2,AC3,AC4,AC5,AC6,B1,B2,MB,MC,MD,OSS,PCOR,UT,UP,temperature_refused,B5,T,pressure_refused,P"
    )?;
    for line in BufReader::new(rt.alloc(), rt.stdin())?.lines(rt.alloc()) {
        let line = line?;
        if line.as_str().starts_with('#') {
            println!(rt; "{}", line.as_str())?;
        } else {
            answer(rt, line.as_str())?;
        }
    }
    Ok(())
}

fn main(rt: HostRuntime) -> anyhow::Result<()> {
    run(&rt)
}
