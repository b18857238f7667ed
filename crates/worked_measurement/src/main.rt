// Follows the measurement of the chip's datasheet from the raw values to the printed line, and shows one that is refused.
#![tactic(auto)]

use compensation::calibration::Calibration;
use compensation::coefficients::Coefficients;
use compensation::datasheet::{UP, UT, example_calibration};
use compensation::readings::{Balance, ReadingRefusal, WorkedPressure, WorkedTemperature};
use compensation::text::{degrees, hectopascals};

// A raw pressure of 17 bits, which the chip does not give at OSS 0.
const UP_TOO_LARGE: i32 = 65536;

fn show_coefficients(rt: &impl Print, k: Coefficients) -> anyhow::Result<()> {
    println!(rt; "The chip's coefficients")?;
    println!(rt; "  AC1 {}  AC2 {}  AC3 {}", k.ac1, k.ac2, k.ac3)?;
    println!(rt; "  AC4 {}  AC5 {}  AC6 {}", k.ac4, k.ac5, k.ac6)?;
    println!(rt; "  B1 {}  B2 {}", k.b1, k.b2)?;
    println!(rt; "  MB {}  MC {}  MD {}", k.mb, k.mc, k.md)?;
    println!(rt; "  OSS {}  PCOR {}", k.oss, k.pcor)?;
    Ok(())
}

fn show_temperature(rt: &impl Print, ut: i32, w: WorkedTemperature) -> anyhow::Result<()> {
    println!(rt; "")?;
    println!(rt; "The temperature from UT {ut} (/ rounds down)")?;
    println!(rt; "  X1 = (UT - AC6) * AC5 / 2^15 = {}", w.x1)?;
    println!(rt; "  X2 = MC * 2^11 / (X1 + MD) = {}", w.x2)?;
    println!(rt; "  B5 = X1 + X2 = {}", w.b5)?;
    println!(rt; "  T = (B5 + 8) / 16 = {}", w.t)?;
    println!(rt; "  It is {} degrees.", degrees(w.t))?;
    Ok(())
}

fn show_balance(rt: &impl Print, w: Balance) -> anyhow::Result<()> {
    println!(rt; "  B6 = B5 - 4000 = {}", w.b6)?;
    println!(rt; "  S = B6 * B6 / 2^12 = {}", w.s)?;
    println!(rt; "  X3 = B2 * S / 2^11 + AC2 * B6 / 2^11 = {}", w.x3)?;
    println!(rt; "  B3 = ((AC1 * 4 + X3) * 2^OSS + 2) / 4 = {}", w.b3)?;
    println!(rt;
        "  Y3 = (AC3 * B6 / 2^13 + B1 * S / 2^16 + 2) / 4 = {}",
        w.y3
    )?;
    println!(rt; "  B4 = AC4 * (Y3 + 32768) / 2^15 = {}", w.b4)?;
    Ok(())
}

fn show_pressure(rt: &impl Print, up: i32, w: WorkedPressure) -> anyhow::Result<()> {
    println!(rt; "")?;
    println!(rt; "The pressure from UP {up} at that temperature")?;
    show_balance(rt, w.balance)?;
    println!(rt; "  B7 = (UP - B3) * (50000 / 2^OSS) = {}", w.b7)?;
    println!(rt;
        "  p = B7 * 2 / B4, or B7 / B4 * 2 from a B7 of 2^31 on = {}",
        w.p
    )?;
    println!(rt; "  P = p + its last correction + PCOR = {} Pa", w.pa)?;
    println!(rt; "  It is {} hPa.", hectopascals(w.pa))?;
    Ok(())
}

fn show_refused(rt: &impl Print, up: i32, refusal: ReadingRefusal) -> anyhow::Result<()> {
    println!(rt; "")?;
    println!(rt; "The same with UP {up}")?;
    println!(rt; "  Refused with {}: {refusal}.", refusal.number())?;
    Ok(())
}

// One raw pressure at the temperature that `b5` stands for.
fn try_pressure(rt: &impl Print, k: &Calibration, b5: i16, up: i32) -> anyhow::Result<()> {
    match k.pressure(b5, up) {
        Ok(w) => show_pressure(rt, up, w),
        Err(refusal) => show_refused(rt, up, refusal),
    }
}

fn run(rt: &impl Print) -> anyhow::Result<()> {
    let k = example_calibration();
    show_coefficients(rt, k.values())?;
    let w = k.temperature(UT)?;
    show_temperature(rt, UT, w)?;
    try_pressure(rt, &k, w.b5, UP)?;
    try_pressure(rt, &k, w.b5, UP_TOO_LARGE)
}

fn main(rt: HostRuntime) -> anyhow::Result<()> {
    run(&rt)
}
