// A mirror of a byte image and a simulator: a program is cut in the middle, and the mirror still holds a value or a blank unit.
#![tactic(auto)]

use anyhow::Context;
use flash::faults::FlashFault;
use flash::interface::Flash;
use flash::planned::Planned;
use flash::plans::PlanEntry;
use flash::units::Unit;
use image::Image;
use mirror::Mirror;
use simulator::Simulator;
use std::alloc::Global;

// One bank of four blank units: the mark, the version, one bank, four units, charge 0, a supply of 9 writes, off.
const HEADER: [u8; 17] = [0x43, 0x46, 0x49, 0, 1, 1, 0, 4, 0, 0, 0, 0, 0, 0, 0, 9, 0];

const UNITS: usize = 4;

fn blank_image(heap: Global) -> anyhow::Result<Image> {
    let mut bytes = HEADER.to_vec(heap)?;
    bytes.resize(HEADER.len() + UNITS * 9, 0)?;
    Image::open(bytes).ok().context("no image")
}

// A simulator whose first power-up completes two writes and whose cut leaves its unit unreadable.
// kept: a maker of its own, as in the other programs: they stand alone, and one maker for all would be a public function of the simulator more.
fn short_simulator(heap: Global) -> anyhow::Result<Simulator> {
    let table = vec![in heap; Unit::Blank; UNITS]?;
    let mut simulator = Simulator::new(1, UNITS, table)
        .ok()
        .context("no simulator")?;
    let _ = simulator.add_entry(PlanEntry {
        charge: 2,
        residue: 2,
        pattern: 0,
    });
    Ok(simulator)
}

// What one unit holds, or that it cannot be told.
// kept: the words for a unit are this program's own.
fn show<F: Flash>(rt: &impl Print, name: &str, flash: &F, unit: usize) -> anyhow::Result<()> {
    match flash.read(0, unit) {
        Ok(Unit::Blank) => println!(rt; "    {name}: blank")?,
        Ok(Unit::Programmed(value)) => println!(rt; "    {name}: {value}")?,
        Ok(Unit::Unreadable) => println!(rt; "    {name}: unreadable")?,
        Err(fault) => println!(rt; "    {name}: refused with {}", fault.number())?,
    }
    Ok(())
}

fn program<F: Flash>(
    rt: &impl Print,
    flash: &mut F,
    unit: usize,
    value: u64,
) -> anyhow::Result<()> {
    print!(rt; "program {value} into unit {unit}: ")?;
    match flash.program(0, unit, value) {
        Ok(()) => println!(rt; "done")?,
        Err(fault) => println!(rt; "refused with {} by the {}", fault.number(), fault.layer())?,
    }
    Ok(())
}

fn show_sides(
    rt: &impl Print,
    mirror: Mirror<Image, Simulator>,
    unit: usize,
) -> anyhow::Result<()> {
    println!(rt; "  unit {unit}")?;
    show(rt, "the mirror", &mirror, unit)?;
    let (image, simulator) = mirror.into_sides();
    show(rt, "the image", &image, unit)?;
    show(rt, "the simulator", &simulator, unit)
}

fn run(rt: &HostRuntime) -> anyhow::Result<()> {
    let mut mirror = Mirror::new(blank_image(rt.alloc())?, short_simulator(rt.alloc())?);
    println!(rt;
        "A mirror: first a byte image, second a simulator that loses its power after two writes."
    )?;
    program(rt, &mut mirror, 0, 7)?;
    println!(rt; "power up")?;
    mirror.power_up();
    for (unit, value) in (7..10).enumerate() {
        program(rt, &mut mirror, unit, value)?;
    }
    show(rt, "the mirror", &mirror, 2)?;
    println!(rt; "power up")?;
    mirror.power_up();
    show_sides(rt, mirror, 2)
}

fn main(rt: HostRuntime) -> anyhow::Result<()> {
    run(&rt)
}
