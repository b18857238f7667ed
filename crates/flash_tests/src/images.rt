// The byte image on fixed buffers.
ghost use Rattle.std.specs.Prelude.{◌<◌};

use crate::shared::number;
use flash::interface::Flash;
use flash::units::Unit;
use image::{Image, check_image};
use std::alloc::Global;
use std::test::Fail;

// One bank of three units: programmed, blank with bytes left in its value, unreadable. The supply is 5.
pub(crate) fn three_units(charge: u8, power: u8) -> [u8; 44] {
    [
        0x43, 0x46, 0x49, 0, 1, 1, 0, 3, 0, 0, 0, charge, 0, 0, 0, 5, power, // header
        1, 1, 2, 3, 4, 5, 6, 7, 8, // unit 0
        0, 9, 9, 9, 9, 9, 9, 9, 9, // unit 1
        255, 7, 7, 7, 7, 7, 7, 7, 7, // unit 2
    ]
}

pub(crate) fn open(heap: Global, bytes: &[u8]) -> Result<Image, Fail> {
    Ok(Image::open(bytes.to_vec(heap)?).ok().ok_or("image")?)
}

// What the check before opening refuses with, 0 where it accepts.
// kept: a number, as `number` is; not one function with that of the simulator, since the two faults share no trait.
fn refusal(bytes: &[u8]) -> u8 {
    match check_image(bytes) {
        Ok(_) => 0,
        Err(e) => e.number(),
    }
}

#[test]
fn reads_each_state(rt: HostRuntime) -> Result<(), Fail> {
    let mut bytes = three_units(0, 1);
    let image = open(rt.alloc(), &bytes)?;
    assert_eq!(rt; image.banks(), 1);
    assert_eq!(rt; image.units_per_bank(), 3);
    assert_eq!(rt;
        image.read(0, 0).ok(),
        Some(Unit::Programmed(0x01_02_03_04_05_06_07_08))
    );
    assert_eq!(rt; image.read(0, 1).ok(), Some(Unit::Blank));
    assert_eq!(rt; image.read(0, 2).ok(), Some(Unit::Unreadable));
    assert_eq!(rt; number(image.read(0, 3)), 22);
    assert_eq!(rt; number(image.read(1, 0)), 22);
    bytes[17] = 2;
    let image = open(rt.alloc(), &bytes)?;
    assert_eq!(rt; image.read(0, 0).ok(), Some(Unit::Unreadable));
    Ok(())
}

#[test]
fn fault_as_text(rt: HostRuntime) -> Result<(), Fail> {
    let image = open(rt.alloc(), &three_units(0, 1))?;
    let fault = image.read(1, 2).err().ok_or("read")?;
    let shown = format!(in rt.alloc(); "{fault:?}")?;
    assert_eq!(rt;
        shown.as_str(),
        "ImageFault { cause: Cause { why: Missing, bank: 1, unit: Some(2) } }"
    );
    Ok(())
}

#[test]
fn power_byte_two_reads_as_off(rt: HostRuntime) -> Result<(), Fail> {
    let mut image = open(rt.alloc(), &three_units(4, 2))?;
    assert_eq!(rt; number(image.read(0, 0)), 21);
    assert_eq!(rt; number(image.program(0, 1, 6)), 21);
    assert_eq!(rt; number(image.erase(0)), 21);
    assert!(rt; image.into_bytes().as_slice() == three_units(4, 2).as_slice());
    Ok(())
}

#[test]
fn power_up_sets_the_supply(rt: HostRuntime) -> Result<(), Fail> {
    let mut image = open(rt.alloc(), &three_units(4, 0))?;
    image.power_up();
    assert!(rt; image.into_bytes().as_slice() == three_units(5, 1).as_slice());
    Ok(())
}

#[test]
fn program_writes_its_unit(rt: HostRuntime) -> Result<(), Fail> {
    let mut image = open(rt.alloc(), &three_units(2, 1))?;
    assert_eq!(rt; number(image.program(0, 0, 1)), 23);
    assert_eq!(rt; number(image.program(0, 1, 0x0a_0b_0c_0d_0e_0f_10_11)), 0);
    let mut after = three_units(1, 1);
    after[26] = 1;
    after[27..35].copy_from_slice(&[0x0a, 0x0b, 0x0c, 0x0d, 0x0e, 0x0f, 0x10, 0x11]);
    assert!(rt; image.into_bytes().as_slice() == after.as_slice());
    Ok(())
}

#[test]
fn cut_program_writes_the_state(rt: HostRuntime) -> Result<(), Fail> {
    let mut image = open(rt.alloc(), &three_units(0, 1))?;
    assert_eq!(rt; number(image.program(0, 1, 6)), 24);
    let mut after = three_units(0, 0);
    after[26] = 2;
    assert!(rt; image.into_bytes().as_slice() == after.as_slice());
    Ok(())
}

#[test]
fn erase_writes_zeros(rt: HostRuntime) -> Result<(), Fail> {
    let mut image = open(rt.alloc(), &three_units(1, 1))?;
    assert_eq!(rt; number(image.erase(1)), 22);
    assert_eq!(rt; number(image.erase(0)), 0);
    let mut after = three_units(0, 1);
    after[17..44].fill(0);
    assert!(rt; image.into_bytes().as_slice() == after.as_slice());
    Ok(())
}

// Half of three is one.
#[test]
fn cut_erase_reaches_the_lower_half(rt: HostRuntime) -> Result<(), Fail> {
    let mut image = open(rt.alloc(), &three_units(0, 1))?;
    assert_eq!(rt; number(image.erase(0)), 24);
    let mut after = three_units(0, 0);
    after[17..26].fill(0);
    assert!(rt; image.into_bytes().as_slice() == after.as_slice());
    Ok(())
}

// The refusal of the three units with one byte changed.
// kept: a number, as `refusal` gives it.
fn changed(at: usize, to: u8) -> u8
    requires { at < 44 }
{
    let mut bytes = three_units(0, 0);
    bytes[at] = to;
    refusal(&bytes)
}

#[test]
fn refuses_to_open(rt: HostRuntime) -> Result<(), Fail> {
    assert_eq!(rt; refusal(&three_units(0, 0)), 0);
    assert_eq!(rt; refusal(&[0x43, 0x46, 0x49, 0, 1]), 31);
    assert_eq!(rt; changed(2, 0x48), 31);
    assert_eq!(rt; changed(4, 2), 31);
    assert_eq!(rt; changed(5, 0), 32);
    assert_eq!(rt; changed(5, 17), 32);
    assert_eq!(rt; changed(7, 0), 32);
    assert_eq!(rt; changed(6, 16), 32);
    assert_eq!(rt; changed(7, 2), 33);
    let mut bytes = three_units(0, 0).to_vec(rt.alloc())?;
    bytes.push(0)?;
    let e = Image::open(bytes).err().ok_or("opened")?;
    assert_eq!(rt; e.fault.number(), 33);
    assert_eq!(rt; e.bytes.len(), 45);
    Ok(())
}
