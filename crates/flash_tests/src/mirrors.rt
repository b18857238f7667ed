// The mirror, alone and stacked.
use crate::images::{open, three_units};
use crate::shared::{entry, number, small};
use flash::faults::FlashFault;
use flash::interface::Flash;
use flash::planned::Planned;
use flash::units::Unit;
use mirror::Mirror;
use simulator::Simulator;
use std::alloc::Global;
use std::test::Fail;

// A simulator that is on, with a value in unit (0, 0) or nothing.
fn held(heap: Global, value: Option<u64>) -> Result<Simulator, Fail> {
    let mut s = small(heap)?;
    s.power_up();
    if let Some(v) = value {
        s.program(0, 0, v).ok().ok_or("program")?;
    }
    Ok(s)
}

#[test]
fn mirror_of_blank_and_value(rt: HostRuntime) -> Result<(), Fail> {
    let a = held(rt.alloc(), None)?;
    let b = held(rt.alloc(), Some(7))?;
    let m = Mirror::new(a, b);
    assert_eq!(rt; m.read(0, 0).ok(), Some(Unit::Unreadable));
    assert_eq!(rt; m.read(0, 1).ok(), Some(Unit::Blank));
    let (a, b) = m.into_sides();
    let m = Mirror::new(b, a);
    assert_eq!(rt; m.read(0, 0).ok(), Some(Unit::Programmed(7)));
    Ok(())
}

#[test]
fn mirror_writes_first_side_first(rt: HostRuntime) -> Result<(), Fail> {
    let mut a = small(rt.alloc())?;
    let mut b = small(rt.alloc())?;
    // One power-up takes one entry of each side: the first side's second entry would complete no write.
    assert_eq!(rt; a.add_entry(entry(1, 2, 0)), Some(1));
    assert_eq!(rt; a.add_entry(entry(0, 2, 0)), Some(2));
    assert_eq!(rt; b.add_entry(entry(0, 0, 0)), Some(1));
    let mut m = Mirror::new(a, b);
    m.power_up();
    let e = m.program(1, 2, 8).err().ok_or("programmed")?;
    assert_eq!(rt; e.number(), 24);
    assert_eq!(rt; e.layer(), "mirror");
    assert_eq!(rt; e.place(), (1, Some(2)));
    let (mut a, mut b) = m.into_sides();
    assert_eq!(rt; a.read(1, 2).ok(), Some(Unit::Programmed(8)));
    a.power_up();
    assert_eq!(rt; number(a.program(0, 0, 1)), 24);
    assert_eq!(rt; number(b.read(1, 2)), 21);
    b.power_up();
    assert_eq!(rt; b.read(1, 2).ok(), Some(Unit::Blank));
    Ok(())
}

// A mirror that is on powers up both of its sides all the same, once each: 1, then 2 writes.
#[test]
fn mirror_that_is_on_powers_up(rt: HostRuntime) -> Result<(), Fail> {
    let mut a = small(rt.alloc())?;
    let mut b = small(rt.alloc())?;
    for charge in [1, 2, 3] {
        assert!(rt; a.add_entry(entry(charge, 2, 0)).is_some());
        assert!(rt; b.add_entry(entry(charge, 2, 0)).is_some());
    }
    let mut m = Mirror::new(a, b);
    m.power_up();
    assert_eq!(rt; number(m.program(0, 0, 5)), 0);
    m.power_up();
    assert_eq!(rt; number(m.program(0, 1, 6)), 0);
    assert_eq!(rt; number(m.program(0, 2, 7)), 0);
    assert_eq!(rt; number(m.program(0, 3, 8)), 24);
    Ok(())
}

#[test]
fn mirror_of_mirrors(rt: HostRuntime) -> Result<(), Fail> {
    let a = small(rt.alloc())?;
    let b = small(rt.alloc())?;
    let mut c = small(rt.alloc())?;
    assert_eq!(rt; c.add_entry(entry(1, 2, 0)), Some(1));
    let mut m = Mirror::new(a, Mirror::new(b, c));
    m.power_up();
    assert_eq!(rt; number(m.program(0, 0, 7)), 0);
    assert_eq!(rt; number(m.program(0, 0, 7)), 23);
    assert_eq!(rt; number(m.program(0, 1, 8)), 24);
    assert_eq!(rt; number(m.read(0, 1)), 21);
    m.power_up();
    assert_eq!(rt; m.read(0, 1).ok(), Some(Unit::Programmed(8)));
    assert_eq!(rt; number(m.erase(0)), 0);
    assert_eq!(rt; m.read(0, 0).ok(), Some(Unit::Blank));
    Ok(())
}

// Sides of other shapes: the mirror has the smaller numbers.
#[test]
fn mirror_of_simulator_and_image(rt: HostRuntime) -> Result<(), Fail> {
    let simulator = small(rt.alloc())?;
    let image = open(rt.alloc(), &three_units(0, 0))?;
    let mut m = Mirror::new(simulator, image);
    m.power_up();
    assert_eq!(rt; m.banks(), 1);
    assert_eq!(rt; m.units_per_bank(), 3);
    // Blank beside a value, both blank, blank beside unreadable.
    assert_eq!(rt; m.read(0, 0).ok(), Some(Unit::Unreadable));
    assert_eq!(rt; m.read(0, 1).ok(), Some(Unit::Blank));
    assert_eq!(rt; m.read(0, 2).ok(), Some(Unit::Unreadable));
    assert_eq!(rt; number(m.program(0, 1, 9)), 0);
    assert_eq!(rt; number(m.erase(0)), 0);
    assert_eq!(rt; m.read(0, 1).ok(), Some(Unit::Blank));
    assert_eq!(rt; number(m.read(1, 0)), 22);
    Ok(())
}
