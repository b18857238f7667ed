// The simulator: making, its plan, and what its cuts leave.
use crate::shared::{entry, number, small};
use flash::faults::FlashFault;
use flash::interface::Flash;
use flash::planned::Planned;
use flash::units::Unit;
use simulator::{Simulator, check_shape};
use std::test::Fail;

#[test]
fn makes_blank_and_off(rt: HostRuntime) -> Result<(), Fail> {
    let mut s = small(rt.alloc())?;
    assert_eq!(rt; number(s.read(0, 0)), 21);
    s.power_up();
    assert_eq!(rt; s.read(1, 3).ok(), Some(Unit::Blank));
    assert_eq!(rt; number(s.read(1, 4)), 22);
    assert_eq!(rt; number(s.erase(2)), 22);
    Ok(())
}

#[test]
fn fault_as_text(rt: HostRuntime) -> Result<(), Fail> {
    let fault = small(rt.alloc())?.read(0, 1).err().ok_or("read")?;
    let shown = format!(in rt.alloc(); "{fault:?}")?;
    assert_eq!(rt;
        shown.as_str(),
        "SimulatorFault { cause: Cause { why: Off, bank: 0, unit: Some(1) } }"
    );
    Ok(())
}

// What the check before making refuses with, 0 where it accepts.
// kept: a number, as `number` is; not one function with that of the image, since the two faults share no trait.
fn refusal(banks: usize, width: usize, size: usize) -> u8 {
    match check_shape(banks, width, size) {
        Ok(_) => 0,
        Err(e) => e.number(),
    }
}

#[test]
fn refuses_shapes(rt: HostRuntime) -> Result<(), Fail> {
    assert_eq!(rt; refusal(17, 1, 17), 32);
    assert_eq!(rt; refusal(2, 0, 0), 32);
    assert_eq!(rt; refusal(16, 257, 4112), 32);
    assert_eq!(rt; refusal(16, 256, 4096), 0);
    let table = vec![in rt.alloc(); Unit::Unreadable; 7]?;
    let e = Simulator::new(2, 4, table).err().ok_or("made")?;
    assert_eq!(rt; e.fault.number(), 33);
    assert_eq!(rt; e.table.len(), 7);
    Ok(())
}

#[test]
fn takes_entries_in_order(rt: HostRuntime) -> Result<(), Fail> {
    let mut s = small(rt.alloc())?;
    assert_eq!(rt; s.add_entry(entry(0, 0, 0)), Some(1));
    assert_eq!(rt; s.add_entry(entry(0, 1, 0)), Some(2));
    s.power_up();
    assert_eq!(rt; number(s.program(0, 0, 5)), 24);
    s.power_up();
    assert_eq!(rt; s.read(0, 0).ok(), Some(Unit::Blank));
    assert_eq!(rt; number(s.program(0, 0, 5)), 24);
    s.power_up();
    assert_eq!(rt; s.read(0, 0).ok(), Some(Unit::Programmed(5)));
    assert_eq!(rt; number(s.program(0, 0, 6)), 23);
    // An entry planned after the last power-up is the next one taken.
    assert_eq!(rt; s.add_entry(entry(0, 9, 0)), Some(3));
    s.power_up();
    assert_eq!(rt; number(s.program(0, 1, 6)), 24);
    s.power_up();
    assert_eq!(rt; s.read(0, 1).ok(), Some(Unit::Unreadable));
    Ok(())
}

#[test]
fn plan_has_sixteen_places(rt: HostRuntime) -> Result<(), Fail> {
    let mut s = small(rt.alloc())?;
    // kept: a range: n entries were added before.
    for n in 0..16usize {
        s.power_up();
        assert_eq!(rt; s.add_entry(entry(1, 0, 0)), Some(n + 1));
    }
    assert_eq!(rt; s.add_entry(entry(1, 0, 0)), None);
    Ok(())
}

#[test]
fn cut_erase_goes_by_pattern(rt: HostRuntime) -> Result<(), Fail> {
    let mut s = small(rt.alloc())?;
    // Units 0 to 3 by 0, 1, 2 and 3.
    assert_eq!(rt; s.add_entry(entry(4, 0, 0b11_10_01_00)), Some(1));
    s.power_up();
    // kept: a range: the flash is asked unit by unit.
    for u in 0..4usize {
        assert_eq!(rt; number(s.program(1, u, 7)), 0);
    }
    let e = s.erase(1).err().ok_or("erased")?;
    assert_eq!(rt; e.number(), 24);
    assert_eq!(rt; e.layer(), "simulator");
    assert_eq!(rt; e.place(), (1, None));
    s.power_up();
    assert_eq!(rt; s.read(1, 0).ok(), Some(Unit::Programmed(7)));
    assert_eq!(rt; s.read(1, 1).ok(), Some(Unit::Blank));
    assert_eq!(rt; s.read(1, 2).ok(), Some(Unit::Unreadable));
    assert_eq!(rt; s.read(1, 3).ok(), Some(Unit::Unreadable));
    Ok(())
}
