// What the tests share.
use flash::faults::FlashFault;
use flash::plans::PlanEntry;
use flash::units::Unit;
use simulator::Simulator;
use std::alloc::Global;
use std::test::Fail;

// 2 banks of 4 units, on a table that was not blank.
pub(crate) fn small(heap: Global) -> Result<Simulator, Fail> {
    let table = vec![in heap; Unit::Unreadable; 8]?;
    Ok(Simulator::new(2, 4, table).ok().ok_or("shape")?)
}

pub(crate) fn entry(charge: u32, residue: u8, pattern: u64) -> PlanEntry {
    PlanEntry {
        charge,
        residue,
        pattern,
    }
}

// The number that a call was refused with, 0 where it was accepted.
// kept: a number and not an option, so that a test compares each answer with one value.
pub(crate) fn number<T: Drop, E: FlashFault + Drop>(answer: Result<T, E>) -> u8 {
    match answer {
        Ok(_) => 0,
        Err(e) => e.number(),
    }
}
