// The entries of plans.

// What one power-up sets: the charge, and what a write leaves that is then cut, of a program by its residue, of an erase by its pattern.
// `Default` is what unused places of a plan hold.
#[derive(Clone, Copy, PartialEq, Eq, Debug, Default)]
pub struct PlanEntry {
    pub charge: u32,
    // kept: a number, as every number of 8 bits is a residue.
    pub residue: u8,
    pub pattern: u64,
}
