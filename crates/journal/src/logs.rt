// What a walk over a bank keeps.
ghost use Rattle.std.specs.Prelude.{◌≡◌};

use layout::pairs::Pairs;

// The number and the pairs so far, and how many valid records stand directly before the next unit.
#[derive(Clone, Copy)]
pub struct Log {
    pub number: u32,
    pub pairs: Pairs,
    pub run: usize,
}

// Where a walk begins: what a lawful header gives, and the unit after its records.
#[derive(Clone, Copy)]
pub struct Start {
    pub log: Log,
    pub next: usize,

    // No commit can count the header's own records.
    ghost fresh: { log.run ≡ 0 },
}
