// A key with its value, and what a unit of the store says.

use std::fmt;

#[derive(Clone, Copy, PartialEq, Eq, Debug)]
pub struct Pair {
    pub key: u8,
    pub value: i32,
}

// Noise is all that is passed over: a unit that is blank or unreadable, a wrong CRC, another mark, a count that is too great,
// a pair that the catalogue does not admit.
// kept: count and number in both, told by their names; a struct of the two would be made and taken apart at each unit.
#[derive(Clone, Copy, PartialEq, Eq)]
pub enum Meaning {
    Noise,
    Record(Pair),
    Commit { count: u8, number: u32 },
    Header { count: u8, number: u32 },
}

// By hand: `{:?}` prints count and number without their names.
impl fmt::Debug for Meaning {
    fn fmt<W: fmt::Write>(&self, f: &mut fmt::Formatter<W>) -> fmt::Result {
        match self {
            Meaning::Noise => f.write_str("Noise"),
            Meaning::Record(pair) => f.debug_tuple("Record").field(pair).finish(),
            Meaning::Commit { count, number } => {
                f.debug_tuple("Commit").field(count).field(number).finish()
            }
            Meaning::Header { count, number } => {
                f.debug_tuple("Header").field(count).field(number).finish()
            }
        }
    }
}
