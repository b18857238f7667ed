// What the units of a store stand for: the active bank, the pairs, the number, and the place after the last unit in use.
use layout::pairs::Pairs;

#[derive(Clone, Copy)]
pub struct Standing {
    pub bank: usize,
    pub pairs: Pairs,
    pub number: u32,
    pub end: usize,
}
