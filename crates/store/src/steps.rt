// What a temperature leaves for a pressure.
ghost use Rattle.std.specs.Prelude.{◌≡◌};

// B5, the temperature T in tenths of a degree, and the store's number when it was taken.
#[derive(Clone, Copy, PartialEq, Eq, Debug)]
pub struct StepNumbers {
    pub b5: i16,
    pub t: i16,
    pub number: u32,
}

// A temperature step: one temperature for one pressure. It cannot be copied, and a pressure takes it.
#[derive(Drop)]
pub struct Step {
    pub(crate) numbers: StepNumbers,
}

// A line of the instrument: T in tenths of a degree and P in Pa.
#[derive(Clone, Copy, PartialEq, Eq, Debug)]
pub struct Line {
    pub t: i16,
    pub p: i32,
}

impl Step {
    pub fn numbers(&self) -> StepNumbers
        ensures { result ≡ self.now.numbers }
    {
        self.numbers
    }
}
