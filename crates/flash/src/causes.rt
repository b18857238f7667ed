// Why a flash refused a call, and where: what the fault of a layer with nothing below it holds.
ghost use Rattle.std.specs.Prelude.{◌≡◌};
ghost use Rattle.flash.specs.Causes.{cause_number, cause_place, cause_of};

use crate::faults::Place;

#[derive(Clone, Copy, PartialEq, Eq, Debug)]
pub enum Why {
    Off,
    Missing,
    NotBlank,
    Cut,
}

// kept: bank and unit by their names: the fields are public, and the definitions of a cause name them.
#[derive(Clone, Copy, PartialEq, Eq, Debug)]
pub struct Cause {
    pub why: Why,
    pub bank: usize,
    pub unit: Option<usize>,
}

impl Cause {
    pub fn new(why: Why, bank: usize, unit: Option<usize>) -> Cause
        ensures { result ≡ cause_of why bank unit }
    {
        Cause { why, bank, unit }
    }

    // kept: a match; as discriminants of the enum a number given twice would not compile, and the edit that gives one twice could show nothing.
    pub fn number(&self) -> u8
        ensures { result ≡ cause_number self.now }
    {
        match self.why {
            Why::Off => 21,
            Why::Missing => 22,
            Why::NotBlank => 23,
            Why::Cut => 24,
        }
    }

    pub fn place(&self) -> Place
        ensures { result ≡ cause_place self.now }
    {
        (self.bank, self.unit)
    }
}
