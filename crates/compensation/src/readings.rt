// What a reading gives: the values on the way by their names in the chip's datasheet, and the refusals.
ghost use Rattle.std.specs.Prelude.{◌≡◌, Some};
ghost use Rattle.compensation.specs.Formulas.{checked_ut_of};
ghost use Rattle.compensation.specs.Refusals.{refusal_number, refusal_meaning};

use std::error::Error;
use std::fmt;

// A temperature, T in tenths of a degree, with the values that it was worked out by. B5 is what a pressure needs of it.
#[derive(Clone, Copy, PartialEq, Eq, Debug)]
pub struct WorkedTemperature {
    pub x1: i64,
    pub x2: i64,
    pub b5: i16,
    pub t: i16,
}

// What the temperature alone makes of the coefficients: the offset B3 and the gain B4 of a pressure, and the values on the way.
#[derive(Clone, Copy, PartialEq, Eq, Debug)]
pub struct Balance {
    pub b6: i64,
    pub s: i64,
    pub x3: i64,
    pub b3: i64,
    pub y3: i64,
    pub b4: i64,
}

// A pressure, `pa` in Pa, with the values that it was worked out by. `p` is the pressure before its last correction.
#[derive(Clone, Copy, PartialEq, Eq, Debug)]
pub struct WorkedPressure {
    pub balance: Balance,
    pub b7: i64,
    pub p: i64,
    pub pa: i32,
}

// Why a raw value gives no reading.
#[derive(Clone, Copy, PartialEq, Eq, Debug)]
pub enum ReadingRefusal {
    // 12: the raw value is none that the chip can give
    RawValue,
    // 15: no temperature of -40.0 to 85.0 degrees
    Temperature,
    // 16: no pressure of at most 1,000,000 Pa
    Pressure,
}

impl ReadingRefusal {
    // The number by which the refusal is known.
    // kept: a match; as discriminants of the enum a number given twice would not compile, and the edit that gives one twice could show nothing.
    pub fn number(self) -> u8
        ensures { result ≡ refusal_number self }
    {
        match self {
            ReadingRefusal::RawValue => 12,
            ReadingRefusal::Temperature => 15,
            ReadingRefusal::Pressure => 16,
        }
    }

    // What it means, in words.
    pub fn meaning(self) -> &'static str
        ensures { result.now ≡ refusal_meaning self }
    {
        match self {
            ReadingRefusal::RawValue => "the chip gives no such raw value",
            ReadingRefusal::Temperature => "no temperature from -40.0 to 85.0 degrees",
            ReadingRefusal::Pressure => "no pressure up to 1000000 Pa",
        }
    }
}

// A refusal as text is its meaning.
impl fmt::Display for ReadingRefusal {
    ghost output = { λ refusal. Some (refusal_meaning refusal) };

    fn fmt<W: fmt::Write>(&self, f: &mut fmt::Formatter<W>) -> fmt::Result {
        f.write_str(self.meaning())
    }
}

impl Error for ReadingRefusal {}

// UT as the chip's 16 bits. It needs no coefficient, so that a caller may judge it before it gathers them.
pub fn checked_ut(ut: i32) -> Result<u16, ReadingRefusal>
    ensures { result ≡ checked_ut_of ut }
{
    u16::try_from(ut).map_err(|_| ReadingRefusal::RawValue)
}
