// How readings are printed.
ghost use Rattle.compensation.specs.Division.{floor_div, DivisionLaw};
ghost use Rattle.compensation.specs.Texts.{tenths_text};
ghost use Rattle.std.specs.Prelude.{◌≡◌, pos, Some};

use crate::division::floor_over;
use std::fmt;

// A number of tenths, printed with one decimal.
#[derive(Clone, Copy, PartialEq, Eq, Debug)]
pub struct Tenths(pub i32);

impl fmt::Display for Tenths {
    ghost output = { λ x. Some (tenths_text x.0) };

    fn fmt<W: fmt::Write>(&self, f: &mut fmt::Formatter<W>) -> fmt::Result {
        let size = self.0.unsigned_abs();
        let whole = size / 10;
        let rest = size % 10;
        if self.0 < 0 {
            write!(f, "-{whole}.{rest}")
        } else {
            write!(f, "{whole}.{rest}")
        }
    }
}

// T, tenths of a degree, as it is printed.
pub fn degrees(t: i16) -> Tenths
    ensures { result.0 ≡ t }
{
    Tenths(i32::from(t))
}

// P, in Pa, as it is printed: tenths of a hectopascal, the rest cut off downward by the law of ÷.
pub fn hectopascals(pa: i32) -> Tenths
    ensures value { result.0 ≡ floor_div pa (pos 10) }
    ensures division { DivisionLaw }
{
    // kept: `as`, proved to fit; `try_from` would answer an error that cannot come.
    Tenths(floor_over(i64::from(pa), 10) as i32)
}
