// A set of coefficients that the formulas take.
ghost use Rattle.std.specs.Prelude.{◌≡◌, true, false, MatchOption};
ghost use Rattle.compensation.specs.Admitted.{admitted_set, signed_word, unsigned_word, oversampling, correction};

use crate::coefficients::Coefficients;

// Coefficients each of which is in its range: the only way to a reading leads through such a set.
#[derive(Clone, Copy, PartialEq, Eq, Debug)]
pub struct Calibration {
    pub(crate) values: Coefficients,
    ghost admitted: { admitted_set values ≡ true },
}

// kept: four tests of a range, since each has a definition of its own and only the first has a gap; the catalogue of `layout` has the same
// ranges, and neither crate depends on the other.
fn is_signed_word(z: i64) -> bool
    ensures { result ≡ signed_word z }
{
    (-32768..=32767).contains(&z) && !(-1..=0).contains(&z)
}

fn is_unsigned_word(z: i64) -> bool
    ensures { result ≡ unsigned_word z }
{
    (1..=65534).contains(&z)
}

fn is_oversampling(z: i64) -> bool
    ensures { result ≡ oversampling z }
{
    (0..=3).contains(&z)
}

fn is_correction(z: i64) -> bool
    ensures { result ≡ correction z }
{
    (-500..=500).contains(&z)
}

// Whether every coefficient is in its range.
fn are_admitted(k: &Coefficients) -> bool
    ensures { result ≡ admitted_set k.now }
{
    // kept: `&`, which joins thirteen values; with `&&` the proof does not close alone, and a case for each of twelve branches is no plainer.
    is_signed_word(k.ac1)
        & is_signed_word(k.ac2)
        & is_signed_word(k.ac3)
        & is_unsigned_word(k.ac4)
        & is_unsigned_word(k.ac5)
        & is_unsigned_word(k.ac6)
        & is_signed_word(k.b1)
        & is_signed_word(k.b2)
        & is_signed_word(k.mb)
        & is_signed_word(k.mc)
        & is_signed_word(k.md)
        & is_oversampling(k.oss)
        & is_correction(k.pcor)
}

impl Calibration {
    // The set of these values, or none where one of them is outside its range.
    pub fn new(values: Coefficients) -> Option<Calibration>
        ensures { MatchOption result (admitted_set values ≡ false) (λ k. (admitted_set values ≡ true) × (k.values ≡ values)) }
    {
        // kept: an `if`; with `then` and a closure the invariant of what it makes stays open, unless the closure has a contract.
        if are_admitted(&values) {
            Some(Calibration { values })
        } else {
            None
        }
    }

    pub fn values(&self) -> Coefficients
        ensures { result ≡ self.now.values }
    {
        self.values
    }
}
