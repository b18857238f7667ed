// The calibration that a list of pairs gives.
ghost use Rattle.std.specs.Prelude.{◌≡◌, Some, None, MatchResult};
ghost use Rattle.layout.specs.Held.{pairs_of};
ghost use Rattle.layout.specs.PairLists.{value_of};
ghost use Rattle.readings.specs.Gathered.{or_zero, lowest_absent, coefficients_of};

use compensation::calibration::Calibration;
use compensation::coefficients::Coefficients;
use layout::pairs::Pairs;

// The lowest of the keys 1 to 11 that a list of pairs lacks.
#[derive(Clone, Copy, PartialEq, Eq, Debug)]
pub struct Absent {
    pub key: u8,
}

// The lowest of the keys 1 to 11, AC1 to MD, that has no value.
fn lowest_absent(pairs: &Pairs) -> Option<u8>
    ensures { result ≡ lowest_absent (pairs_of pairs.now) }
{
    (1..12).find(|&key| pairs.value(key).is_none())
}

fn value_or_zero(pairs: &Pairs, key: u8) -> i64
    ensures { result ≡ or_zero (value_of (pairs_of pairs.now) key) }
{
    i64::from(pairs.value(key).unwrap_or(0))
}

// The values by their keys. Only OSS and PCOR may be absent from a calibration; 0 is what they are then.
#[tactic(auto, unfolding(crate::specs::Gathered::coefficients_of))]
fn coefficients_of(pairs: &Pairs) -> Coefficients
    ensures { result ≡ coefficients_of (pairs_of pairs.now) }
{
    Coefficients {
        ac1: value_or_zero(pairs, 1),
        ac2: value_or_zero(pairs, 2),
        ac3: value_or_zero(pairs, 3),
        ac4: value_or_zero(pairs, 4),
        ac5: value_or_zero(pairs, 5),
        ac6: value_or_zero(pairs, 6),
        b1: value_or_zero(pairs, 7),
        b2: value_or_zero(pairs, 8),
        mb: value_or_zero(pairs, 9),
        mc: value_or_zero(pairs, 10),
        md: value_or_zero(pairs, 11),
        oss: value_or_zero(pairs, 12),
        pcor: value_or_zero(pairs, 13),
    }
}

// The calibration that a list of pairs gives, or which key it lacks.
pub fn gathered(pairs: &Pairs) -> Result<Calibration, Absent>
    ensures { MatchResult result (λ c. (lowest_absent (pairs_of pairs.now) ≡ None) × (c.values ≡ coefficients_of (pairs_of pairs.now))) (λ absent. lowest_absent (pairs_of pairs.now) ≡ Some absent.key) }
{
    if let Some(key) = lowest_absent(pairs) {
        return Err(Absent { key });
    }
    // a list of pairs holds admitted values only, so they make a calibration
    Ok(Calibration::new(coefficients_of(pairs)).unwrap())
}
