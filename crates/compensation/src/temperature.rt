// The temperature from the raw value UT.
ghost use Rattle.std.specs.Prelude.{◌≡◌, pos, ◌+ℤ◌, ◌*ℤ◌, ◌≤ℤ◌, ◌<ℤ◌, OnOk, ◌≢◌};
ghost use Rattle.compensation.specs.Formulas.{x1_of, x2_of, t_of, t_from_b5, temperature_at, temperature_of};
ghost use Rattle.compensation.specs.Ranges.{Size};

use crate::calibration::Calibration;
use crate::division::{floor_div, floor_over, scaled};
use crate::readings::{ReadingRefusal, WorkedTemperature, checked_ut};

// Tenths of a degree.
fn t(b5: i64) -> i64
    requires { Size 100000000 b5 }
    ensures value { result ≡ t_of b5 }
    ensures low { (result *ℤ pos 16) ≤ℤ (b5 +ℤ pos 8) }
    ensures high { (b5 +ℤ pos 8) <ℤ (result *ℤ pos 16 +ℤ pos 16) }
{
    floor_over(b5 + 8, 16)
}

// T within its limits, which bounds B5.
fn judged_t(b5: i64) -> Result<i16, ReadingRefusal>
    requires { Size 100000000 b5 }
    ensures value { result ≡ t_from_b5 b5 }
    ensures made { OnOk result (Size 20000 b5) }
{
    let t = t(b5);
    if !(-400..=850).contains(&t) {
        return Err(ReadingRefusal::Temperature);
    }
    // kept: `as`, proved to fit; `try_from` would answer an error that cannot come.
    Ok(t as i16)
}

impl Calibration {
    fn x1(&self, ut: u16) -> i64
        ensures value { result ≡ x1_of (pos ut) self.now.values.ac5 self.now.values.ac6 }
        ensures size { Size 262200 result }
    {
        let k = self.values;
        scaled(i64::from(ut) - k.ac6, k.ac5, 32768)
    }

    fn x2(&self, x1: i64) -> i64
        requires x1_small { Size 262200 x1 }
        requires divisor_nonzero { x1 +ℤ self.now.values.md ≢ pos 0 }
        ensures value { result ≡ x2_of x1 self.now.values.mc self.now.values.md }
        ensures size { Size 67108864 result }
    {
        let k = self.values;
        floor_div(k.mc * 2048, x1 + k.md)
    }

    // The temperature from a UT of 16 bits: what is left to judge once UT is known to be one.
    pub fn temperature_at(&self, ut: u16) -> Result<WorkedTemperature, ReadingRefusal>
        ensures { result ≡ temperature_at self.now.values (pos ut) }
    {
        let k = self.values;
        let x1 = self.x1(ut);
        if x1 + k.md == 0 {
            return Err(ReadingRefusal::Temperature);
        }
        let x2 = self.x2(x1);
        let b5 = x1 + x2;
        let t = judged_t(b5)?;
        Ok(WorkedTemperature {
            x1,
            x2,
            // kept: `as`, proved to fit; `try_from` would answer an error that cannot come.
            b5: b5 as i16,
            t,
        })
    }

    // The temperature from any UT.
    pub fn temperature(&self, ut: i32) -> Result<WorkedTemperature, ReadingRefusal>
        ensures { result ≡ temperature_of self.now.values ut }
    {
        self.temperature_at(checked_ut(ut)?)
    }
}
