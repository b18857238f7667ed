// The pressure from the raw value UP and a temperature's B5.
ghost use Rattle.std.specs.Prelude.{◌≡◌, pos, ◌-ℤ◌, ◌*ℤ◌, ◌≤ℤ◌, ◌<ℤ◌};
ghost use Rattle.compensation.specs.Division.{floor_div};
ghost use Rattle.compensation.specs.Formulas.{samples_of, s_of, x3_of, b3_of, y3_of, b4_of, p_of, last_correction_of, pa_of, balance_of, up_limit_of, pressure_from_b7, pressure_from_balance, pressure_of};
ghost use Rattle.compensation.specs.Ranges.{Between, Size};

use crate::calibration::Calibration;
use crate::division::{floor_div, floor_over, scaled, times};
use crate::readings::{Balance, ReadingRefusal, WorkedPressure};

// B6, how far B5 is from 4000 (25.0 degrees), and S, which its square gives.
#[derive(Clone, Copy)]
struct Deviation {
    b6: i64,
    s: i64,
    ghost b6_small: { Size 36768 b6 },
    ghost s_small: { Size 340000 s },
    ghost s_value: { s ≡ s_of b6 },
}

impl Deviation {
    fn of(b5: i16) -> Deviation
        ensures { result.b6 ≡ b5 -ℤ pos 4000 }
    {
        let b6 = i64::from(b5) - 4000;
        Deviation {
            b6,
            s: scaled(b6, b6, 4096),
        }
    }
}

// A balance with a gain above 0, and the B7 of a UP that is not below its B3.
#[derive(Clone, Copy)]
struct Balanced {
    balance: Balance,
    b7: i64,
    ghost gain: { pos 0 <ℤ balance.b4 },
    ghost b7_within: { Between (pos 0) (pos 1000000000000) b7 },
}

impl Balanced {
    fn p(self) -> i64
        ensures value { result ≡ p_of self.b7 self.balance.b4 }
        ensures range { pos 0 ≤ℤ result }
    {
        let b4 = self.balance.b4;
        if self.b7 < 2147483648 {
            floor_div(self.b7 * 2, b4)
        } else {
            floor_div(self.b7, b4) * 2
        }
    }

    // p within its limit, and P.
    fn worked(self, k: &Calibration) -> Result<WorkedPressure, ReadingRefusal>
        ensures { result ≡ pressure_from_b7 self.balance self.b7 k.now.values.pcor }
    {
        let p = self.p();
        if p > 1000000 {
            return Err(ReadingRefusal::Pressure);
        }
        Ok(WorkedPressure {
            balance: self.balance,
            b7: self.b7,
            p,
            // kept: `as`, proved to fit; `try_from` would answer an error that cannot come.
            pa: k.pa(p) as i32,
        })
    }
}

// 2^OSS.
fn samples(oss: i64) -> i64
    requires { Between (pos 0) (pos 3) oss }
    ensures value { result ≡ samples_of oss }
    ensures range { Between (pos 1) (pos 8) result }
{
    1 << oss
}

fn last_correction(p: i64, q: i64) -> i64
    requires p_within { Between (pos 0) (pos 1000000) p }
    requires q_within { Between (pos 0) (pos 4000) q }
    ensures value { result ≡ last_correction_of p q }
    ensures size { Size 100000 result }
{
    floor_over(
        scaled(times(q, q), 3038, 65536) + scaled(-7357, p, 65536) + 3791,
        16,
    )
}

impl Calibration {
    // The first UP that is too large.
    fn up_limit(&self) -> i64
        ensures value { result ≡ up_limit_of self.now.values.oss }
        ensures range { Between (pos 0) (pos 524288) result }
    {
        65536 * samples(self.values.oss)
    }

    fn x3(&self, deviation: Deviation) -> i64
        ensures value { result ≡ x3_of self.now.values.b2 self.now.values.ac2 deviation.b6 deviation.s }
        ensures size { Size 6100000 result }
    {
        let k = self.values;
        scaled(k.b2, deviation.s, 2048) + scaled(k.ac2, deviation.b6, 2048)
    }

    fn b3(&self, x3: i64) -> i64
        requires { Size 6100000 x3 }
        ensures value { result ≡ b3_of self.now.values.ac1 x3 (samples_of self.now.values.oss) }
        ensures size { Size 13000000 result }
    {
        let k = self.values;
        floor_over(times(k.ac1 * 4 + x3, samples(k.oss)) + 2, 4)
    }

    fn y3(&self, deviation: Deviation) -> i64
        ensures value { result ≡ y3_of self.now.values.ac3 self.now.values.b1 deviation.b6 deviation.s }
        ensures size { Size 90000 result }
    {
        let k = self.values;
        floor_over(
            scaled(k.ac3, deviation.b6, 8192) + scaled(k.b1, deviation.s, 65536) + 2,
            4,
        )
    }

    fn b4(&self, y3: i64) -> i64
        requires { Size 90000 y3 }
        ensures value { result ≡ b4_of self.now.values.ac4 y3 }
        ensures size { Size 300000 result }
    {
        scaled(self.values.ac4, y3 + 32768, 32768)
    }

    fn balance(&self, deviation: Deviation) -> Balance
        ensures value { result ≡ balance_of self.now.values deviation.b6 }
        ensures b3 { Size 13000000 result.b3 }
    {
        let x3 = self.x3(deviation);
        let y3 = self.y3(deviation);
        Balance {
            b6: deviation.b6,
            s: deviation.s,
            x3,
            b3: self.b3(x3),
            y3,
            b4: self.b4(y3),
        }
    }

    // B7 from how far UP is above B3.
    fn b7(&self, above: i64) -> i64
        requires { Between (pos 0) (pos 13600000) above }
        ensures value { result ≡ above *ℤ floor_div (pos 50000) (samples_of self.now.values.oss) }
        ensures range { Between (pos 0) (pos 1000000000000) result }
    {
        times(above, floor_div(50000, samples(self.values.oss)))
    }

    // P in Pa.
    fn pa(&self, p: i64) -> i64
        requires { Between (pos 0) (pos 1000000) p }
        ensures value { result ≡ pa_of p self.now.values.pcor }
        ensures size { Size 1200000 result }
    {
        p + last_correction(p, floor_over(p, 256)) + self.values.pcor
    }

    // What is left to judge once UP is known to have 16 + OSS bits.
    fn judged_up(&self, deviation: Deviation, up: i64) -> Result<WorkedPressure, ReadingRefusal>
        requires { Between (pos 0) (pos 524288) up }
        ensures { result ≡ pressure_from_balance self.now.values (balance_of self.now.values deviation.b6) up }
    {
        let balance = self.balance(deviation);
        if up < balance.b3 || balance.b4 <= 0 {
            return Err(ReadingRefusal::Pressure);
        }
        let b7 = self.b7(up - balance.b3);
        Balanced { balance, b7 }.worked(self)
    }

    // The pressure from the B5 of a temperature and any UP.
    pub fn pressure(&self, b5: i16, up: i32) -> Result<WorkedPressure, ReadingRefusal>
        ensures { result ≡ pressure_of self.now.values b5 up }
    {
        let up = i64::from(up);
        if !(0..self.up_limit()).contains(&up) {
            return Err(ReadingRefusal::RawValue);
        }
        self.judged_up(Deviation::of(b5), up)
    }
}
