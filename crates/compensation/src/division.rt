// Division rounded down, and products. Besides its value each result has a bound, from any bounds of the arguments.
ghost use Rattle.std.specs.Prelude.{◌≡◌, ℕ, ◌+◌, ◌-◌, ◌*◌, ◌/◌, ◌^◌, pos, negsuc, ◌+ℤ◌, ◌*ℤ◌, ◌≤ℤ◌, ◌<ℤ◌, ◌≢◌, unsigned_abs};
ghost use Rattle.std.specs.Int.{int_div_euclid};
ghost use Rattle.compensation.specs.Division.{floor_div};
ghost use Rattle.compensation.specs.Ranges.{Size};

// Rust's Euclidean division: for a divisor above 0 it rounds down.
// kept: a function, and `pos 0 <ℤ d` in three contracts: in a function of its own a quotient cut towards zero fails by this contract, and
// a type for divisors above 0 would wrap a number at each of the calls, most of them literals.
fn euclidean(n: i64, d: i64) -> i64
    requires { pos 0 <ℤ d }
    ensures { result ≡ int_div_euclid n d }
{
    n.div_euclid(d)
}

// The greatest whole number not above the exact quotient n / d, for a divisor above 0.
pub(crate) fn floor_over(n: i64, d: i64) -> i64
    requires { pos 0 <ℤ d }
    ensures value { result ≡ floor_div n d }
    ensures bound { (m : ℕ) → Size m n → Size (m / unsigned_abs d + 1) result }
    ensures low { (result *ℤ d) ≤ℤ n }
    ensures high { n <ℤ (result *ℤ d +ℤ d) }
{
    euclidean(n, d)
}

// The same for a divisor of either sign: n / d is (-n) / (-d).
pub(crate) fn floor_div(n: i64, d: i64) -> i64
    requires d_nonzero { d ≢ pos 0 }
    requires n_not_least { negsuc (2 ^ 63 - 1) <ℤ n }
    requires d_not_least { negsuc (2 ^ 63 - 1) <ℤ d }
    ensures value { result ≡ floor_div n d }
    ensures bound { (m : ℕ) → Size m n → Size m result }
    ensures sign { pos 0 ≤ℤ n → pos 0 <ℤ d → pos 0 ≤ℤ result }
{
    if d > 0 {
        floor_over(n, d)
    } else {
        floor_over(-n, -d)
    }
}

// The product of two numbers of at most 30 bits.
pub(crate) fn times(a: i64, b: i64) -> i64
    requires a_small { Size (2 ^ 30) a }
    requires b_small { Size (2 ^ 30) b }
    ensures value { result ≡ a *ℤ b }
    ensures size { Size (2 ^ 60) result }
    ensures bound { (m k : ℕ) → Size m a → Size k b → Size (m * k) result }
    ensures sign { pos 0 ≤ℤ a → pos 0 ≤ℤ b → pos 0 ≤ℤ result }
{
    a * b
}

// a·b ÷ d for a divisor above 0.
pub(crate) fn scaled(a: i64, b: i64, d: i64) -> i64
    requires a_small { Size (2 ^ 30) a }
    requires b_small { Size (2 ^ 30) b }
    requires d_positive { pos 0 <ℤ d }
    ensures value { result ≡ floor_div (a *ℤ b) d }
    ensures size { Size (2 ^ 60) result }
    ensures bound { (m k : ℕ) → Size m a → Size k b → Size (m * k / unsigned_abs d + 1) result }
{
    floor_over(times(a, b), d)
}
