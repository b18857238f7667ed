// The numbers by which one chip is calibrated, as plain values.

// AC1 to MD by their names in the chip's datasheet; OSS, the oversampling setting (2^OSS samples for each pressure);
// PCOR, a correction in Pa that is added to every pressure. OSS and PCOR are 0 where a chip has none of its own.
// 64 bits, so that the formulas take them as they are.
#[derive(Clone, Copy, PartialEq, Eq, Debug)]
pub struct Coefficients {
    pub ac1: i64,
    pub ac2: i64,
    pub ac3: i64,
    pub ac4: i64,
    pub ac5: i64,
    pub ac6: i64,
    pub b1: i64,
    pub b2: i64,
    pub mb: i64,
    pub mc: i64,
    pub md: i64,
    pub oss: i64,
    pub pcor: i64,
}
