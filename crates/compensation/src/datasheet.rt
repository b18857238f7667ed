// The worked example of the chip's datasheet.
ghost use Rattle.std.specs.Prelude.{◌≡◌};
ghost use Rattle.compensation.specs.Figures.{example, example_ut, example_up, CompensationFigures};

use crate::calibration::Calibration;
use crate::coefficients::Coefficients;

// The raw temperature and the raw pressure of the example.
pub const UT: i32 = 27898;

pub const UP: i32 = 23843;

// The example's coefficients. The contract also says which raw values go with them, and what the definitions of the formulas give for the
// example, value by value.
pub fn example_calibration() -> Calibration
    ensures coefficients { result.values ≡ example }
    ensures raw_values { (UT ≡ example_ut) × (UP ≡ example_up) }
    ensures figures { CompensationFigures }
{
    Calibration {
        values: Coefficients {
            ac1: 408,
            ac2: -72,
            ac3: -14383,
            ac4: 32741,
            ac5: 32757,
            ac6: 23153,
            b1: 6190,
            b2: 4,
            mb: -32768,
            mc: -8711,
            md: 2868,
            oss: 0,
            pcor: 0,
        },
    }
}
