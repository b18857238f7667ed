// What no table of readings reaches: a gain below 0, and the printed figures.
use crate::calibration::Calibration;
use crate::coefficients::Coefficients;
use crate::datasheet::example_calibration;
use crate::readings::ReadingRefusal;
use crate::text::{Tenths, hectopascals};
use std::test::Fail;

// At a B5 that no temperature gives, Y3 can be so far below 0 that B4 is, too: -45218 here.
#[test]
fn negative_gain_is_refused(rt: HostRuntime) -> Result<(), Fail> {
    let values = Coefficients {
        ac3: 32767,
        b1: -32768,
        ..example_calibration().values()
    };
    let k = Calibration::new(values).ok_or_else(|| Fail::new("not admitted"))?;
    assert_eq!(rt; k.pressure(-32768, 23843), Err(ReadingRefusal::Pressure));
    Ok(())
}

#[test]
fn tenths_have_one_decimal(rt: HostRuntime) -> Result<(), Fail> {
    let cases = [
        (0, "0.0"),
        (9, "0.9"),
        (150, "15.0"),
        (-5, "-0.5"),
        (-27, "-2.7"),
        (-400, "-40.0"),
    ];
    for (tenths, text) in cases {
        let shown = format!(in rt.alloc(); "{}", Tenths(tenths))?;
        assert_eq!(rt; shown.as_str(), text);
    }
    Ok(())
}

// Pa are cut downward to tenths of a hectopascal: -264 Pa are -2.7 hPa.
#[test]
fn hectopascals_are_cut_downward(rt: HostRuntime) {
    let cases = [(69964, 6996), (69969, 6996), (9, 0), (-1, -1), (-264, -27)];
    for (pa, tenths) in cases {
        assert_eq!(rt; hectopascals(pa).0, tenths);
    }
}
