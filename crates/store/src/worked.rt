// Readings from what stands: its pairs and its number.
ghost use Rattle.std.specs.Prelude.{◌≡◌};
ghost use Rattle.layout.specs.Held.{pairs_of};
ghost use Rattle.store.specs.Readings.{temperature_answer, pressure_answer};

use crate::refusals::Refusal;
use crate::steps::{Line, StepNumbers};
use compensation::readings::checked_ut;
use journal::standing::Standing;
use readings::gathered::gathered;

// The step of the temperature from UT. UT is judged before an absent key.
pub(crate) fn step_from_ut(standing: &Standing, ut: i32) -> Result<StepNumbers, Refusal>
    ensures { result ≡ temperature_answer (pairs_of standing.now.pairs) standing.now.number ut }
{
    let raw = checked_ut(ut)?;
    let worked = gathered(&standing.pairs)?.temperature_at(raw)?;
    Ok(StepNumbers {
        b5: worked.b5,
        t: worked.t,
        number: standing.number,
    })
}

// The line of a step and UP. An absent key is judged before the step's number, and that before UP.
pub(crate) fn line(standing: &Standing, step: StepNumbers, up: i32) -> Result<Line, Refusal>
    ensures { result ≡ pressure_answer (pairs_of standing.now.pairs) standing.now.number step up }
{
    let calibration = gathered(&standing.pairs)?;
    if step.number != standing.number {
        return Err(Refusal::OldStep);
    }
    let worked = calibration.pressure(step.b5, up)?;
    Ok(Line {
        t: step.t,
        p: worked.pa,
    })
}
