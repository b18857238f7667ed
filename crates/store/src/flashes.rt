// What the store does with its flash: power it up and read it, format it, write a change.
ghost use Rattle.std.specs.Prelude.{◌≡◌, ◌+◌};
ghost use Rattle.std.specs.Option.{option_map};
ghost use Rattle.flash.specs.Seen.{seen};
ghost use Rattle.layout.specs.Held.{pairs_of};
ghost use Rattle.journal.specs.Reading.{reads};
ghost use Rattle.journal.specs.Log.{reading_of};
ghost use Rattle.store.specs.Stops.{is_roomy, CommitRun};
ghost use Rattle.store.specs.Flashes.{OnePowerUp, FormatsItself, CommittedFlash};

use crate::refusals::Refusal;
use flash::faults::FlashFault;
use flash::interface::Flash;
use journal::reading::read_units;
use journal::standing::Standing;
use journal::writers::{format_banks, write_change};
use layout::pairs::Pairs;

// Whether the flash has at least two banks of at least 64 units.
pub(crate) fn is_roomy<F: Flash>(flash: &F) -> bool
    ensures { result ≡ is_roomy (seen F.Flash flash.now) }
{
    flash.banks() >= 2 && flash.units_per_bank() >= 64
}

// Powers the flash up and reads its units.
pub(crate) fn power_up_and_read<F: Flash>(flash: &mut F) -> Option<Standing>
    ensures powered { OnePowerUp F.Flash flash.old flash.new }
    ensures reading { option_map reading_of result ≡ reads (F.Flash.units flash.old) }
{
    flash.power_up();
    read_units(flash)
}

// Powers the flash up and writes an empty store.
pub(crate) fn power_up_and_format<F: Flash>(flash: &mut F) -> Result<(), Refusal>
    ensures { FormatsItself F.Flash flash.old result flash.new }
{
    flash.power_up();
    format_banks(flash).map_err(|fault| Refusal::WriteStopped(fault.place()))
}

// Writes a change with the next number.
// kept: the closure of the format once more, shorter than a function and its contract.
// kept: what stands, the change and its number side by side: `commit_open` alone has all three, and would make and take apart a struct of them.
pub(crate) fn write<F: Flash>(
    flash: &mut F,
    standing: &Standing,
    change: &Pairs,
    number: u32,
) -> Result<(), Refusal>
    requires { number ≡ standing.now.number + 1 }
    ensures run { CommitRun (seen F.Flash flash.old) (reading_of standing.now) (pairs_of change.now) result (seen F.Flash flash.new) }
    ensures itself { CommittedFlash F.Flash (reading_of standing.now) (pairs_of change.now)
        flash.old flash.new }
{
    write_change(flash, standing, change, number).map_err(|fault| Refusal::WriteStopped(
        fault.place(),
    ))
}
