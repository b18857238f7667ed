// The units of a flash, read as a store.
ghost use Rattle.std.specs.Prelude.{◌≡◌};
ghost use Rattle.std.specs.Option.{option_map};
ghost use Rattle.flash.specs.Seen.{seen};
ghost use Rattle.journal.specs.Reading.{reads};
ghost use Rattle.journal.specs.Stretch.{RunStandsDirectlyBefore};
ghost use Rattle.journal.specs.Log.{visible, reading_of};

use crate::choices::active_bank;
use crate::standing::Standing;
use crate::views::BankView;
use flash::interface::Flash;

// What the units of a flash stand for: none where no bank has a lawful header, or where the flash is off.
pub fn read_units<F: Flash>(flash: &F) -> Option<Standing>
    ensures reading { option_map reading_of result ≡ reads (visible (seen F.Flash flash.now)) }
    ensures run { RunStandsDirectlyBefore }
{
    let first = BankView { flash, bank: 0 };
    let second = BankView { flash, bank: 1 };
    let bank = active_bank(first.header_number(), second.header_number())?;
    BankView { flash, bank }.standing()
}
