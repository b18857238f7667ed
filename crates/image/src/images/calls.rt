// The image is a flash.
ghost use Rattle.std.specs.Prelude.{◌≡◌};
ghost use Rattle.flash.specs.Calls.{Program, Erase, PoweredUp, Untouched};
ghost use Rattle.flash.specs.Plans.{no_plan};
ghost use Rattle.image.specs.ImageOpening.{image_bytes};
ghost use Rattle.image.specs.ImageStates.{image_units, image_width, image_on, image_charge, image_flash, image_after_program, image_after_erase, image_after_power_up};
ghost use Rattle.image.specs.Formed.{image_formed, opened};

use crate::headers::{ON, POWER_AT};
use crate::image_faults::ImageFault;
use crate::images::Image;
use crate::units::{PROGRAMMED, UNIT_SIZE, UNREADABLE, unit_in};
use flash::causes::Why;
use flash::faults::FlashFault;
use flash::interface::Flash;
use flash::units::Unit;

impl Flash for Image {
    type Fault = ImageFault;

    ghost units = { λ m. image_units (image_bytes m) };

    ghost width = { λ m. image_width (image_bytes m) };

    ghost power = { λ m. image_on (image_bytes m) };

    ghost charge = { λ m. image_charge (image_bytes m) };

    ghost plan = { λ m. no_plan };

    ghost powered = { λ m m'. image_bytes m' ≡ image_after_power_up (image_bytes m) };

    ghost programmed = { λ m b u v m'. image_bytes m' ≡ image_after_program (image_bytes m) b u v };

    ghost erased = { λ m b m'. image_bytes m' ≡ image_after_erase (image_bytes m) b };

    ghost formed = { λ m. image_formed (image_bytes m) (opened (image_bytes m) m.opened) };

    fn banks(&self) -> usize {
        self.header().banks
    }

    fn units_per_bank(&self) -> usize {
        self.header().width
    }

    // kept: each kind of flash asks its own state whether it is on and has the place, here and in `erase`: a gate for both calls would take an optional
    // unit, and want a definition between `read_refusal` and `erase_refusal`, of which the meaning of a flash has two.
    fn read(&self, bank: usize, unit: usize) -> Result<Unit, ImageFault> {
        let header = self.header();
        if !header.is_on {
            return Err(ImageFault::new(Why::Off, bank, Some(unit)));
        }
        if bank >= header.banks || unit >= header.width {
            return Err(ImageFault::new(Why::Missing, bank, Some(unit)));
        }
        let at = self.place(bank, unit);
        Ok(unit_in(&self.bytes[at..at + UNIT_SIZE]))
    }

    fn program(&mut self, bank: usize, unit: usize, value: u64) -> Result<(), ImageFault>
        ensures programs { Program ⟦<ImageFault as FlashFault>⟧ (image_flash (image_bytes self.old)) bank unit value (image_flash (image_bytes self.new)) result }
        ensures untouched { Untouched ⟦<ImageFault as FlashFault>⟧ self.old result self.new }
        ensures buffer { image_bytes self.new ≡ image_after_program (image_bytes self.old) bank unit value }
    {
        if self.read(bank, unit)? != Unit::Blank {
            return Err(ImageFault::new(Why::NotBlank, bank, Some(unit)));
        }
        let at = self.place(bank, unit);
        if self.header().charge == 0 {
            self.bytes[at] = UNREADABLE;
            self.switch_off();
            return Err(ImageFault::new(Why::Cut, bank, Some(unit)));
        }
        self.bytes[at] = PROGRAMMED;
        self.bytes[at + 1..at + UNIT_SIZE].copy_from_slice(&value.to_be_bytes());
        self.pay();
        Ok(())
    }

    // kept: the gate of `read` once more, for the reason given there; here no unit is asked for, and the fault has none.
    fn erase(&mut self, bank: usize) -> Result<(), ImageFault>
        ensures erases { Erase ⟦<ImageFault as FlashFault>⟧ (image_flash (image_bytes self.old)) bank (image_flash (image_bytes self.new)) result }
        ensures untouched { Untouched ⟦<ImageFault as FlashFault>⟧ self.old result self.new }
        ensures buffer { image_bytes self.new ≡ image_after_erase (image_bytes self.old) bank }
    {
        let header = self.header();
        if !header.is_on {
            return Err(ImageFault::new(Why::Off, bank, None));
        }
        if bank >= header.banks {
            return Err(ImageFault::new(Why::Missing, bank, None));
        }
        let at = self.place(bank, 0);
        if header.charge == 0 {
            self.bytes[at..at + UNIT_SIZE * (header.width / 2)].fill(0);
            self.switch_off();
            return Err(ImageFault::new(Why::Cut, bank, None));
        }
        self.bytes[at..at + UNIT_SIZE * header.width].fill(0);
        self.pay();
        Ok(())
    }

    fn power_up(&mut self)
        ensures powers { PoweredUp (image_flash (image_bytes self.old)) (image_flash (image_bytes self.new)) }
        ensures buffer { image_bytes self.new ≡ image_after_power_up (image_bytes self.old) }
    {
        let supply = self.header().supply;
        self.set_charge(supply);
        self.bytes[POWER_AT] = ON;
    }
}
