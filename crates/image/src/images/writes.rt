// Where an image's units stand, and what is written into its header.
ghost use Rattle.std.specs.Prelude.{◌≡◌, ◌+◌, ◌<◌, ◌≤◌, length};
ghost use Rattle.image.specs.ImageBytes.{with_be};
ghost use Rattle.image.specs.ImageHeader.{header_of};
ghost use Rattle.image.specs.ImageOpening.{image_bytes};
ghost use Rattle.image.specs.ImageStates.{image_banks, image_width, unit_place, paid, switched_off};

use crate::headers::{CHARGE_AT, HEADER_SIZE, Header, OFF, POWER_AT};
use crate::images::Image;
use crate::units::UNIT_SIZE;

impl Image {
    // The header. The check before opening saw its mark and its version, which no call changes.
    pub(crate) fn header(&self) -> Header
        ensures { result ≡ header_of (image_bytes self.now) }
    {
        Header::fields(&self.bytes)
    }

    // Where the bytes of a unit begin.
    pub(crate) fn place(&self, bank: usize, unit: usize) -> usize
        requires bank { bank < image_banks (image_bytes self.now) }
        requires unit { unit < image_width (image_bytes self.now) }
        ensures place { result ≡ unit_place (image_width (image_bytes self.now)) bank unit }
        ensures within { result + 9 ≤ length (image_bytes self.now) }
    {
        HEADER_SIZE + UNIT_SIZE * (bank * self.header().width + unit)
    }

    pub(crate) fn set_charge(&mut self, charge: u32)
        ensures { image_bytes self.new ≡ with_be (image_bytes self.old) 8 4 charge }
    {
        self.bytes[CHARGE_AT].copy_from_slice(&charge.to_be_bytes());
    }

    // Lowers the charge by one.
    pub(crate) fn pay(&mut self)
        ensures { image_bytes self.new ≡ paid (image_bytes self.old) }
    {
        let charge = self.header().charge;
        self.set_charge(charge.saturating_sub(1));
    }

    pub(crate) fn switch_off(&mut self)
        ensures { image_bytes self.new ≡ switched_off (image_bytes self.old) }
    {
        self.bytes[POWER_AT] = OFF;
    }
}
