// A flash kept in a byte buffer. Numbers stand with their highest byte first:
//
//     0 to 2      the mark 43 46 49 hex
//     3, 4        the version, 1
//     5           the number of banks
//     6, 7        the number of units in a bank
//     8 to 11     the charge
//     12 to 15    the supply: what a power-up sets the charge to
//     16          the power: 1 on, others off
//     17 ..       nine bytes for each unit, bank by bank: its state (0 blank, 1 programmed, others unreadable) and its value
ghost use Rattle.std.specs.Prelude.{◌≡◌};
ghost use Rattle.image.specs.ImageStates.{open_refusal};

// The buffer passed the check before opening, and no call changes what that looks at.
#[derive(Drop)]
pub struct Image {
    bytes: Vec<u8>,
    ghost opened: { open_refusal bytes.items ≡ 0 },
}

pub mod calls;
pub mod opens;
mod writes;
