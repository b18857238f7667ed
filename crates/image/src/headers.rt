// The header of an image: where its fields stand, and what they say.
ghost use Rattle.std.specs.Prelude.{◌≡◌, ◌≤◌, true, false, length, MatchOption, IfSome};
ghost use Rattle.image.specs.ImageHeader.{header_of};
ghost use Rattle.image.specs.ImageStates.{image_marked};

use std::ops::Range;

const MARK: [u8; 3] = [0x43, 0x46, 0x49];

const VERSION: u16 = 1;

const VERSION_AT: Range<usize> = 3..5;

const BANKS_AT: usize = 5;

const WIDTH_AT: Range<usize> = 6..8;

pub(crate) const CHARGE_AT: Range<usize> = 8..12;

const SUPPLY_AT: Range<usize> = 12..16;

pub(crate) const POWER_AT: usize = 16;

pub(crate) const HEADER_SIZE: usize = 17;

// The power byte. Any other value than `ON` reads as off.
// kept: a byte of the format, which `Header::read` turns into a bool at once.
pub(crate) const OFF: u8 = 0;

pub(crate) const ON: u8 = 1;

// Whether there is a whole header that begins with the mark and the version.
fn is_marked(bytes: &[u8]) -> bool
    ensures { result ≡ image_marked bytes.now }
{
    bytes.len() >= HEADER_SIZE
        && bytes.starts_with(&MARK)
        && u16::from_be_bytes(bytes[VERSION_AT].try_into().unwrap()) == VERSION
}

// What a header says: the numbers of banks and of units in a bank, the charge, the supply and the power.
#[derive(Clone, Copy)]
pub(crate) struct Header {
    pub(crate) banks: usize,
    pub(crate) width: usize,
    pub(crate) charge: u32,
    pub(crate) supply: u32,
    pub(crate) is_on: bool,
}

impl Header {
    // The header that bytes begin with; none where they are too few, or begin with another mark or version.
    pub(crate) fn read(bytes: &[u8]) -> Option<Header>
        ensures marked { MatchOption result (image_marked bytes.now ≡ false) (λ _. image_marked bytes.now ≡ true) }
        ensures fields { IfSome result (λ h. h ≡ header_of bytes.now) }
    {
        is_marked(bytes).then(|| Header::fields(bytes))
    }

    // What the bytes after the mark and the version say; these are not looked at.
    pub(crate) fn fields(bytes: &[u8]) -> Header
        requires { 17 ≤ length bytes.now }
        ensures { result ≡ header_of bytes.now }
    {
        Header {
            banks: usize::from(bytes[BANKS_AT]),
            width: usize::from(u16::from_be_bytes(bytes[WIDTH_AT].try_into().unwrap())),
            charge: u32::from_be_bytes(bytes[CHARGE_AT].try_into().unwrap()),
            supply: u32::from_be_bytes(bytes[SUPPLY_AT].try_into().unwrap()),
            is_on: bytes[POWER_AT] == ON,
        }
    }
}
