// A unit in an image: a byte of state and eight of value.
ghost use Rattle.std.specs.Prelude.{◌≡◌, length};
ghost use Rattle.image.specs.ImageStates.{unit_from};

use flash::units::Unit;

pub(crate) const UNIT_SIZE: usize = 9;

// A unit's state. Any other value than the first two reads as unreadable.
// kept: bytes of the format, which `unit_in` turns into a `Unit` at once; a type of its own for nine bytes, for a `From`, is no plainer.
pub(crate) const BLANK: u8 = 0;

pub(crate) const PROGRAMMED: u8 = 1;

pub(crate) const UNREADABLE: u8 = 2;

// The unit that nine bytes hold.
pub(crate) fn unit_in(bytes: &[u8]) -> Unit
    requires { length bytes.now ≡ 9 }
    ensures { result ≡ unit_from bytes.now 0 }
{
    match bytes[0] {
        BLANK => Unit::Blank,
        PROGRAMMED => Unit::Programmed(u64::from_be_bytes(bytes[1..].try_into().unwrap())),
        _ => Unit::Unreadable,
    }
}
