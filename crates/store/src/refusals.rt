// Why a call of the store was refused.
ghost use Rattle.std.specs.Prelude.{◌≡◌};
ghost use Rattle.store.specs.declared.refusals.Refusal.TheVariants.{Absent as key_absent};
ghost use Rattle.store.specs.Refusals.{refusal_number, refusal_place, refusal_key};
ghost use Rattle.store.specs.Readings.{refusal_of};

use compensation::readings::ReadingRefusal;
use flash::faults::Place;
use readings::gathered::Absent;

// kept: the three of `ReadingRefusal` as variants of this enum again, and not one that holds it: the sixteen are one list of numbers, and a caller
// tells each by one match.
// kept: no `Display`: in words a refusal stands in one program alone, and the words are that program's.
#[derive(Clone, Copy, PartialEq, Eq, Debug)]
pub enum Refusal {
    // 1: the store is cold.
    Cold,
    // 2: the flash has fewer than two banks, or fewer than 64 units in each.
    SmallFlash,
    // 3: neither bank has a lawful header.
    NoHeader,
    // 4: a change is open.
    ChangeOpen,
    // 5: there are no ticket numbers left.
    NoTickets,
    // 6: the ticket's number is not that of the open change.
    WrongTicket,
    // 7: the key is not in the catalogue.
    UnknownKey,
    // 8: the catalogue does not admit the value.
    NotAdmitted,
    // 9: the change has 12 pairs, none of this key.
    ChangeFull,
    // 10: the store's number is the last one.
    LastNumber,
    // 11: a write was cut or refused, at this bank and unit; an erase has no unit.
    WriteStopped(Place),
    // 12: the raw value is none that the chip can give.
    RawValue,
    // 13: this is the lowest of the keys 1 to 11 that has no value.
    Absent(u8),
    // 14: the step has another number than the store.
    OldStep,
    // 15: X1 + MD is 0, or T is not -40.0 to 85.0 degrees.
    NoTemperature,
    // 16: UP is below B3, B4 is not above 0, or p is above 1,000,000.
    NoPressure,
}

impl Refusal {
    // The number by which the refusal is known.
    // kept: a match; two of the variants hold data, so that `as` gives no number.
    pub fn number(self) -> u8
        ensures { result ≡ refusal_number self }
    {
        match self {
            Refusal::Cold => 1,
            Refusal::SmallFlash => 2,
            Refusal::NoHeader => 3,
            Refusal::ChangeOpen => 4,
            Refusal::NoTickets => 5,
            Refusal::WrongTicket => 6,
            Refusal::UnknownKey => 7,
            Refusal::NotAdmitted => 8,
            Refusal::ChangeFull => 9,
            Refusal::LastNumber => 10,
            Refusal::WriteStopped(_) => 11,
            Refusal::RawValue => 12,
            Refusal::Absent(_) => 13,
            Refusal::OldStep => 14,
            Refusal::NoTemperature => 15,
            Refusal::NoPressure => 16,
        }
    }

    /// Where the write that stopped was to go, if this is 11: bank and unit, and no unit for an
    /// erase. Each other refusal has no place.
    pub fn place(self) -> Option<Place>
        ensures { result ≡ refusal_place self }
    {
        match self {
            Refusal::WriteStopped(place) => Some(place),
            _ => None,
        }
    }

    /// The key, 1 to 11, that is needed and has no value, if this is 13: the lowest such key. Each
    /// other refusal has no key.
    pub fn key(self) -> Option<u8>
        ensures { result ≡ refusal_key self }
    {
        match self {
            Refusal::Absent(key) => Some(key),
            _ => None,
        }
    }
}

// 12, 15 and 16 by what the arithmetic refused.
impl From<ReadingRefusal> for Refusal {
    ghost from_gives = { λ e r. r ≡ refusal_of e };

    fn from(refusal: ReadingRefusal) -> Refusal {
        match refusal {
            ReadingRefusal::RawValue => Refusal::RawValue,
            ReadingRefusal::Temperature => Refusal::NoTemperature,
            ReadingRefusal::Pressure => Refusal::NoPressure,
        }
    }
}

impl From<Absent> for Refusal {
    ghost from_gives = { λ e r. r ≡ key_absent e.key };

    fn from(absent: Absent) -> Refusal {
        Refusal::Absent(absent.key)
    }
}
