// Units made at random, as no run of a store leaves them: headers, records, and commits that count
// or nearly do, with blank units and wrong CRCs between them.
use flash::interface::Flash;
use layout::codec::{encode_commit, encode_header, encode_record};
use layout::meanings::Pair;

// Values at the limits of the catalogue, within and beyond.
const LIMITS: [i32; 16] = [
    -32769,
    -32768,
    -501,
    -500,
    -1,
    0,
    3,
    4,
    500,
    501,
    32767,
    32768,
    65534,
    65535,
    -2147483648,
    2147483647,
];

// It draws numbers by Knuth's linear congruential generator. `key` is that of the last record,
// `number` that of the bank's header.
#[derive(Clone, Copy)]
pub(crate) struct Maker {
    state: u64,
    key: u8,
    number: u32,
}

impl Maker {
    pub(crate) fn new() -> Maker {
        Maker {
            state: 1,
            key: 0,
            number: 0,
        }
    }

    fn next(&mut self) -> u64 {
        self.state = self
            .state
            .wrapping_mul(6364136223846793005)
            .wrapping_add(1442695040888963407);
        self.state
    }

    // A number below a limit of at most 16.
    fn below(&mut self, limit: u8) -> u8 {
        let drawn = (self.next() >> 60) as u8;
        drawn.checked_rem(limit).unwrap_or(0)
    }

    // The first unit of a bank, mostly a header.
    fn first(&mut self) -> Option<u64> {
        self.key = 0;
        self.number = u32::from(self.below(3));
        let count = self.below(3);
        let header = encode_header(count, self.number);
        (self.below(8) > 0).then_some(header)
    }

    // 1 or 2, which each key from 1 to 13 admits, or a limit.
    fn value(&mut self) -> i32 {
        if self.below(2) == 0 {
            1 + i32::from(self.below(2))
        } else {
            LIMITS[usize::from(self.below(16)) % LIMITS.len()]
        }
    }

    // A record whose key mostly rises. The catalogue has no keys 0 and 14.
    fn record(&mut self) -> u64 {
        let key = self.key.wrapping_add(self.below(3)) % 15;
        let value = self.value();
        self.key = key;
        encode_record(Pair { key, value })
    }

    // A commit with one of the four numbers after the header's.
    fn commit(&mut self) -> u64 {
        let count = self.below(4);
        let ahead = 1 + u32::from(self.below(4));
        encode_commit(count, self.number.wrapping_add(ahead))
    }

    // A unit behind the first; none for a blank one.
    fn later(&mut self) -> Option<u64> {
        match self.below(16) {
            0 => None,
            // a wrong CRC
            1 => Some(self.record() ^ 1),
            2 => Some(encode_header(0, self.number)),
            3 | 4 => Some(self.commit()),
            _ => Some(self.record()),
        }
    }

    fn fill_bank<F: Flash>(&mut self, flash: &mut F, bank: usize) -> Option<()> {
        flash.erase(bank).ok()?;
        for unit in 0..flash.units_per_bank() {
            let made = if unit == 0 {
                self.first()
            } else {
                self.later()
            };
            if let Some(value) = made {
                flash.program(bank, unit, value).ok()?;
            }
        }
        Some(())
    }

    // Powers a flash up and fills it; none where a write is refused.
    pub(crate) fn fill<F: Flash>(&mut self, flash: &mut F) -> Option<()> {
        flash.power_up();
        for bank in 0..flash.banks() {
            self.fill_bank(flash, bank)?;
        }
        Some(())
    }
}
