// The catalogue: the keys of coefficients and settings, their names, and which values each admits.
ghost use Rattle.std.specs.Prelude.{◌≡◌, ◌==◌, ◌&&◌, map};
ghost use Rattle.std.specs.Option.{option_map};
ghost use Rattle.layout.specs.declared.catalogue.Row.{Row};
ghost use Rattle.layout.specs.Catalogue.{names, is_key, key_named, is_hole, in_limits, admits as admitted, name_of, NamesTellKeys};
ghost use Rattle.layout.specs.Rows.{limits_of, row_says, rows_from};

use crate::meanings::Pair;

// The values that a key admits: those from the lowest to the highest, in some without 0 and -1.
// kept: three plain fields, as the definition of the limits has them; a range with a flag beside it is no plainer.
#[derive(Clone, Copy)]
struct Limits {
    pub low: i32,
    pub high: i32,
    pub hole: bool,
}

#[derive(Clone, Copy)]
struct Row {
    pub key: u8,
    pub name: &'static str,
    pub limits: Limits,
}

// kept: the ranges that `compensation` has as well: neither crate depends on the other, since the units of a store know no arithmetic.
const SIGNED: Limits = Limits {
    low: -32768,
    high: 32767,
    hole: true,
};

const UNSIGNED: Limits = Limits {
    low: 1,
    high: 65534,
    hole: false,
};

const OVERSAMPLING: Limits = Limits {
    low: 0,
    high: 3,
    hole: false,
};

const PRESSURE_CORRECTION: Limits = Limits {
    low: -500,
    high: 500,
    hole: false,
};

// How many keys there are; they are 1 up to this.
const KEYS: u8 = 13;

const CATALOGUE: [Row; 13] = [
    Row {
        key: 1,
        name: "AC1",
        limits: SIGNED,
    },
    Row {
        key: 2,
        name: "AC2",
        limits: SIGNED,
    },
    Row {
        key: 3,
        name: "AC3",
        limits: SIGNED,
    },
    Row {
        key: 4,
        name: "AC4",
        limits: UNSIGNED,
    },
    Row {
        key: 5,
        name: "AC5",
        limits: UNSIGNED,
    },
    Row {
        key: 6,
        name: "AC6",
        limits: UNSIGNED,
    },
    Row {
        key: 7,
        name: "B1",
        limits: SIGNED,
    },
    Row {
        key: 8,
        name: "B2",
        limits: SIGNED,
    },
    Row {
        key: 9,
        name: "MB",
        limits: SIGNED,
    },
    Row {
        key: 10,
        name: "MC",
        limits: SIGNED,
    },
    Row {
        key: 11,
        name: "MD",
        limits: SIGNED,
    },
    Row {
        key: 12,
        name: "OSS",
        limits: OVERSAMPLING,
    },
    Row {
        key: 13,
        name: "PCOR",
        limits: PRESSURE_CORRECTION,
    },
];

impl Limits {
    fn admit(&self, value: i32) -> bool
        ensures { result ≡ in_limits (limits_of self.now) value }
    {
        (self.low..=self.high).contains(&value) && !(self.hole && is_hole(value))
    }
}

fn is_hole(value: i32) -> bool
    ensures { result ≡ is_hole value }
{
    value == 0 || value == -1
}

// The rows, and what they say.
fn rows() -> &'static [Row]
    ensures { map row_says result.now ≡ rows_from 0 names }
{
    &CATALOGUE
}

// Whether the catalogue has the key.
pub fn is_key(key: u8) -> bool
    ensures { result ≡ is_key key }
{
    (1..=KEYS).contains(&key)
}

// Whether the catalogue has the pair's key and admits its value. The rows stand in the order of the
// keys, which begin at 1: 0, which is no key, has a place past all of them.
pub fn admits(pair: Pair) -> bool
    ensures { result ≡ admitted pair }
{
    let at = usize::from(pair.key).wrapping_sub(1);
    rows()
        .get(at)
        .is_some_and(|row| row.limits.admit(pair.value))
}

// The key of a name; 0 where the catalogue has no such name.
// kept: a number and no Option, since the rule of the catalogue is that an unknown name has the key 0.
pub fn key_named(name: &str) -> u8
    ensures { result ≡ key_named name.now }
{
    rows()
        .iter()
        .find(|row| row.name == name)
        .map_or(0, |row| row.key)
}

// The name of a key; none where the catalogue has no such key.
pub fn name_of(key: u8) -> Option<&'static str>
    ensures name { option_map (λ name. name.now) result ≡ name_of key }
    ensures apart { NamesTellKeys }
{
    rows().iter().find(|row| row.key == key).map(|row| row.name)
}
