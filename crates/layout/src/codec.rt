// The values of the store's units. Bytes b0 to b7, highest first: b0 is the mark, b1 a key or a count, b2 to b5 a value or a
// number, b6 and b7 the CRC of b0 to b5.
ghost use Rattle.std.specs.Prelude.{◌≡◌, ℕ, ◌/◌, ◌^◌, ◌<◌};
ghost use Rattle.layout.specs.declared.meanings.Meaning.TheVariants.{Record, Commit, Header};
ghost use Rattle.layout.specs.Contents.{crc_of, sealed, content};
ghost use Rattle.layout.specs.Codec.{record_value, commit_value, header_value, as_record, as_commit, as_header, content_meaning, decoded, meaning_of};

use crate::catalogue::admits;
use crate::crc::crc16;
use crate::meanings::{Meaning, Pair};
use flash::units::Unit;

// The mark of a unit, by its kind.
// kept: bytes of the format and no enum, since the kinds have one, `Meaning`, and a mark is written in one place and matched in one.
const RECORD: u8 = 0x52;

const COMMIT: u8 = 0x43;

const HEADER: u8 = 0x48;

// How many records a commit and a header may count.
// kept: 12 as in the store's `MOST`: here what a unit of the format may say, there how many pairs a change may have.
const COMMIT_MOST: u8 = 12;

const HEADER_MOST: u8 = 48;

// The CRC of the six high bytes of a value.
fn content_crc(value: u64) -> u16
    ensures { result ≡ crc_of (value / 65536) }
{
    crc16(&value.to_be_bytes()[0..6])
}

fn pack(mark: u8, second: u8, word: u32) -> u64
    ensures { result ≡ content mark second word }
{
    (((u64::from(mark) << 8) | u64::from(second)) << 32) | u64::from(word)
}

fn seal(mark: u8, second: u8, word: u32) -> u64
    ensures { result ≡ sealed (content mark second word) }
{
    let high = pack(mark, second, word) << 16;
    high | u64::from(content_crc(high))
}

// The value that is written for a record. It is read back as the pair, if that is admitted, and no other value is.
// kept: three functions, since each promises its own kind of unit; what they share is `seal`.
#[tactic(auto, using(crate::proofs::Written::said_record, crate::proofs::Written::only_record), unfolding(crate::specs::Codec::record_value))]
pub fn encode_record(pair: Pair) -> u64
    ensures value { result ≡ record_value pair }
    ensures read_back { decoded result ≡ as_record pair }
    ensures only { (v : ℕ) → decoded v ≡ Record pair → v ≡ result }
{
    seal(RECORD, pair.key, pair.value.cast_unsigned())
}

// The value that is written for a commit; the same holds of it.
#[tactic(auto, using(crate::proofs::Written::said_commit, crate::proofs::Written::only_commit), unfolding(crate::specs::Codec::commit_value))]
pub fn encode_commit(count: u8, number: u32) -> u64
    ensures value { result ≡ commit_value count number }
    ensures read_back { decoded result ≡ as_commit count number }
    ensures only { (v : ℕ) → decoded v ≡ Commit count number → v ≡ result }
{
    seal(COMMIT, count, number)
}

// The value that is written for a header; the same holds of it.
#[tactic(auto, using(crate::proofs::Written::said_header, crate::proofs::Written::only_header), unfolding(crate::specs::Codec::header_value))]
pub fn encode_header(count: u8, number: u32) -> u64
    ensures value { result ≡ header_value count number }
    ensures read_back { decoded result ≡ as_header count number }
    ensures only { (v : ℕ) → decoded v ≡ Header count number → v ≡ result }
{
    seal(HEADER, count, number)
}

// What the content of a unit, its six high bytes, says. A record is valid when the catalogue admits its pair.
#[tactic(auto, using(crate::proofs::Decoding::contents))]
fn meant(high: u64) -> Meaning
    requires { high < 2 ^ 48 }
    ensures { result ≡ content_meaning high }
{
    // kept: `as` in these three lines: bytes cut out of the content, proved to fit.
    let mark = (high >> 40) as u8;
    let second = (high >> 32 & 0xff) as u8;
    let word = (high & 0xffff_ffff) as u32;
    let pair = Pair {
        key: second,
        value: word.cast_signed(),
    };
    match mark {
        RECORD if admits(pair) => Meaning::Record(pair),
        COMMIT if second <= COMMIT_MOST => Meaning::Commit {
            count: second,
            number: word,
        },
        HEADER if second <= HEADER_MOST => Meaning::Header {
            count: second,
            number: word,
        },
        _ => Meaning::Noise,
    }
}

#[tactic(auto, using(std::proofs::lemmas::Bool::Decides::nat_tests, crate::proofs::Bytes::masks), unfolding(crate::specs::Codec::decoded))]
fn decode(value: u64) -> Meaning
    ensures { result ≡ decoded value }
{
    if u64::from(content_crc(value)) == value & 0xffff {
        meant(value >> 16)
    } else {
        Meaning::Noise
    }
}

// What a unit says.
pub fn meaning(unit: Unit) -> Meaning
    ensures { result ≡ meaning_of unit }
{
    match unit {
        Unit::Blank => Meaning::Noise,
        Unit::Programmed(value) => decode(value),
        Unit::Unreadable => Meaning::Noise,
    }
}
