// What a session answers to a line, and how it is printed.
ghost use Rattle.std.specs.Prelude.{Some};
ghost use Rattle.lines.specs.Answers.{answer_text};

use compensation::text::{degrees, hectopascals};
use flash::faults::Place;
use std::fmt;

#[derive(Clone, Copy, PartialEq, Eq, Debug)]
pub enum Answer {
    // done, with nothing to tell
    Done,
    // a number that the call gives: of a plan's entries, of a store, of a ticket, of a change's pairs
    Number(u32),
    // the standing value of a key, if it has one
    Value(Option<i32>),
    // T, in tenths of a degree
    Temperature { t: i16 },
    // a line: T, and P in Pa
    Line { t: i16, pa: i32 },
    // refused by this number
    Refused(u8),
    // 11: a write was cut or refused, at this bank and unit; an erase has no unit
    WriteStopped(Place),
}

impl fmt::Display for Answer {
    ghost output = { λ answer. Some (answer_text answer) };

    fn fmt<W: fmt::Write>(&self, f: &mut fmt::Formatter<W>) -> fmt::Result {
        match *self {
            Answer::Done => f.write_str("ok"),
            Answer::Number(number) => write!(f, "ok {number}"),
            Answer::Value(Some(value)) => write!(f, "ok {value}"),
            Answer::Value(None) => f.write_str("ok -"),
            Answer::Temperature { t } => write!(f, "ok {}", degrees(t)),
            Answer::Line { t, pa } => write!(f, "ok {} {}", degrees(t), hectopascals(pa)),
            Answer::Refused(number) => write!(f, "no {number}"),
            Answer::WriteStopped((bank, Some(unit))) => write!(f, "no 11 {bank} {unit}"),
            Answer::WriteStopped((bank, None)) => write!(f, "no 11 {bank} -"),
        }
    }
}
