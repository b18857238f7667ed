// A session that answers the lines of an input, one after the other, each before the next is read.
ghost use Rattle.session.specs.Exchanges.{AnswersAll, UnlessClosed};
ghost use Rattle.session.specs.Held.{exchange};

use crate::sessions::Session;
use lines::inputs::read_line;
use lines::outputs::write_answer;
use std::alloc::Global;
use std::error::Error;
use std::io::{BufRead, ErrorKind, Write};
use std::{fmt, io};

/// What ended the answering of an input before its end.
#[derive(Debug, Drop)]
pub enum AnswerError {
    /// the input
    Read(io::Error),
    /// the output, or memory for an answer's text
    Write(io::Error),
    /// the input has more than 2^64 - 1 lines
    TooManyLines,
}

impl fmt::Display for AnswerError {
    fn fmt<W: fmt::Write>(&self, f: &mut fmt::Formatter<W>) -> fmt::Result {
        match self {
            AnswerError::Read(why) => write!(f, "input: {why}"),
            AnswerError::Write(why) => write!(f, "output: {why}"),
            AnswerError::TooManyLines => f.write_str("too many lines"),
        }
    }
}

impl Error for AnswerError {}

/// An output that nobody reads any more, as a pipe whose reader ended, is no failure.
pub fn unless_closed(done: Result<(), AnswerError>) -> Result<(), AnswerError>
    ensures { UnlessClosed done result }
{
    match done {
        Err(AnswerError::Write(why)) if why.kind() == ErrorKind::BrokenPipe => Ok(()),
        done => done,
    }
}

/// Answers each line of an input, at once: its answer is written before the next line is read.
pub fn answer_all<R: BufRead, W: Write>(
    heap: Global,
    session: &mut Session,
    input: &mut R,
    output: &mut W,
) -> Result<(), AnswerError>
    ensures { AnswersAll
        (exchange session.old (R.remaining input.old) (W.contents output.old)) result
        (exchange session.new (R.remaining input.new) (W.contents output.new)) }
{
    // every loop is proved to end: this one after more lines than any input has
    for _ in 0..u64::MAX {
        let line = match read_line(input) {
            Ok(Some(line)) => line,
            Ok(None) => return Ok(()),
            Err(why) => return Err(AnswerError::Read(why)),
        };
        let answer = session.answer(line.bytes());
        if let Err(why) = write_answer(heap, output, answer) {
            return Err(AnswerError::Write(why));
        }
        if line.is_last() {
            return Ok(());
        }
    }
    Err(AnswerError::TooManyLines)
}
