// An input, cut into lines as they come.
ghost use Rattle.std.specs.Prelude.{◌≡◌, ℕ, List, ◌++◌, ◌==◌};
ghost use Rattle.std.specs.List.{position};
ghost use Rattle.lines.specs.Inputs.{is_last_line, kept_of, line_bytes, ReadsLine, TakesPart};

use arrayvec::ArrayVec;
use std::io;
use std::io::{BufRead, ErrorKind};

const LINE_END: u8 = b'\n';

// One byte more than a line may have, so that a longer line stays too long.
const KEPT: usize = 81;

/// A line of an input without its line end; of one that is longer than 80 bytes the first 81.
#[derive(Drop)]
pub struct Line {
    kept: ArrayVec<u8, KEPT>,
    // ended by the end of the input
    is_last: bool,
}

// What was taken of an input: a part of a line, a line with its end, or all that was left.
#[derive(Clone, Copy)]
enum Reach {
    Within,
    LineEnd,
    InputEnd,
}

// Adds bytes to those that are kept of a line.
fn keep(kept: &mut ArrayVec<u8, KEPT>, part: &[u8])
    ensures { kept.new.items ≡ kept_of (kept.old.items ++ part.now) }
{
    let len = part.len().min(kept.remaining_capacity());
    // never refused: what has no room is left out
    let _ = kept.try_extend_from_slice(&part[..len]);
}

// The place of the first line end.
fn line_end(ready: &[u8]) -> Option<usize>
    ensures { result ≡ position (λ b. b == 10) ready.now }
{
    ready.iter().position(|b| *b == LINE_END)
}

// Takes what the reader has ready of a line, with the line end if it is there.
fn take_part<R: BufRead>(input: &mut R, kept: &mut ArrayVec<u8, KEPT>) -> io::Result<Reach>
    ensures { (line : List ℕ) → kept.old.items ≡ kept_of line →
        TakesPart line (R.remaining input.old) (R.remaining input.new) result kept.new.items }
{
    let ready = match input.fill_buf() {
        Ok(ready) => ready,
        Err(e) => {
            return if e.kind() == ErrorKind::Interrupted {
                Ok(Reach::Within)
            } else {
                Err(e)
            };
        }
    };
    let (len, taken, reach) = match line_end(ready) {
        Some(end) => (end, end + 1, Reach::LineEnd),
        None if ready.is_empty() => (0, 0, Reach::InputEnd),
        None => (ready.len(), ready.len(), Reach::Within),
    };
    keep(kept, &ready[..len]);
    input.consume(taken);
    Ok(reach)
}

/// Reads the next line, however long it is; none at the end of the input. A read that a signal
/// interrupts is made again.
pub fn read_line<R: BufRead>(input: &mut R) -> io::Result<Option<Line>>
    ensures { ReadsLine (R.remaining input.old) (R.remaining input.new) result }
{
    let mut kept = ArrayVec::new();
    for _ in 0..u64::MAX {
        match take_part(input, &mut kept)? {
            Reach::Within => {}
            Reach::LineEnd => {
                return Ok(Some(Line {
                    kept,
                    is_last: false,
                }));
            }
            Reach::InputEnd if kept.is_empty() => return Ok(None),
            Reach::InputEnd => {
                return Ok(Some(Line {
                    kept,
                    is_last: true,
                }));
            }
        }
    }
    Err(io::Error::other("a line without an end"))
}

impl Line {
    /// The line's bytes, as far as they are kept.
    pub fn bytes(&self) -> &[u8]
        ensures { result.now ≡ line_bytes self.now }
    {
        self.kept.as_slice()
    }

    /// Whether the input ended with the line.
    pub fn is_last(&self) -> bool
        ensures { result ≡ is_last_line self.now }
    {
        self.is_last
    }
}
