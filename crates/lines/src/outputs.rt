// Answers, written as they come.
ghost use Rattle.lines.specs.Outputs.{answer_line, Writes};

use crate::answers::Answer;
use std::alloc::Global;
use std::io;
use std::io::{ErrorKind, Write};

/// Writes bytes, in as many writes as the writer needs, and flushes them. A write that a signal
/// interrupts is made again.
pub fn write_through<W: Write>(output: &mut W, bytes: &[u8]) -> io::Result<()>
    ensures { Writes (W.contents output.old) (W.contents output.new) result bytes.now }
{
    let mut rest = bytes;
    for _ in 0..u64::MAX {
        if rest.is_empty() {
            return output.flush();
        }
        match output.write(rest) {
            Ok(0) => return Err(io::Error::from(ErrorKind::WriteZero)),
            Ok(n) => rest = &rest[n..],
            Err(e) => {
                if e.kind() != ErrorKind::Interrupted {
                    return Err(e);
                }
            }
        }
    }
    Err(io::Error::other("no end of writes"))
}

/// Writes an answer in a line of its own, at once.
pub fn write_answer<W: Write>(heap: Global, output: &mut W, answer: Answer) -> io::Result<()>
    ensures { Writes (W.contents output.old) (W.contents output.new) result (answer_line answer) }
{
    let line = format!(in heap; "{answer}\n")?;
    write_through(output, line.as_bytes())
}
