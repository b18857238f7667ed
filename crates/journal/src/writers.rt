// The writers: the only place where the store programs and erases. Each makes its writes in their order, up to the first that
// the flash refuses, and answers that one's fault.
ghost use Rattle.std.specs.Prelude.{◌≡◌, ◌+◌, length, IfOk};
ghost use Rattle.flash.specs.Seen.{seen};
ghost use Rattle.layout.specs.Held.{pairs_of};
ghost use Rattle.journal.specs.Log.{reading_of};
ghost use Rattle.journal.specs.Writes.{Performed, WroteThrough};
ghost use Rattle.journal.specs.Commit.{records, appending, moving, commit_writes, formatting};
ghost use Rattle.journal.specs.Outcomes.{WholeOrAbsentAfter, EmptyAfter};

use crate::choices::{is_room, other_bank};
use crate::standing::Standing;
use flash::interface::Flash;
use layout::codec::{encode_commit, encode_header, encode_record};
use layout::merge::merged;
use layout::pairs::Pairs;

// Programs the records of pairs in key order from a unit on, and answers the unit after them.
fn program_records<F: Flash>(
    flash: &mut F,
    bank: usize,
    from: usize,
    pairs: &Pairs,
) -> Result<usize, F::Fault>
    ensures writes { Performed F.Fault.FlashFault (records bank from (pairs_of pairs.now)) (seen F.Flash flash.old) (seen F.Flash flash.new) result }
    ensures itself { WroteThrough F.Flash (records bank from (pairs_of pairs.now))
        flash.old flash.new }
    ensures next { IfOk result (λ at. at ≡ from + length (pairs_of pairs.now)) }
    ensures plan { F.Flash.plan flash.new ≡ F.Flash.plan flash.old }
{
    for (i, pair) in pairs.iter().enumerate() {
        flash.program(bank, from + i, encode_record(pair))?;
    }
    Ok(from + pairs.len())
}

// Writes a change at the end of what stands: its records, then a commit of its count and of the number.
fn append<F: Flash>(
    flash: &mut F,
    standing: &Standing,
    change: &Pairs,
    number: u32,
) -> Result<(), F::Fault>
    ensures writes { Performed F.Fault.FlashFault (appending standing.now.bank standing.now.end (pairs_of change.now) number) (seen F.Flash flash.old) (seen F.Flash flash.new) result }
    ensures itself { WroteThrough F.Flash
        (appending standing.now.bank standing.now.end (pairs_of change.now) number)
        flash.old flash.new }
    ensures plan { F.Flash.plan flash.new ≡ F.Flash.plan flash.old }
{
    let at = program_records(flash, standing.bank, standing.end, change)?;
    // kept: `as`, proved to fit; `try_from` would answer an error that cannot come.
    flash.program(standing.bank, at, encode_commit(change.len() as u8, number))
}

// Writes pairs into a bank, which it erases before: their records from unit 1 on, and last the header.
fn rewrite<F: Flash>(flash: &mut F, bank: usize, pairs: &Pairs, number: u32) -> Result<(), F::Fault>
    ensures writes { Performed F.Fault.FlashFault (moving bank (pairs_of pairs.now) number) (seen F.Flash flash.old) (seen F.Flash flash.new) result }
    ensures itself { WroteThrough F.Flash (moving bank (pairs_of pairs.now) number)
        flash.old flash.new }
    ensures plan { F.Flash.plan flash.new ≡ F.Flash.plan flash.old }
{
    flash.erase(bank)?;
    program_records(flash, bank, 1, pairs)?;
    // kept: `as`, proved to fit; `try_from` would answer an error that cannot come.
    flash.program(bank, 0, encode_header(pairs.len() as u8, number))
}

// Erases both banks and programs the header of an empty store.
pub fn format_banks<F: Flash>(flash: &mut F) -> Result<(), F::Fault>
    ensures writes { Performed F.Fault.FlashFault formatting (seen F.Flash flash.old) (seen F.Flash flash.new) result }
    ensures itself { WroteThrough F.Flash formatting flash.old flash.new }
    ensures empty { EmptyAfter F.Fault.FlashFault (seen F.Flash flash.old) (seen F.Flash flash.new) result }
    ensures plan { F.Flash.plan flash.new ≡ F.Flash.plan flash.old }
{
    flash.erase(0)?;
    flash.erase(1)?;
    flash.program(0, 0, encode_header(0, 0))
}

// Writes a change with its number over the units that stand: behind the end of the active bank if it fits there, and
// otherwise, merged with the standing pairs, into the other bank.
// kept: standing, change and number as parameters, here, in `append` and in `standing_after`: two of them are lent from where the caller keeps them,
// the number is what he has judged before, and a struct of all three would be made and taken apart in one function of the store.
pub fn write_change<F: Flash>(
    flash: &mut F,
    standing: &Standing,
    change: &Pairs,
    number: u32,
) -> Result<(), F::Fault>
    ensures writes { Performed F.Fault.FlashFault (commit_writes (F.Flash.width flash.old) (reading_of standing.now) (pairs_of change.now) number) (seen F.Flash flash.old) (seen F.Flash flash.new) result }
    ensures itself { WroteThrough F.Flash
        (commit_writes (F.Flash.width flash.old) (reading_of standing.now) (pairs_of change.now)
        number) flash.old flash.new }
    ensures whole_or_absent { WholeOrAbsentAfter F.Fault.FlashFault (seen F.Flash flash.old) (reading_of standing.now) (pairs_of change.now) number (seen F.Flash flash.new) result }
    ensures plan { F.Flash.plan flash.new ≡ F.Flash.plan flash.old }
{
    if is_room(flash.units_per_bank(), standing.end, change.len()) {
        append(flash, standing, change, number)
    } else {
        rewrite(
            flash,
            other_bank(standing.bank),
            &merged(&standing.pairs, change),
            number,
        )
    }
}
