// One bank of a flash, read. A flash that is off shows no units.
ghost use Rattle.std.specs.Prelude.{◌≡◌, ◌+◌, ◌^◌, ◌<◌, ◌≤◌, length, drop, slice_index_or};
ghost use Rattle.std.specs.Option.{option_map};
ghost use Rattle.flash.specs.declared.units.Unit.TheVariants.{Blank};
ghost use Rattle.layout.specs.declared.meanings.Meaning.TheVariants.{Noise};
ghost use Rattle.layout.specs.Held.{pairs_of};
ghost use Rattle.journal.specs.Reading.{opening, closing, reading_in, end_of, header_number};
ghost use Rattle.journal.specs.Log.{visible, reading_of, records_of, opening_at, tally, counted_at, tally_step};
ghost use Rattle.flash.specs.Seen.{seen};
ghost use Rattle.journal.specs.Views.{shown, meanings_shown};

use crate::logs::{Log, Start};
use crate::standing::Standing;
use flash::interface::Flash;
use flash::units::Unit;
use layout::codec::meaning;
use layout::meanings::Meaning;
use layout::merge::merged;
use layout::pairs::Pairs;

#[derive(Drop)]
pub(crate) struct BankView<'a, F> {
    pub flash: &'a F,
    pub bank: usize,
}

impl<F: Flash> BankView<'_, F> {
    // What a unit holds; blank where nothing can be read.
    fn unit(&self, at: usize) -> Unit
        ensures { result ≡ slice_index_or (shown F.Flash self.now) at Blank }
    {
        self.flash.read(self.bank, at).unwrap_or(Unit::Blank)
    }

    // What a unit says.
    fn meaning(&self, at: usize) -> Meaning
        ensures { result ≡ slice_index_or (meanings_shown F.Flash self.now) at Noise }
    {
        meaning(self.unit(at))
    }

    // The pairs of `count` units from a place on, if those are valid records with rising keys.
    fn records(&self, from: usize, count: u8) -> Option<Pairs>
        requires { from + count < 2 ^ 64 }
        ensures { option_map pairs_of result ≡ records_of count (drop from (meanings_shown F.Flash self.now)) }
    {
        // kept: a loop with the last key beside the pairs, 0 before the first, since keys begin at 1. A `try_fold` would carry both in
        // a tuple and drop the key at the end, with the same two reasons to stop in its closure.
        let mut pairs = Pairs::new();
        let mut last = 0;
        for unit in from..from + usize::from(count) {
            let Meaning::Record(pair) = self.meaning(unit) else {
                return None;
            };
            if pair.key <= last {
                return None;
            }
            let _ = pairs.lay(pair);
            last = pair.key;
        }
        Some(pairs)
    }

    // What the lawful header gives.
    fn start(&self) -> Option<Start>
        ensures { option_map (opening_at (meanings_shown F.Flash self.now)) result ≡ opening (meanings_shown F.Flash self.now) }
    {
        let Meaning::Header { count, number } = self.meaning(0) else {
            return None;
        };
        let pairs = self.records(1, count)?;
        Some(Start {
            log: Log {
                number,
                pairs,
                run: 0,
            },
            next: 1 + usize::from(count),
        })
    }

    // The number of the lawful header.
    pub(crate) fn header_number(&self) -> Option<u32>
        ensures { result ≡ header_number (shown F.Flash self.now) }
    {
        self.start().map(|start| start.log.number)
    }

    // The pairs that a commit at this unit adds, if it counts.
    fn counted(&self, unit: usize, count: u8, number: u32, log: &Log) -> Option<Pairs>
        requires { log.now.run ≤ unit }
        ensures { option_map pairs_of result ≡ counted_at (meanings_shown F.Flash self.now) unit count number (tally log.now) }
    {
        if log.number.checked_add(1) == Some(number) && usize::from(count) <= log.run {
            self.records(unit - usize::from(count), count)
        } else {
            None
        }
    }

    // One unit more.
    fn step(&self, unit: usize, log: Log) -> Log
        requires before { log.run ≤ unit }
        requires inside { unit < 2 ^ 63 }
        ensures { tally result ≡ tally_step (meanings_shown F.Flash self.now) unit (tally log) (slice_index_or (meanings_shown F.Flash self.now) unit Noise) }
    {
        match self.meaning(unit) {
            Meaning::Record(_) => Log {
                run: log.run + 1,
                ..log
            },
            Meaning::Commit { count, number } => match self.counted(unit, count, number, &log) {
                Some(change) => Log {
                    number,
                    pairs: merged(&log.pairs, &change),
                    run: 0,
                },
                None => Log { run: 0, ..log },
            },
            Meaning::Noise | Meaning::Header { .. } => Log { run: 0, ..log },
        }
    }

    // Takes the units after the header's records in order.
    fn scan(&self, start: Start, units: usize) -> Log
        requires long { length (shown F.Flash self.now) ≡ units }
        requires few { units ≤ 4096 }
        ensures pairs { pairs_of result.pairs ≡ (closing (opening_at (meanings_shown F.Flash self.now) start)).pairs }
        ensures number { result.number ≡ (closing (opening_at (meanings_shown F.Flash self.now) start)).number }
    {
        (start.next..units).fold(start.log, |log, unit| self.step(unit, log))
    }

    // The place after the last unit that is not blank.
    fn end(&self, units: usize) -> usize
        requires long { length (shown F.Flash self.now) ≡ units }
        ensures { result ≡ end_of (shown F.Flash self.now) }
    {
        (0..units)
            .rev()
            .find(|&unit| self.unit(unit) != Unit::Blank)
            .map_or(0, |unit| unit + 1)
    }

    // What the bank stands for, if its header is lawful.
    pub(crate) fn standing(&self) -> Option<Standing>
        ensures { option_map reading_of result ≡ option_map (reading_in (visible (seen F.Flash self.now.flash.now)) self.now.bank) (opening (meanings_shown F.Flash self.now)) }
    {
        let start = self.start()?;
        let units = self.flash.units_per_bank();
        let log = self.scan(start, units);
        Some(Standing {
            bank: self.bank,
            pairs: log.pairs,
            number: log.number,
            end: self.end(units),
        })
    }
}
