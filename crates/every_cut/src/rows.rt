// The rows of the table.
ghost use Rattle.std.specs.Prelude.{◌≡◌, count_by};
ghost use Rattle.every_cut.specs.Rows.{stands_of, ReadOff, is_cut, stands_as, totals_of};

use crate::calibrations::second_pairs;
use crate::logs::{agreeing, last_cut, last_number};
use crate::ways::Case;
use figures::example::example_pairs;
use flash::faults::Place;
use store::entries::Entry;

#[derive(Clone, Copy, PartialEq, Eq)]
pub enum Stands {
    First,
    Second,
    Mixed,
}

// The case that was tried; the write that was cut, if one was; the number that the recover
// answered, unless it was refused; and how many of the coefficients that were read then are the
// first calibration's and how many the second's.
#[derive(Clone, Copy)]
pub struct Row {
    pub case: Case,
    pub cut: Option<Place>,
    pub number: Option<u32>,
    pub first: usize,
    pub second: usize,
}

impl Row {
    pub fn stands(self) -> Stands
        ensures { result ≡ stands_of self }
    {
        match (self.first, self.second) {
            (11, 0) => Stands::First,
            (0, 11) => Stands::Second,
            _ => Stands::Mixed,
        }
    }
}

// The row of a log.
pub fn read_row(case: Case, log: &[Option<Entry>]) -> Row
    ensures case { result.case ≡ case }
    ensures read { ReadOff log.now result }
{
    Row {
        case,
        cut: last_cut(log),
        number: last_number(log),
        first: agreeing(log, &example_pairs()),
        second: agreeing(log, &second_pairs()),
    }
}

// What rows come to: how many there are, in how many a write was cut, and in how many which
// calibration stands.
#[derive(Clone, Copy)]
pub struct Totals {
    pub rows: usize,
    pub cut: usize,
    pub first: usize,
    pub second: usize,
    pub mixed: usize,
}

fn cut_rows(rows: &[Row]) -> usize
    ensures { result ≡ count_by is_cut rows.now }
{
    rows.iter().filter(|row| row.cut.is_some()).count()
}

fn standing(rows: &[Row], stands: Stands) -> usize
    ensures { result ≡ count_by (stands_as stands) rows.now }
{
    rows.iter().filter(|row| row.stands() == stands).count()
}

impl Totals {
    pub fn of(rows: &[Row]) -> Totals
        ensures { result ≡ totals_of rows.now }
    {
        Totals {
            rows: rows.len(),
            cut: cut_rows(rows),
            first: standing(rows, Stands::First),
            second: standing(rows, Stands::Second),
            mixed: standing(rows, Stands::Mixed),
        }
    }
}
