// What is read off the log of a run.
ghost use Rattle.std.specs.Prelude.{◌≡◌, count_by};
ghost use Rattle.layout.specs.Held.{pairs_of};
ghost use Rattle.every_cut.specs.Logs.{is_read, cut_with, number_with, last_cut, last_number};

use flash::faults::Place;
use layout::pairs::Pairs;
use store::entries::Entry;
use store::refusals::Refusal;

// Whether this is a get that answered the value of these pairs.
fn reads(made: &Option<Entry>, pairs: &Pairs) -> bool
    ensures { result ≡ is_read (pairs_of pairs.now) made.now }
{
    match *made {
        Some(
            Entry::Get {
                key,
                answer: Ok(Some(value)),
            },
        ) => pairs.value(key) == Some(value),
        _ => false,
    }
}

// How many of these pairs were read.
pub fn agreeing(log: &[Option<Entry>], pairs: &Pairs) -> usize
    ensures { result ≡ count_by (is_read (pairs_of pairs.now)) log.now }
{
    log.iter().filter(|made| reads(*made, pairs)).count()
}

// Where the last commit so far was cut, with one call more.
fn cut_with(cut: Option<Place>, made: Option<Entry>) -> Option<Place>
    ensures { result ≡ cut_with cut made }
{
    match made {
        Some(
            Entry::Commit {
                answer: Err(Refusal::WriteStopped(place)),
                ..
            },
        ) => Some(place),
        Some(Entry::Commit { .. }) => None,
        _ => cut,
    }
}

// Where the last commit was cut, if it was.
pub fn last_cut(log: &[Option<Entry>]) -> Option<Place>
    ensures { result ≡ last_cut log.now }
{
    log.iter().fold(None, |cut, made| cut_with(cut, *made))
}

// The number of the last recover so far, with one call more.
fn number_with(number: Option<u32>, made: Option<Entry>) -> Option<u32>
    ensures { result ≡ number_with number made }
{
    match made {
        Some(Entry::Recover { answer }) => answer.ok(),
        _ => number,
    }
}

// The number that the last recover answered, unless it was refused.
pub fn last_number(log: &[Option<Entry>]) -> Option<u32>
    ensures { result ≡ last_number log.now }
{
    log.iter()
        .fold(None, |number, made| number_with(number, *made))
}
