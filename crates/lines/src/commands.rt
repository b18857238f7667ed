// The commands of a session, one for each line.
ghost use Rattle.std.specs.Prelude.{◌≡◌, map};
ghost use Rattle.layout.specs.Catalogue.{key_named as key_of};
ghost use Rattle.lines.specs.Tokens.{token_text, IsOfItsKind};
ghost use Rattle.lines.specs.Words.{words};
ghost use Rattle.lines.specs.Commands.{alone, with_one, with_two, with_three, command_in, command_of};

use crate::numbers::{signed_32, unsigned_8, unsigned_32, unsigned_64};
use crate::tokens::{Token, Words};
use layout::catalogue::key_named;
use std::str;

// What a line asks for. A key is 0 where the catalogue has no such name; raw values are taken as they come.
#[derive(Clone, Copy, PartialEq, Eq, Debug)]
pub enum Command {
    // one more entry of the simulator's plan
    Plan {
        charge: u32,
        residue: u8,
        pattern: u64,
    },
    Format,
    Recover,
    Begin,
    Put {
        key: u8,
        value: i32,
    },
    Commit,
    Abandon,
    Get {
        key: u8,
    },
    Temperature {
        ut: i32,
    },
    Pressure {
        up: i32,
    },
}

// The most bytes that a line may have.
const LONGEST: usize = 80;

// The key that a word names; 0 for bytes that are no text, as for every other unknown name.
#[tactic(auto, using(crate::proofs::Names::no_text))]
fn key(word: &[u8]) -> u8
    ensures { result ≡ key_of word.now }
{
    match str::from_utf8(word) {
        Ok(name) => key_named(name),
        Err(_) => 0,
    }
}

fn of_one_word(verb: &[u8]) -> Option<Command>
    ensures { result ≡ alone verb.now }
{
    match verb {
        b"format" => Some(Command::Format),
        b"recover" => Some(Command::Recover),
        b"begin" => Some(Command::Begin),
        b"commit" => Some(Command::Commit),
        b"abandon" => Some(Command::Abandon),
        _ => None,
    }
}

fn of_two_words(verb: &[u8], argument: Token<'_>) -> Option<Command>
    requires { IsOfItsKind argument }
    ensures { result ≡ with_one verb.now (token_text argument.entry) }
{
    match verb {
        b"get" => Some(Command::Get {
            key: key(argument.text()),
        }),
        b"temp" => Some(Command::Temperature {
            ut: signed_32(argument.number()?)?,
        }),
        b"press" => Some(Command::Pressure {
            up: signed_32(argument.number()?)?,
        }),
        _ => None,
    }
}

fn of_three_words(verb: &[u8], name: Token<'_>, value: Token<'_>) -> Option<Command>
    requires { IsOfItsKind value }
    ensures { result ≡ with_two verb.now (token_text name.entry) (token_text value.entry) }
{
    match verb {
        b"put" => Some(Command::Put {
            key: key(name.text()),
            value: signed_32(value.number()?)?,
        }),
        _ => None,
    }
}

fn of_four_words(
    verb: &[u8],
    charge: Token<'_>,
    residue: Token<'_>,
    pattern: Token<'_>,
) -> Option<Command>
    requires charge { IsOfItsKind charge }
    requires residue { IsOfItsKind residue }
    requires pattern { IsOfItsKind pattern }
    ensures { result ≡ with_three verb.now (token_text charge.entry) (token_text residue.entry) (token_text pattern.entry) }
{
    match verb {
        b"plan" => Some(Command::Plan {
            charge: unsigned_32(charge.number()?)?,
            residue: unsigned_8(residue.number()?)?,
            pattern: unsigned_64(pattern.number()?)?,
        }),
        _ => None,
    }
}

// The command that the words of a line make.
fn of_words(line: &[u8]) -> Option<Command>
    ensures { result ≡ command_in (map (λ w. w.1) (words line.now)) }
{
    let mut words = Words::new(line);
    let verb = words.next()?.text();
    let Some(first) = words.next() else {
        return of_one_word(verb);
    };
    let Some(second) = words.next() else {
        return of_two_words(verb, first);
    };
    let Some(third) = words.next() else {
        return of_three_words(verb, first, second);
    };
    match words.next() {
        None => of_four_words(verb, first, second, third),
        Some(_) => None,
    }
}

// The command of a line, if it is one.
pub fn command_of(line: &[u8]) -> Option<Command>
    ensures { result ≡ command_of line.now }
{
    if line.len() <= LONGEST {
        of_words(line)
    } else {
        None
    }
}
