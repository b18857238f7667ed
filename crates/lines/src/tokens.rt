// The words of a line, each a part of the line with the place at which it begins.
ghost use Rattle.std.specs.Prelude.{◌≡◌, map, not, [], ◌∷◌, MatchOption};
ghost use Rattle.std.specs.List.{position, position_or_len};
ghost use Rattle.std.specs.Option.{option_map};
ghost use Rattle.std.specs.Iterator.{YieldsFirstBy, item_count};
ghost use Rattle.lines.specs.Words.{is_space, words, saying, AreWords};
ghost use Rattle.lines.specs.Tokens.{says, token_text, number_text, tokens_from, tokens_left};

const SPACE: u8 = b' ';

// A word of a line and its place, the number of bytes before it.
#[derive(Clone, Copy)]
pub enum Token<'a> {
    // begins as a number does, with a digit or a minus sign
    Number { text: &'a [u8], at: usize },
    Name { text: &'a [u8], at: usize },
}

impl<'a> Token<'a> {
    // The word's bytes.
    pub fn text(self) -> &'a [u8]
        ensures { result.now ≡ token_text self.entry }
    {
        match self {
            Token::Number { text, .. } | Token::Name { text, .. } => text,
        }
    }

    // The bytes of a number's word; no other word writes a number.
    pub fn number(self) -> Option<&'a [u8]>
        ensures { option_map (λ t. t.now) result ≡ number_text self.entry }
    {
        match self {
            Token::Number { text, .. } => Some(text),
            Token::Name { .. } => None,
        }
    }
}

// The place of the first byte that is no space.
fn gap(rest: &[u8]) -> Option<usize>
    ensures { result ≡ position (λ b. not (is_space b)) rest.now }
{
    rest.iter().position(|b| *b != SPACE)
}

// How many bytes stand before the first space.
fn word_len(rest: &[u8]) -> usize
    ensures { result ≡ position_or_len is_space rest.now }
{
    rest.iter().take_while(|b| **b != SPACE).count()
}

fn token_at(text: &[u8], at: usize) -> Token<'_>
    ensures { says result ≡ saying (at, text.now) }
{
    match text {
        [b'0'..=b'9' | b'-', ..] => Token::Number { text, at },
        _ => Token::Name { text, at },
    }
}

// The first word from a place on, and the place behind it.
fn first_token(line: &[u8], from: usize) -> Option<(Token<'_>, usize)>
    ensures { MatchOption result (tokens_from from line.now ≡ []) (λ r. tokens_from from line.now ≡ says r.0 ∷ tokens_from r.1 line.now) }
{
    // past the end there is no word left
    let rest = line.get(from..)?;
    let gap = gap(rest)?;
    let word = &rest[gap..];
    let text = &word[..word_len(word)];
    let at = from + gap;
    Some((token_at(text, at), at + text.len()))
}

// Gives the words of a line, one after the other.
#[derive(Drop)]
pub struct Words<'a> {
    line: &'a [u8],
    // where the next word is looked for
    from: usize,
}

impl<'a> Words<'a> {
    // From the line's first byte on. The second clause says what the words of a line are, apart from how they are worked out.
    pub fn new(line: &'a [u8]) -> Self
        ensures tokens { tokens_left result ≡ map saying (words line.now) }
        ensures parted { AreWords line.now 0 (words line.now) }
    {
        Words { line, from: 0 }
    }
}

impl<'a> Iterator for Words<'a> {
    type Item = Token<'a>;

    ghost next_gives = { YieldsFirstBy says tokens_left };

    ghost remaining = { item_count tokens_left };

    fn next(&mut self) -> Option<Token<'a>> {
        let (token, end) = first_token(self.line, self.from)?;
        self.from = end;
        Some(token)
    }
}
