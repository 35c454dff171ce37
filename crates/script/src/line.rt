//! A line as tokens: brackets, and words between blanks and brackets.

ghost use Rattle.std.specs.Prelude.{◌≡◌, ◌<◌, false, [], ◌∷◌, length, MatchOption, slice_index};
ghost use Rattle.std.specs.Iterator.{item_count};
ghost use Rattle.std.specs.List.{prefix_len};
ghost use Rattle.script.specs.Lexing.{blank, in_word, tokens, uncarried, remark};
ghost use Rattle.script.specs.Cutting.{left, Cut, tok, tok_of, first_of, couple};
ghost use Rattle.script.specs.Shapes.{Reads, a_word_or, an_argument, at_end, a_pair};

use spelling::bad::Bad;
use std::alloc::Global;

/// A piece of a line.
#[derive(Clone, Copy)]
pub enum Token<'a> {
    Open,
    Close,
    Word(&'a [u8]),
}

/// The line without the blanks before it.
fn past_blanks(line: &[u8]) -> &[u8]
    ensures same_tokens { tokens result.now ≡ tokens line.now }
    ensures at_no_blank { 0 < length result.now → blank (slice_index result.now 0) ≡ false }
{
    let mut rest = line;
    while let [b' ' | b'\t', after @ ..] = rest {
        rest = after;
    }
    rest
}

/// Whether the byte may stand in a word.
// Compared one by one: by a pattern of the four, which looks the byte up, a word takes twice the instructions.
fn is_inner(b: u8) -> bool
    ensures tested { result ≡ in_word b }
{
    b != b' ' && b != b'\t' && b != b'(' && b != b')'
}

/// How many bytes the word has that begins the line.
fn word_len(line: &[u8]) -> usize
    ensures up_to_its_end { result ≡ prefix_len in_word line.now }
{
    line.iter()
        .position(|b| !is_inner(*b))
        .unwrap_or(line.len())
}

/// The token that begins the line, and what is left behind it.
fn first_token(line: &[u8]) -> Option<(Token<'_>, &[u8])>
    ensures cut_off { MatchOption result (tokens line.now ≡ []) (λ p. tokens line.now ≡ tok p.0 ∷ tokens p.1.now) }
{
    let line = past_blanks(line);
    match line {
        [] => None,
        [b'(', rest @ ..] => Some((Token::Open, rest)),
        [b')', rest @ ..] => Some((Token::Close, rest)),
        _ => {
            let (word, rest) = line.split_at(word_len(line));
            Some((Token::Word(word), rest))
        }
    }
}

/// What is left of a line that is being cut, and where the memory for what it spells comes from.
#[derive(Clone, Copy)]
pub struct Tokens<'a> {
    rest: &'a [u8],
    pub(crate) heap: Global,
}

/// A name and a value that stood in brackets.
#[derive(Clone, Copy)]
pub struct Pair<'a> {
    pub name: &'a [u8],
    pub value: &'a [u8],
}

impl<'a> Iterator for Tokens<'a> {
    type Item = Token<'a>;

    ghost next_gives = { λ before token after. Cut token (left before) (left after) };

    ghost remaining = { item_count left };

    // A call for each token costs a quarter of the reading of short items.
    #[inline(always)]
    fn next(&mut self) -> Option<Token<'a>> {
        let (token, rest) = first_token(self.rest)?;
        self.rest = rest;
        Some(token)
    }
}

impl<'a> Tokens<'a> {
    /// The whole line, of which nothing is cut off yet.
    pub(crate) fn of(heap: Global, line: &'a [u8]) -> Tokens<'a>
        ensures all_left { left result ≡ tokens line.now }
    {
        Tokens { rest: line, heap }
    }

    /// The next token, which stays where it is.
    pub(crate) fn peek(&self) -> Option<Token<'a>>
        ensures comes_first { tok_of result ≡ first_of (left self.now) }
    {
        let mut ahead = *self;
        ahead.next()
    }

    /// The word that comes next, or the faults that a caller names: at the end, and at a bracket.
    fn word_or(&mut self, at_end: Bad, at_bracket: Bad) -> Result<&'a [u8], Bad>
        ensures the_word { Reads (λ w. w.now) result (a_word_or at_end at_bracket (left self.old)) (left self.new) }
    {
        match self.next().ok_or(at_end)? {
            Token::Word(w) => Ok(w),
            _ => Err(at_bracket),
        }
    }

    /// The word that comes next, as an argument.
    pub(crate) fn word(&mut self) -> Result<&'a [u8], Bad>
        ensures the_argument { Reads (λ w. w.now) result (an_argument (left self.old)) (left self.new) }
    {
        self.word_or(Bad::MissingArgument, Bad::Brackets)
    }

    /// Sees that nothing is left. (What is left is not cut.)
    pub(crate) fn end(&self) -> Result<(), Bad>
        ensures nothing_left { result ≡ at_end (left self.now) }
    {
        if past_blanks(self.rest).is_empty() {
            return Ok(());
        }
        Err(Bad::TooMuch)
    }

    /// The name, the value and the closing bracket behind an opening one, or the fault that a caller names.
    pub(crate) fn pair(&mut self, otherwise: Bad) -> Result<Pair<'a>, Bad>
        ensures the_pair { Reads couple result (a_pair otherwise (left self.old)) (left self.new) }
    {
        let name = self.word_or(Bad::Brackets, otherwise)?;
        let value = self.word_or(Bad::Brackets, otherwise)?;
        match self.next().ok_or(Bad::Brackets)? {
            Token::Close => Ok(Pair { name, value }),
            _ => Err(otherwise),
        }
    }
}

/// The line without a carriage return at its end.
pub(crate) fn trimmed(line: &[u8]) -> &[u8]
    ensures cut_short { result.now ≡ uncarried line.now }
{
    match line {
        [front @ .., b'\r'] => front,
        _ => line,
    }
}

/// Whether the line is no call but printed as it is: it is empty, or begins with a `#`.
pub fn is_remark(line: &[u8]) -> bool
    ensures printed_as_is { result ≡ remark (uncarried line.now) }
{
    matches!(trimmed(line), [] | [b'#', ..])
}
