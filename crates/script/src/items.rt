//! Items and kinds as words and pairs in brackets.

ghost use Rattle.std.specs.Prelude.{◌≡◌, vec_items, true, false};
ghost use Rattle.carrier.specs.Meaning.{datum};
ghost use Rattle.script.specs.Cutting.{couple, left};
ghost use Rattle.std.specs.Option.{ok_or};
ghost use Rattle.texts.specs.Encoded.{bytes_of, is_text};
ghost use Rattle.spelling.specs.declared.bad.Bad.TheVariants.{NotBytes};
ghost use Rattle.script.specs.Laying.{Extends, Spans, Lays, Listed};
ghost use Rattle.script.specs.Owning.{owned};
ghost use Rattle.script.specs.Nouns.{noun_name, truth_of, spanned_of, item_of, items_of, kind_named, kind_of, kinds_of};
ghost use Rattle.script.specs.Shapes.{Meets};

use crate::line::{Pair, Token, Tokens};
use carrier::{Item, Kind};
use spelling::bad::Bad;
use spelling::names::{Named, pick};
use spelling::numbers::{size, whole};
use std::alloc::Global;
use texts::{add_bytes, add_text, double, single};
use transfer::cells::{Cell, Span};

/// Items one after another: a cell for each, and the bytes of runs and fixeds behind one another. (An item
/// with bytes of its own would take 16 bytes more, and a run or a fixed a heap block beside.)
#[derive(Drop)]
pub struct Items {
    pub cells: Vec<Cell>,
    pub bytes: Vec<u8>,
}

/// The word that items and kinds begin with.
#[derive(Clone, Copy)]
pub enum Noun {
    Truth,
    Whole,
    Single,
    Double,
    Run,
    Fixed,
}

const NOUNS: [Noun; 6] = [
    Noun::Truth,
    Noun::Whole,
    Noun::Single,
    Noun::Double,
    Noun::Run,
    Noun::Fixed,
];

impl Named for Noun {
    ghost called = { λ n. noun_name n };

    fn name(&self) -> &'static str {
        match *self {
            Noun::Truth => "truth",
            Noun::Whole => "whole",
            Noun::Single => "single",
            Noun::Double => "double",
            Noun::Run => "run",
            Noun::Fixed => "fixed",
        }
    }
}

fn truth(word: &[u8]) -> Result<bool, Bad>
    ensures the_truth { result ≡ truth_of word.now }
{
    pick(word, &[true, false]).ok_or(Bad::NotAnItem)
}

/// Whether the value is meant as a text.
fn is_quoted(value: &[u8]) -> bool
    ensures tested { result ≡ is_text value.now }
{
    value.first() == Some(&b'"')
}

/// The bytes that a word as x0aff spells.
pub(crate) fn read_bytes(heap: Global, word: &[u8]) -> Result<Vec<u8>, Bad>
    ensures spelled { Meets vec_items result (ok_or (bytes_of word.now) NotBytes) }
{
    let mut out = Vec::new(heap);
    add_bytes(&mut out, word)?;
    Ok(out)
}

/// Adds the bytes of a run, for which a text may stand.
fn add_run(bytes: &mut Vec<u8>, value: &[u8]) -> Result<(), Bad>
    ensures added { Extends result (spanned_of true value.now) bytes.old.items bytes.new.items }
{
    if is_quoted(value) {
        return add_text(bytes, value);
    }
    add_bytes(bytes, value)
}

/// Adds the bytes of a run, and says where they lie.
fn run(bytes: &mut Vec<u8>, value: &[u8]) -> Result<Span, Bad>
    ensures laid { Spans result (spanned_of true value.now) bytes.old.items bytes.new.items }
{
    let start = bytes.len();
    add_run(bytes, value)?;
    let len = bytes.len() - start;
    Ok(Span { start, len })
}

/// Adds the bytes of a fixed, and says where they lie.
fn fixed(bytes: &mut Vec<u8>, value: &[u8]) -> Result<Span, Bad>
    ensures laid { Spans result (spanned_of false value.now) bytes.old.items bytes.new.items }
{
    let start = bytes.len();
    add_bytes(bytes, value)?;
    let len = bytes.len() - start;
    Ok(Span { start, len })
}

/// Lays an item: a cell, and the bytes of a run or a fixed behind the others.
pub(crate) fn cell(bytes: &mut Vec<u8>, pair: Pair) -> Result<Cell, Bad>
    ensures laid { Lays result (item_of (couple pair.entry)) bytes.old.items bytes.new.items }
{
    let value = pair.value;
    match pick(pair.name, &NOUNS).ok_or(Bad::NotAnItem)? {
        Noun::Truth => truth(value).map(Cell::Truth),
        Noun::Whole => whole(value).map(Cell::Whole),
        Noun::Single => single(value).map(Cell::Single),
        Noun::Double => double(value).map(Cell::Double),
        Noun::Run => run(bytes, value).map(Cell::Run),
        Noun::Fixed => fixed(bytes, value).map(Cell::Fixed),
    }
}

/// The kind that a word alone names.
pub(crate) fn plain_kind(word: &[u8]) -> Result<Kind, Bad>
    ensures the_kind { result ≡ kind_named word.now }
{
    match pick(word, &NOUNS) {
        Some(Noun::Truth) => Ok(Kind::Truth),
        Some(Noun::Whole) => Ok(Kind::Whole),
        Some(Noun::Single) => Ok(Kind::Single),
        Some(Noun::Double) => Ok(Kind::Double),
        _ => Err(Bad::NotAKind),
    }
}

/// The kind that a name and a number in brackets spell.
pub(crate) fn sized_kind(pair: Pair) -> Result<Kind, Bad>
    ensures the_kind { result ≡ kind_of (couple pair.entry) }
{
    let value = pair.value;
    match pick(pair.name, &NOUNS) {
        Some(Noun::Run) => size(value).map(Kind::Run),
        Some(Noun::Fixed) => size(value).map(Kind::Fixed),
        _ => Err(Bad::NotAKind),
    }
}

/// The items that stand up to the end of the line. (Its own loop, since a kind needs no byte table.)
pub(crate) fn read_items(tokens: &mut Tokens) -> Result<Items, Bad>
    ensures as_spelled { Listed result (items_of (left tokens.old)) }
{
    let mut cells = Vec::new(tokens.heap);
    let mut bytes = Vec::new(tokens.heap);
    while let Some(token) = tokens.next() {
        match token {
            Token::Open => {
                let pair = tokens.pair(Bad::NotAnItem)?;
                let laid = cell(&mut bytes, pair)?;
                cells.push(laid)?;
            }
            Token::Close => return Err(Bad::Brackets),
            Token::Word(_) => return Err(Bad::NotAnItem),
        }
    }
    Ok(Items { cells, bytes })
}

/// The kinds that stand up to the end of the line.
pub(crate) fn read_kinds(tokens: &mut Tokens) -> Result<Vec<Kind>, Bad>
    ensures as_spelled { Meets vec_items result (kinds_of (left tokens.old)) }
{
    let mut all = Vec::new(tokens.heap);
    while let Some(token) = tokens.next() {
        match token {
            Token::Open => {
                let pair = tokens.pair(Bad::NotAKind)?;
                all.push(sized_kind(pair)?)?;
            }
            Token::Close => return Err(Bad::Brackets),
            Token::Word(w) => all.push(plain_kind(w)?)?,
        }
    }
    Ok(all)
}

/// The item, with the bytes that it owns lent. (No `From`: both types are other crates'.)
pub fn lent<'a>(item: &'a Item<Vec<u8>>) -> Item<&'a [u8]>
    ensures same { datum result ≡ owned item.now }
{
    match item {
        Item::Truth(b) => Item::Truth(*b),
        Item::Whole(z) => Item::Whole(*z),
        Item::Single(bits) => Item::Single(*bits),
        Item::Double(bits) => Item::Double(*bits),
        Item::Run(bytes) => Item::Run(bytes.as_slice()),
        Item::Fixed(bytes) => Item::Fixed(bytes.as_slice()),
    }
}

#[cfg(test)]
mod tests {
    use super::*;
    use std::test::Fail;

    #[test]
    fn lends_what_it_owns(rt: HostRuntime) -> Result<(), Fail> {
        let run = Item::Run([7, 8].to_vec(rt.alloc())?);
        let fixed = Item::Fixed([7, 8].to_vec(rt.alloc())?);
        assert!(rt; matches!(lent(&run), Item::Run([7, 8])));
        assert!(rt; matches!(lent(&fixed), Item::Fixed([7, 8])));
        assert!(rt; matches!(lent(&Item::Whole(-3)), Item::Whole(-3)));
        Ok(())
    }
}
