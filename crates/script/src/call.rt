//! The calls of the language, and how a line is read as one.

ghost use Rattle.std.specs.Prelude.{◌≡◌};
ghost use Rattle.script.specs.Cutting.{left};
ghost use Rattle.script.specs.Lexing.{tokens as tokens_of, uncarried};
ghost use Rattle.script.specs.Calls.{sort_name, verb_name, sort_of, opens_by, opening_of, opened, by_verb, call_of, Parses};
ghost use Rattle.script.specs.Shapes.{Meets};

use crate::items::{Items, read_bytes, read_items, read_kinds};
use crate::line::{Token, Tokens, trimmed};
use carrier::Kind;
use spelling::bad::Bad;
use spelling::names::{Named, pick};
use spelling::numbers::size;
use std::alloc::Global;
use transfer::cells::Cell;

/// A line as a call.
#[derive(Drop)]
pub enum Call {
    Carrier(Opening),
    Row,
    Room,
    Waiting,
    Price(Cell, Vec<u8>),
    ItemPut(Items),
    ItemTake(Vec<Kind>),
}

/// The carrier that is to be opened: of a capacity, or on bytes that were written before.
#[derive(Drop)]
pub enum Opening {
    Avro(usize),
    Words(usize),
    AvroWritten(Vec<u8>),
}

/// The word that stands behind `carrier`.
#[derive(Clone, Copy)]
enum Sort {
    Avro,
    Words,
    AvroWritten,
}

const SORTS: [Sort; 3] = [Sort::Avro, Sort::Words, Sort::AvroWritten];

impl Named for Sort {
    ghost called = { λ s. sort_name s };

    fn name(&self) -> &'static str {
        match *self {
            Sort::Avro => "avro",
            Sort::Words => "words",
            Sort::AvroWritten => "avro-written",
        }
    }
}

/// The word that a call begins with.
#[derive(Clone, Copy)]
enum Verb {
    Carrier,
    Row,
    Room,
    Waiting,
    Price,
    ItemPut,
    ItemTake,
}

const VERBS: [Verb; 7] = [
    Verb::Carrier,
    Verb::Row,
    Verb::Room,
    Verb::Waiting,
    Verb::Price,
    Verb::ItemPut,
    Verb::ItemTake,
];

impl Named for Verb {
    ghost called = { λ v. verb_name v };

    fn name(&self) -> &'static str {
        match *self {
            Verb::Carrier => "carrier",
            Verb::Row => "row",
            Verb::Room => "room",
            Verb::Waiting => "waiting",
            Verb::Price => "price",
            Verb::ItemPut => "item-put",
            Verb::ItemTake => "item-take",
        }
    }
}

/// The carrier of a sort, with what it is opened on.
fn opening_of(heap: Global, sort: &[u8], value: &[u8]) -> Result<Opening, Bad>
    ensures as_spelled { Meets opened result (opens_by (sort_of sort.now) value.now) }
{
    match pick(sort, &SORTS).ok_or(Bad::NotACarrier)? {
        Sort::Avro => size(value).map(Opening::Avro),
        Sort::Words => size(value).map(Opening::Words),
        Sort::AvroWritten => read_bytes(heap, value).map(Opening::AvroWritten),
    }
}

/// What stands behind `carrier`.
fn read_opening(tokens: &mut Tokens) -> Result<Opening, Bad>
    ensures as_spelled { Meets opened result (opening_of (left tokens.old)) }
{
    let sort = tokens.word()?;
    let value = tokens.word()?;
    tokens.end()?;
    opening_of(tokens.heap, sort, value)
}

/// What stands behind `price`: one item.
fn read_price(tokens: &mut Tokens) -> Result<Call, Bad>
    ensures as_spelled { Parses result (by_verb Verb.Price (left tokens.old)) }
{
    let Items { cells, bytes } = read_items(tokens)?;
    match cells.as_slice() {
        [] => Err(Bad::MissingArgument),
        [cell] => Ok(Call::Price(*cell, bytes)),
        _ => Err(Bad::TooMuch),
    }
}

/// What stands behind the verb.
fn read_call(verb: Verb, tokens: &mut Tokens) -> Result<Call, Bad>
    ensures as_spelled { Parses result (by_verb verb (left tokens.old)) }
{
    match verb {
        Verb::Carrier => read_opening(tokens).map(Call::Carrier),
        Verb::Row => tokens.end().and(Ok(Call::Row)),
        Verb::Room => tokens.end().and(Ok(Call::Room)),
        Verb::Waiting => tokens.end().and(Ok(Call::Waiting)),
        Verb::Price => read_price(tokens),
        Verb::ItemPut => read_items(tokens).map(Call::ItemPut),
        Verb::ItemTake => read_kinds(tokens).map(Call::ItemTake),
    }
}

/// The call that the line spells, or why it spells none.
pub fn parse(heap: Global, line: &[u8]) -> Result<Call, Bad>
    ensures as_spelled { Parses result (call_of (tokens_of (uncarried line.now))) }
{
    let mut tokens = Tokens::of(heap, trimmed(line));
    match tokens.next().ok_or(Bad::NoVerb)? {
        Token::Word(w) => {
            let verb = pick(w, &VERBS).ok_or(Bad::UnknownVerb)?;
            read_call(verb, &mut tokens)
        }
        _ => Err(Bad::Brackets),
    }
}
