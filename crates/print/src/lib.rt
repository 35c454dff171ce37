//! What is printed of numbers, bytes, texts and items. docs/SCRIPT.md has the language in words.

#![tactic(auto)]

ghost use Rattle.std.specs.Prelude.{◌≡◌, ◌<◌, ◌∷◌, string_bytes, decimal};
ghost use Rattle.std.specs.List.{AllByRecursion};
ghost use Rattle.carrier.specs.Meaning.{datum};
ghost use Rattle.print.specs.Laws.{NumberBack, BytesBack, TextBack, RunBack, ItemBack};
ghost use Rattle.print.specs.Printing.{Adds, glyph, hex_digits, hex_text, byte_text, text_text, words_text, noun_in, value_text, item_text, cells_text};

mod display;

use crate::display::{InHex, Row};
use carrier::Item;
use carrier::held::item_held;
use script::items::Noun;
use spelling::names::Named;
use std::alloc::AllocError;
use texts::is_shown;
use transfer::cells::{Cell, item_in};

/// The number in decimal.
pub fn number(out: &mut String, n: u64) -> Result<(), AllocError>
    ensures added { Adds result (decimal n) (string_bytes out.old) (string_bytes out.new) }
    ensures reads_back { NumberBack n }
{
    write!(out, "{n}")
}

// Digits and texts are pushed, and not written by a `Display`: a formatter tests each character anew, which takes twice
// as long. Bytes in hex are written by one, in pieces that it takes as they are.

/// The hex digit of a number below 16.
fn digit(d: u8) -> char
    requires { d < 16 }
    ensures the_digit { result ≡ glyph d }
    ensures ascii { result < 128 }
{
    if d < 10 {
        (b'0' + d) as char
    } else {
        (b'a' + d - 10) as char
    }
}

/// So many hex digits of the number, the lowest last.
fn add_digits(out: &mut String, n: u64, count: u8) -> Result<(), AllocError>
    ensures added { Adds result (hex_digits count n) (string_bytes out.old) (string_bytes out.new) }
{
    if count == 0 {
        return Ok(());
    }
    add_digits(out, n / 16, count - 1)?;
    out.push(digit((n % 16) as u8))
}

/// The bytes in hex.
pub fn hex(out: &mut String, bytes: &[u8]) -> Result<(), AllocError>
    ensures added { Adds result (hex_text bytes.now) (string_bytes out.old) (string_bytes out.new) }
    ensures read_back { BytesBack bytes.now }
{
    write!(out, "{}", InHex(bytes))
}

/// A byte of a text, as it is or as an escape.
fn text_byte(out: &mut String, b: u8) -> Result<(), AllocError>
    ensures added { Adds result (byte_text b) (string_bytes out.old) (string_bytes out.new) }
{
    if is_shown(b) {
        return out.push(b as char);
    }
    out.push_str("\\x")?;
    add_digits(out, u64::from(b), 2)
}

/// The bytes as a text in quotes.
pub(crate) fn text(out: &mut String, bytes: &[u8]) -> Result<(), AllocError>
    ensures added { Adds result (text_text bytes.now) (string_bytes out.old) (string_bytes out.new) }
    ensures reads_back { TextBack bytes.now }
{
    out.push_str("\"")?;
    for b in bytes {
        text_byte(out, *b)?;
    }
    out.push_str("\"")
}

/// A row of words in brackets.
pub fn words(out: &mut String, row: &[u64]) -> Result<(), AllocError>
    ensures added { Adds result (words_text row.now) (string_bytes out.old) (string_bytes out.new) }
    ensures numbers_read_back { AllByRecursion NumberBack row.now }
{
    write!(out, "{}", Row(row))
}

/// So many hex digits of the number behind an x.
fn bits(out: &mut String, n: u64, count: u8) -> Result<(), AllocError>
    ensures added { Adds result (120 ∷ hex_digits count n) (string_bytes out.old) (string_bytes out.new) }
{
    out.push_str("x")?;
    add_digits(out, n, count)
}

/// The noun of the item.
fn noun_of(item: Item<&[u8]>) -> Noun
    ensures its_noun { result ≡ noun_in (datum item.entry) }
{
    match item {
        Item::Truth(_) => Noun::Truth,
        Item::Whole(_) => Noun::Whole,
        Item::Single(_) => Noun::Single,
        Item::Double(_) => Noun::Double,
        Item::Run(_) => Noun::Run,
        Item::Fixed(_) => Noun::Fixed,
    }
}

/// What stands behind an item's name.
fn value(out: &mut String, item: Item<&[u8]>) -> Result<(), AllocError>
    ensures added { Adds result (value_text (datum item.entry)) (string_bytes out.old) (string_bytes out.new) }
{
    match item {
        Item::Truth(b) => write!(out, "{b}"),
        Item::Whole(z) => write!(out, "{z}"),
        Item::Single(n) => bits(out, u64::from(n), 8),
        Item::Double(n) => bits(out, n, 16),
        Item::Run(s) => text(out, s),
        Item::Fixed(s) => hex(out, s),
    }
}

/// An item in brackets.
#[tactic(auto, using(crate::proofs::Back::run_back, crate::proofs::Back::item_back))]
pub fn item(out: &mut String, item: Item<&[u8]>) -> Result<(), AllocError>
    ensures added { Adds result (item_text (datum item.entry)) (string_bytes out.old) (string_bytes out.new) }
    ensures run_reads_back { RunBack (datum item.entry) }
    ensures reads_back { ItemBack (datum item.entry) }
{
    // That the item lies in its ranges is known only of bytes at hand, not of those inside an item.
    item_held(item);
    out.push_str("(")?;
    out.push_str(noun_of(item).name())?;
    out.push_str(" ")?;
    value(out, item)?;
    out.push_str(")")
}

/// Items one after another, a blank before each.
pub fn items(out: &mut String, cells: &[Cell], bytes: &[u8]) -> Result<(), AllocError>
    ensures added { Adds result (cells_text bytes.now cells.now) (string_bytes out.old) (string_bytes out.new) }
{
    for cell in cells {
        out.push_str(" ")?;
        item(out, item_in(*cell, bytes))?;
    }
    Ok(())
}
