//! What is printed, as values that `{}` writes.

ghost use Rattle.std.specs.Prelude.{◌≡◌, ◌<◌, [], ◌∷◌, Some};
ghost use Rattle.print.specs.Printing.{glyph, hex_text, words_text};

use std::fmt;

/// The hex digit of a number below 16, as a text: a formatter writes a text as it is, where it tests each character.
fn digit_text(d: u8) -> &'static str
    requires { d < 16 }
    ensures { result.now ≡ glyph d ∷ [] }
{
    match d {
        0 => "0",
        1 => "1",
        2 => "2",
        3 => "3",
        4 => "4",
        5 => "5",
        6 => "6",
        7 => "7",
        8 => "8",
        9 => "9",
        10 => "a",
        11 => "b",
        12 => "c",
        13 => "d",
        14 => "e",
        15 => "f",
        _ => unreachable!(),
    }
}

/// Bytes in hex.
#[derive(Clone, Copy)]
pub(crate) struct InHex<'a>(pub(crate) &'a [u8]);

impl fmt::Display for InHex<'_> {
    ghost output = { λ h. Some (hex_text h.0.now) };

    fn fmt<W: fmt::Write>(&self, f: &mut fmt::Formatter<W>) -> fmt::Result {
        f.write_str("x")?;
        for &b in self.0 {
            f.write_str(digit_text(b / 16))?;
            f.write_str(digit_text(b % 16))?;
        }
        Ok(())
    }
}

/// A row of words in brackets.
#[derive(Clone, Copy)]
pub(crate) struct Row<'a>(pub(crate) &'a [u64]);

impl fmt::Display for Row<'_> {
    ghost output = { λ r. Some (words_text r.0.now) };

    fn fmt<W: fmt::Write>(&self, f: &mut fmt::Formatter<W>) -> fmt::Result {
        f.write_str("(")?;
        if let Some((first, rest)) = self.0.split_first() {
            write!(f, "{first}")?;
            for n in rest {
                write!(f, " {n}")?;
            }
        }
        f.write_str(")")
    }
}
