//! What words of the script language spell: bytes and bits in hex, and texts in quotes. docs/SCRIPT.md has the
//! language in words.

#![tactic(auto)]

ghost use Rattle.std.specs.Prelude.{◌≡◌, ◌^◌, ◌<◌, ◌≤◌, IfSome};
ghost use Rattle.std.specs.Option.{ok_or};
ghost use Rattle.texts.specs.Encoded.{hex_digit, byte_of, bytes_of, bits_of, shown, text_of, Gains};
ghost use Rattle.spelling.specs.declared.bad.Bad.TheVariants.{NotBytes, NotBits, NotText};

use spelling::bad::Bad;

/// What the hex digit stands for.
fn nibble(b: u8) -> Option<u8>
    ensures the_digit { result ≡ hex_digit b }
{
    match b {
        b'0'..=b'9' => Some(b - b'0'),
        b'a'..=b'f' => Some(b - b'a' + 10),
        b'A'..=b'F' => Some(b - b'A' + 10),
        _ => None,
    }
}

/// The byte that two hex digits spell.
fn byte(high: u8, low: u8) -> Option<u8>
    ensures the_byte { result ≡ byte_of high low }
{
    let h = nibble(high)?;
    let l = nibble(low)?;
    Some(16 * h + l)
}

/// Adds the bytes that a word as x0aff spells. Where it spells none, some may have been added.
pub fn add_bytes(out: &mut Vec<u8>, word: &[u8]) -> Result<(), Bad>
    ensures added { Gains NotBytes result (bytes_of word.now) out.old.items out.new.items }
{
    let [b'x', digits @ ..] = word else {
        return Err(Bad::NotBytes);
    };
    let mut rest = digits;
    while let [high, low, after @ ..] = rest {
        out.push(byte(*high, *low).ok_or(Bad::NotBytes)?)?;
        rest = after;
    }
    if rest.is_empty() {
        Ok(())
    } else {
        Err(Bad::NotBytes)
    }
}

/// The number of which a word as x0000000a spells all the hex digits, the highest first.
fn bits(word: &[u8], digits: usize) -> Option<u64>
    requires { digits ≤ 16 }
    ensures spelled { result ≡ bits_of digits word.now }
    ensures small { IfSome result (λ n. n < 16 ^ digits) }
{
    let [b'x', rest @ ..] = word else {
        return None;
    };
    if rest.len() != digits {
        return None;
    }
    let mut n: u64 = 0;
    for b in rest {
        n = n * 16 + u64::from(nibble(*b)?);
    }
    Some(n)
}

// `single` and `double` stay two: the digits and the type go together, which a type parameter would not say.
/// The bits of a single, of which the word spells all eight digits.
pub fn single(word: &[u8]) -> Result<u32, Bad>
    ensures spelled { result ≡ ok_or (bits_of 8 word.now) NotBits }
{
    bits(word, 8).map(|n| n as u32).ok_or(Bad::NotBits)
}

/// The bits of a double, of which the word spells all sixteen digits.
pub fn double(word: &[u8]) -> Result<u64, Bad>
    ensures spelled { result ≡ ok_or (bits_of 16 word.now) NotBits }
{
    bits(word, 16).ok_or(Bad::NotBits)
}

/// Whether the byte stands in a text as it is.
pub fn is_shown(b: u8) -> bool
    ensures tested { result ≡ shown b }
{
    b > 0x20 && b < 0x7f && b != b'"' && b != b'\\' && b != b'(' && b != b')'
}

/// Adds the bytes of a text in quotes. Where the word is none, some may have been added.
pub fn add_text(out: &mut Vec<u8>, word: &[u8]) -> Result<(), Bad>
    ensures added { Gains NotText result (text_of word.now) out.old.items out.new.items }
{
    let [b'"', inner @ ..] = word else {
        return Err(Bad::NotText);
    };
    let mut rest = inner;
    while let [b, after @ ..] = rest {
        if *b == b'\\' {
            let [_, b'x', high, low, behind @ ..] = rest else {
                return Err(Bad::NotText);
            };
            out.push(byte(*high, *low).ok_or(Bad::NotText)?)?;
            rest = behind;
        } else if is_shown(*b) {
            out.push(*b)?;
            rest = after;
        } else if *b == b'"' && after.is_empty() {
            return Ok(());
        } else {
            return Err(Bad::NotText);
        }
    }
    Err(Bad::NotText)
}
