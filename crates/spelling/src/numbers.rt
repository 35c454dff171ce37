//! Numbers in decimal: digits alone, leading zeros allowed, a minus where the number has a sign.

ghost use Rattle.std.specs.Prelude.{◌≡◌, ◌^◌};
ghost use Rattle.std.specs.Option.{ok_or};
ghost use Rattle.spelling.specs.Decimals.{digit_of, decimal_of, under, Converts, minus, signed_of, fitting};
ghost use Rattle.spelling.specs.declared.bad.Bad.TheVariants.{NotANumber};

use crate::bad::Bad;

/// What the digit stands for.
fn digit(b: u8) -> Option<u32>
    ensures the_digit { result ≡ digit_of b }
{
    char::from(b).to_digit(10)
}

/// The number that the word spells, if it spells one of 64 bits.
pub(crate) fn natural(word: &[u8]) -> Option<u64>
    ensures spelled { result ≡ under (2 ^ 64) (decimal_of word.now) }
{
    if word.is_empty() {
        return None;
    }
    let mut n: u64 = 0;
    for b in word {
        let d = digit(*b)?;
        n = n.checked_mul(10)?.checked_add(u64::from(d))?;
    }
    Some(n)
}

/// The same in another type, if that holds it.
fn number<T: TryFrom<u64>>(word: &[u8]) -> Option<T>
where
    T::Error: Drop,
    ensures converted { Converts T.try_from_gives (under (2 ^ 64) (decimal_of word.now)) result }
{
    T::try_from(natural(word)?).ok()
}

// `size` and `short` stay two: each says its limit, which one for all types would leave to `TryFrom`.
/// The same as a count or a length.
pub fn size(word: &[u8]) -> Result<usize, Bad>
    ensures spelled { result ≡ ok_or (under (2 ^ 64) (decimal_of word.now)) NotANumber }
{
    number::<usize>(word).ok_or(Bad::NotANumber)
}

/// The same as a number of 32 bits.
pub fn short(word: &[u8]) -> Result<u32, Bad>
    ensures spelled { result ≡ ok_or (under (2 ^ 32) (decimal_of word.now)) NotANumber }
{
    number::<u32>(word).ok_or(Bad::NotANumber)
}

/// The number with a minus before it, if 64 bits with a sign hold it.
fn negated(n: u64) -> Option<i64>
    ensures turned { result ≡ fitting (minus n) }
{
    0i64.checked_sub_unsigned(n)
}

/// The number that the word spells, a minus before it where it is negative.
fn signed(word: &[u8]) -> Option<i64>
    ensures spelled { result ≡ signed_of word.now }
{
    match word {
        [b'-', digits @ ..] => negated(natural(digits)?),
        _ => number(word),
    }
}

/// The same, or why there is none.
pub fn whole(word: &[u8]) -> Result<i64, Bad>
    ensures spelled { result ≡ ok_or (signed_of word.now) NotANumber }
{
    signed(word).ok_or(Bad::NotANumber)
}
