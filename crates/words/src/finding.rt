//! What stands at the front of a row of words.

ghost use Rattle.words.specs.Fronts.{Behind, CopiesBytes};

use crate::Tag;

/// The word behind the number of a kind.
pub(crate) fn word_behind(row: &[u64], tag: Tag) -> Option<u64>
    ensures { Behind tag row.now result }
{
    match row {
        [first, word, ..] if *first == tag as u64 => Some(*word),
        _ => None,
    }
}

/// Copies the first words to all of `out`, or nothing where they are too few or one of them is no byte.
pub(crate) fn copy_bytes(words: &[u64], out: &mut [u8]) -> Option<()>
    ensures { CopiesBytes words.now result out.old out.new }
{
    let front = words.get(..out.len())?;

    // All of them first: where one is no byte, `out` stays as it was.
    if !front.iter().all(|w| *w <= u64::from(u8::MAX)) {
        return None;
    }

    // By index: tried with `out.iter_mut().zip(front)`, after which a proof knows no element of `out`.
    for (i, w) in front.iter().enumerate() {
        out[i] = *w as u8;
    }
    Some(())
}
