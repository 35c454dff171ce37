//! Words as a way to write items.

ghost use Rattle.words.specs.Words.{word_code};
ghost use Rattle.words.specs.Laws.{word_laws};

use crate::finding::{copy_bytes, word_behind};
use crate::writing::write_words;
use crate::{Tag, Words};
use carrier::Item;
use queue::coding::Coding;

#[tactic(auto, using(crate::proofs::Fronts::same_numbers))]
impl Coding for Words {
    type Number = u64;

    ghost number = { λ n. n };

    ghost code = { word_code };

    ghost laws = { word_laws };

    fn len(item: Item<&[u8]>) -> usize {
        match item {
            Item::Run(s) => s.len() + 2,
            Item::Fixed(s) => s.len() + 1,
            _ => 2,
        }
    }

    fn write(out: &mut [u64], item: Item<&[u8]>) -> Option<usize> {
        match item {
            Item::Truth(b) => write_words(out, &[Tag::Truth as u64, u64::from(b)], &[]),
            Item::Whole(z) => write_words(out, &[Tag::Whole as u64, z.cast_unsigned()], &[]),
            Item::Single(bits) => write_words(out, &[Tag::Single as u64, u64::from(bits)], &[]),
            Item::Double(bits) => write_words(out, &[Tag::Double as u64, bits], &[]),
            Item::Run(s) => write_words(out, &[Tag::Run as u64, s.len() as u64], s),
            Item::Fixed(s) => write_words(out, &[Tag::Fixed as u64], s),
        }
    }

    fn find_truth(row: &[u64]) -> Option<(bool, usize)> {
        let word = word_behind(row, Tag::Truth)?;
        (word < 2).then_some((word == 1, 2))
    }

    fn find_whole(row: &[u64]) -> Option<(i64, usize)> {
        let word = word_behind(row, Tag::Whole)?;
        Some((word.cast_signed(), 2))
    }

    fn find_single(row: &[u64]) -> Option<(u32, usize)> {
        let bits = u32::try_from(word_behind(row, Tag::Single)?).ok()?;
        Some((bits, 2))
    }

    fn find_double(row: &[u64]) -> Option<(u64, usize)> {
        Some((word_behind(row, Tag::Double)?, 2))
    }

    fn copy_fixed(row: &[u64], out: &mut [u8]) -> Option<usize> {
        match row {
            [first, bytes @ ..] if *first == Tag::Fixed as u64 => copy_bytes(bytes, out)?,
            _ => return None,
        }
        Some(out.len() + 1)
    }

    fn copy_run(row: &[u64], most: usize, out: &mut [u8]) -> Option<(usize, usize)> {
        let len = word_behind(row, Tag::Run)? as usize;
        if len > most.min(out.len()) {
            return None;
        }
        copy_bytes(&row[2..], &mut out[..len])?;
        Some((len, len + 2))
    }
}
