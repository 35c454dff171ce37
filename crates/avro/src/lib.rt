//! The Avro carrier: a queue of bytes in which items stand in Avro's binary codes.

#![tactic(auto)]

ghost use Rattle.std.specs.Prelude.{◌≡◌, ℕ, [], length, map};
ghost use Rattle.carrier.specs.Items.{Laws};
ghost use Rattle.queue.specs.Queues.{state_of};
ghost use Rattle.avro.specs.Avro.{avro};
ghost use Rattle.avro.specs.Codes.{avro_laws};
ghost use Rattle.avro.specs.Samples.{Published, published};

mod bytes;
mod groups;

use bytes::{code_len, find_run, write_code};
use carrier::Item;
use groups::{read_groups, unzigzag};
use queue::coding::Coding;
use queue::lent::Queue;

/// Avro's binary codes, a number of the row being a byte.
#[derive(Clone, Copy)]
pub struct Avro;

/// What waits stands in Avro's codes.
pub type AvroCarrier<'a> = Queue<'a, Avro>;

/// An empty carrier over memory to fill.
pub fn on_memory<'a>(bytes: &'a mut [u8]) -> AvroCarrier<'a>
    ensures empty { state_of result ≡ record { row = []; capacity = length bytes.old; count = 0 } }
    ensures keeps_both_laws { Laws avro }
    ensures published_codes { Published }
{
    Queue::on_memory(bytes)
}

/// A carrier over written bytes, which wait. Nothing can be put.
pub fn on_written<'a>(bytes: &'a mut [u8]) -> AvroCarrier<'a>
    ensures waiting { state_of result ≡ record { row = bytes.old; capacity = 0; count = 0 } }
{
    Queue::on_written(bytes)
}

impl Coding for Avro {
    type Number = u8;

    ghost number = { λ b. b };

    ghost code = { avro };

    ghost laws = { avro_laws };

    ghost samples = { record { says = Published; holds = published } };

    fn len(item: Item<&[u8]>) -> usize {
        code_len(item)
    }

    fn write(out: &mut [u8], item: Item<&[u8]>) -> Option<usize> {
        let n = Self::len(item);
        if n > out.len() {
            return None;
        }
        write_code(&mut out[..n], item);
        Some(n)
    }

    fn find_truth(row: &[u8]) -> Option<(bool, usize)> {
        match row {
            [0, ..] => Some((false, 1)),
            [1, ..] => Some((true, 1)),
            _ => None,
        }
    }

    fn find_whole(row: &[u8]) -> Option<(i64, usize)> {
        let (n, k) = read_groups(row, 9)?;
        Some((unzigzag(n), k))
    }

    // Two lines for each width: the library has no one call for both.
    fn find_single(row: &[u8]) -> Option<(u32, usize)> {
        let bytes = row.first_chunk::<4>()?;
        Some((u32::from_le_bytes(*bytes), 4))
    }

    fn find_double(row: &[u8]) -> Option<(u64, usize)> {
        let bytes = row.first_chunk::<8>()?;
        Some((u64::from_le_bytes(*bytes), 8))
    }

    fn copy_fixed(row: &[u8], out: &mut [u8]) -> Option<usize> {
        let n = out.len();
        out.copy_from_slice(row.get(..n)?);
        Some(n)
    }

    fn copy_run(row: &[u8], most: usize, out: &mut [u8]) -> Option<(usize, usize)> {
        let (at, len) = find_run(row, most.min(out.len()))?;
        out[..len].copy_from_slice(&row[at..at + len]);
        Some((len, at + len))
    }
}
