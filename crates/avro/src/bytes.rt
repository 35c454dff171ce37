//! Items in bytes: how long they are, how they are written, and where a run lies.

ghost use Rattle.std.specs.Prelude.{◌≡◌, ◌*◌, ◌+◌, ◌++◌, length};
ghost use Rattle.carrier.specs.Meaning.{datum};
ghost use Rattle.avro.specs.Avro.{var, avro};
ghost use Rattle.avro.specs.Reading.{FindsRun};

use crate::groups::{read_groups, var_len, write_var, zigzag};
use carrier::Item;

/// The length of an item's code.
pub(crate) fn code_len(item: Item<&[u8]>) -> usize
    ensures { result ≡ length (avro (datum item.entry)) }
{
    match item {
        Item::Truth(_) => 1,
        Item::Whole(z) => var_len(zigzag(z)),
        Item::Single(_) => 4,
        Item::Double(_) => 8,
        Item::Run(s) => var_len(s.len() as u64 * 2) + s.len(),
        Item::Fixed(s) => s.len(),
    }
}

/// Writes the length of s and its bytes, which together are as long as `out`.
fn write_run(out: &mut [u8], s: &[u8])
    requires { length (var (length s.now * 2)) + length s.now ≡ length out.old }
    ensures { out.new ≡ var (length s.now * 2) ++ s.now }
{
    let at = write_var(out, s.len() as u64 * 2);
    out[at..].copy_from_slice(s);
}

/// Writes the item's code, which is as long as `out`.
pub(crate) fn write_code(out: &mut [u8], item: Item<&[u8]>)
    requires { length (avro (datum item)) ≡ length out.old }
    ensures { out.new ≡ avro (datum item.entry) }
{
    match item {
        Item::Truth(b) => out[0] = u8::from(b),
        Item::Whole(z) => {
            write_var(out, zigzag(z));
        }
        Item::Single(bits) => out.copy_from_slice(&bits.to_le_bytes()),
        Item::Double(bits) => out.copy_from_slice(&bits.to_le_bytes()),
        Item::Run(s) => write_run(out, s),
        Item::Fixed(s) => out.copy_from_slice(s),
    }
}

/// Where the bytes of the run at the front of s begin, and how many they are.
pub(crate) fn find_run(s: &[u8], most: usize) -> Option<(usize, usize)>
    ensures { FindsRun most s.now result }
{
    let (n, at) = read_groups(s, 9)?;
    let len = n / 2;
    if n % 2 != 0 || len > most as u64 || len > (s.len() - at) as u64 {
        return None;
    }
    Some((at, len as usize))
}
