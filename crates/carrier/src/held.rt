//! What the checker learns of bytes and items only where they are read. Nothing here does anything at run time.

ghost use Rattle.carrier.specs.Items.{Bytes, Held};
ghost use Rattle.carrier.specs.Meaning.{datum};

use crate::Item;

/// Shows that the bytes of a slice are below 256: the checker learns it of all where one is read.
pub fn bytes_held(s: &[u8])
    ensures bytes { Bytes s.now }
{
    if s.len() > 0 {
        let _first = s[0];
    } else {
        // What is not read is no byte.
        prove!(s.is_empty());
    }
}

/// Shows that the item lies in its ranges.
pub fn item_held(item: Item<&[u8]>)
    ensures held { Held (datum item.entry) }
{
    match item {
        Item::Run(s) => bytes_held(s),
        Item::Fixed(s) => bytes_held(s),
        _ => {}
    }
}
