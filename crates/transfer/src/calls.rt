//! Calls over any carrier, proved from its meaning and laws alone.

ghost use Rattle.std.specs.Prelude.{◌≡◌, ◌≤◌, map, length};
ghost use Rattle.carrier.specs.Meaning.{datum};
ghost use Rattle.carrier.specs.Lists.{PutsAll};
ghost use Rattle.transfer.specs.Cells.{TakesOne, TakesAll, ComesBack};

use crate::cells::{Cell, Span, Taking, item_in};
use carrier::held::item_held;
use carrier::{Carrier, CarrierFault, Item, Kind};

/// Puts all of the items, or none where their price exceeds the room. Answers how many numbers that
/// added.
pub fn put_items<C: Carrier>(c: &mut C, items: &[Item<&[u8]>]) -> Result<u64, CarrierFault>
    ensures all_or_none { PutsAll C.code (map datum items.now) result (C.state c.old) (C.state c.new) }
{
    let room = c.room();
    let mut left = room;
    for item in items {
        // That the item lies in its ranges is known only of bytes at hand, not of those inside a list.
        item_held(*item);
        let price = c.price(*item);
        left = left.checked_sub(price).ok_or(CarrierFault::full())?;
    }
    for item in items {
        c.put(*item)?;
    }
    Ok(room - left)
}

/// Takes one item of the kind, its bytes going into the byte memory behind those taken so far.
fn take_one<C: Carrier>(
    c: &mut C,
    kind: Kind,
    bytes: &mut [u8],
    so_far: Taking,
) -> Result<Cell, CarrierFault>
    requires { so_far.bytes ≤ length bytes.old }
    ensures { TakesOne C.code kind so_far.bytes so_far.numbers result bytes.old bytes.new (C.state c.old) (C.state c.new) }
{
    let start = so_far.bytes;
    let taken = so_far.numbers;
    match kind {
        Kind::Truth => c.take_truth(taken).map(Cell::Truth),
        Kind::Whole => c.take_whole(taken).map(Cell::Whole),
        Kind::Single => c.take_single(taken).map(Cell::Single),
        Kind::Double => c.take_double(taken).map(Cell::Double),
        Kind::Run(most) => {
            let len = c.take_run(most, &mut bytes[start..], taken)?;
            Ok(Cell::Run(Span { start, len }))
        }
        Kind::Fixed(len) => {
            if len > bytes.len() - start {
                return Err(CarrierFault::no_memory(taken));
            }
            c.take_fixed(&mut bytes[start..start + len], taken)?;
            Ok(Cell::Fixed(Span { start, len }))
        }
    }
}

/// Takes an item of each of the kinds, one after another. The item of a kind goes into the cell at its
/// place, its bytes into the byte memory behind those of the items before. Where a kind is refused,
/// the items before it stand in their cells and are lost to the carrier.
pub fn take_items<C: Carrier>(
    c: &mut C,
    kinds: &[Kind],
    cells: &mut [Cell],
    bytes: &mut [u8],
) -> Result<Taking, CarrierFault>
    ensures one_after_another { TakesAll C.code kinds.now result cells.old cells.new bytes.old bytes.new (C.state c.old) (C.state c.new) }
    ensures comes_back { ComesBack C.code kinds.now result cells.old cells.new bytes.old bytes.new (C.state c.old) (C.state c.new) }
{
    let mut so_far = Taking {
        bytes: 0,
        numbers: 0,
    };
    // By the index: the proof did not close over a `zip` with `iter_mut`, behind which the cells are not known.
    for (i, kind) in kinds.iter().enumerate() {
        if i >= cells.len() {
            return Err(CarrierFault::no_memory(so_far.numbers));
        }
        let cell = take_one(c, *kind, bytes, so_far)?;
        cells[i] = cell;
        let item = item_in(cell, bytes);
        so_far.bytes += item.bulk();
        so_far.numbers += c.price(item);
    }
    Ok(so_far)
}
