//! Items in lent memory: a cell for each, and the bytes of runs and fixeds in a byte memory beside.

ghost use Rattle.std.specs.Prelude.{◌≡◌};
ghost use Rattle.carrier.specs.Meaning.{datum};
ghost use Rattle.transfer.specs.Cells.{within, read};

use carrier::Item;

/// Where bytes lie in the byte memory. (A `Range` is not `Copy`, as a cell has to be.)
#[derive(Clone, Copy)]
pub struct Span {
    pub start: usize,
    pub len: usize,
}

impl Span {
    /// The bytes of the span, as far as there are any.
    pub fn of<'a>(self, bytes: &'a [u8]) -> &'a [u8]
        ensures its_bytes { result.now ≡ within bytes.now self }
    {
        let rest = &bytes[self.start.min(bytes.len())..];
        &rest[..self.len.min(rest.len())]
    }
}

/// An item in lent memory: the bytes of a run or a fixed lie in a byte memory beside.
pub type Cell = Item<Span>;

/// The item in the cell, with its bytes in the byte memory. (No method: the type is another crate's.)
pub fn item_in<'a>(cell: Cell, bytes: &'a [u8]) -> Item<&'a [u8]>
    ensures is_read { datum result ≡ read bytes.now cell }
{
    match cell {
        Cell::Truth(b) => Item::Truth(b),
        Cell::Whole(z) => Item::Whole(z),
        Cell::Single(bits) => Item::Single(bits),
        Cell::Double(bits) => Item::Double(bits),
        Cell::Run(s) => Item::Run(s.of(bytes)),
        Cell::Fixed(s) => Item::Fixed(s.of(bytes)),
    }
}

/// What a list of takes used: bytes of the byte memory, and numbers of the row.
#[derive(Clone, Copy)]
pub struct Taking {
    pub bytes: usize,
    pub numbers: u64,
}
