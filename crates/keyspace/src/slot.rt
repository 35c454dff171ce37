//! The memory of an index, and what a walk over it finds.

/// The number of a key, and the position of its first entry.
#[derive(Clone, Copy)]
pub struct Taken {
    pub number: u32,
    pub position: usize,
}

/// A place of an index: empty, or taken by a key.
pub type Slot = Option<Taken>;

/// Where a walk for a key ends.
#[derive(Clone, Copy)]
pub enum Spot {
    /// At the slot of an entry whose key means the same; its position.
    Found(usize),
    /// At an empty slot, which may take the key; its place, and the key's number.
    Free { at: usize, number: u32 },
    /// Nowhere: every slot is taken by another key.
    Full,
}

/// There are fewer slots than entries.
#[derive(Clone, Copy, PartialEq, Eq)]
pub struct TooFewSlots;
