//! The ordered map, over memory that the caller lends.

ghost use Rattle.std.specs.Prelude.{◌≤◌, length};

use crate::entry::Entry;
use keyspace::slot::Slot;

pub mod calls;

/// Keys with their values, in the order of their first insertion, and an index of the keys.
// The entries stand beside how many of them are in use, since this crate takes no memory from the heap: the caller lends it.
// No key space is kept in it: each call is handed one, which may have grown since the call before, or be made for this one.
#[derive(Drop)]
pub struct OrderedMap<'a, K, V> {
    entries: &'a mut [Entry<K, V>],
    slots: &'a mut [Slot],
    len: usize,
    ghost within: { len ≤ length entries.now },
}

/// The map has no room for one key more.
#[derive(Clone, Copy, PartialEq, Eq)]
pub struct MapFull;
