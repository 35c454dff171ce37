//! What an ordered map does.

ghost use Rattle.std.specs.Prelude.{◌≡◌, ◌+◌, ◌<◌, min, true, false, [], length, is_ok, ◌==◌, slice_set, Some};
ghost use Rattle.ordered_map.specs.Content.{key_of};
ghost use Rattle.ordered_map.specs.Insertions.{LatestOfAny, OneMore, OrderOfAny};
ghost use Rattle.ordered_map.specs.Maps.{Inserted, IsMap, Unchanged, ValueOrNone, capacity_of, entries_of};
ghost use Rattle.keyspace.specs.Positions.{At};
ghost use Rattle.keyspace.specs.Spots.{EndsAt};

use crate::entry::Entry;
use crate::map::{MapFull, OrderedMap};
use keyspace::index::KeyedList;
use keyspace::slot::{Slot, Spot, Taken};
use keyspace::space::{KeySpace, Keyed, NumberedKeySpace};
use std::mem;

impl<'a, K: Copy, V: Copy> OrderedMap<'a, K, V> {
    /// A map of no keys over this memory, whatever it holds.
    // The key space is named for the contract alone: empty slots are an index of no entries in every key space.
    pub fn new<S: NumberedKeySpace<Key = K>>(
        space: &S,
        entries: &'a mut [Entry<K, V>],
        slots: &'a mut [Slot],
    ) -> OrderedMap<'a, K, V>
        ensures no_keys { entries_of result ≡ [] }
        ensures room { capacity_of result ≡ min (length entries.old) (length slots.old) }
        ensures is_map { IsMap (S.means space.now) S.numberof result }
    {
        slots.fill(None);
        OrderedMap {
            entries,
            slots,
            len: 0,
        }
    }

    /// How many keys it has.
    pub fn len(&self) -> usize
        ensures count { result ≡ length (entries_of self.now) }
    {
        self.entries().len()
    }

    /// Says whether it has no key.
    pub fn is_empty(&self) -> bool
        ensures no_key { result ≡ (length (entries_of self.now) == 0) }
    {
        self.len == 0
    }

    /// Its entries, in the order of the first insertion of their keys.
    pub fn entries(&self) -> &[Entry<K, V>]
        ensures in_order { result.now ≡ entries_of self.now }
    {
        let len = self.len;
        &self.entries[0..len]
    }

    /// How many keys its memory holds at most.
    pub fn capacity(&self) -> usize
        ensures least { result ≡ capacity_of self.now }
    {
        self.entries.len().min(self.slots.len())
    }

    /// Where the key is, or where there is room for it.
    fn spot<S: NumberedKeySpace<Key = K>>(&self, space: &S, key: K) -> Spot
        ensures ends_at { EndsAt (key_of (S.means space.now)) S.numberof (entries_of self.now) self.now.slots.now (S.means space.now key) result }
    {
        let entries = self.entries();
        KeyedList { space, entries }.seek(self.slots, key)
    }

    /// Puts another value at `place`, and answers the one that was there.
    fn replace(&mut self, place: usize, value: V) -> V
        requires there { place < self.old.len }
        ensures written { (e : Entry K V) → At self.old.entries.now place e → (result ≡ e.value) × (self.new.entries.now ≡ slice_set self.old.entries.now place (record { key = e.key; value = value })) }
        ensures slots { self.new.slots.now ≡ self.old.slots.now }
        ensures len { self.new.len ≡ self.old.len }
    {
        let entries = &mut *self.entries;
        mem::replace(&mut entries[place].value, value)
    }

    /// Adds an entry at the end, and takes the slot `at` for it.
    fn append(&mut self, entry: Entry<K, V>, number: u32, at: usize)
        requires room { self.old.len < length self.old.entries.now }
        requires free { at < length self.old.slots.now }
        ensures entries { self.new.entries.now ≡ slice_set self.old.entries.now self.old.len entry }
        ensures slots { self.new.slots.now ≡ slice_set self.old.slots.now at (Some (record { number = number; position = self.old.len })) }
        ensures len { self.new.len ≡ self.old.len + 1 }
    {
        let position = self.len;
        self.entries[position] = entry;
        self.slots[at] = Some(Taken { number, position });
        self.len = position + 1;
    }

    /// Gives `key` the value, and answers the one that it had, or none where it is new. A key that is there keeps its
    /// place and stays as it was stored. A new key that finds no room is refused, and nothing changes.
    pub fn insert<S: NumberedKeySpace<Key = K>>(
        &mut self,
        space: &S,
        key: K,
        value: V,
    ) -> Result<Option<V>, MapFull>
        ensures inserted { IsMap (S.means space.now) S.numberof self.old → Inserted (S.means space.now) (capacity_of self.old) (entries_of self.old) (record { key = key; value = value }) (entries_of self.new) result }
        ensures still_a_map { IsMap (S.means space.now) S.numberof self.old → IsMap (S.means space.now) S.numberof self.new }
        ensures one_insertion_more { IsMap (S.means space.now) S.numberof self.old → is_ok result ≡ true → OneMore (S.means space.now) (entries_of self.old) (record { key = key; value = value }) (entries_of self.new) }
        ensures in_order_of_first_insertion { (means : K → S.Value) → OrderOfAny means (entries_of self.new) }
        ensures refused_without_change { is_ok result ≡ false → Unchanged self.old self.new }
        ensures same_room { capacity_of self.new ≡ capacity_of self.old }
    {
        match self.spot(space, key) {
            Spot::Found(place) => Ok(Some(self.replace(place, value))),
            Spot::Free { at, number } if self.len < self.capacity() => {
                self.append(Entry { key, value }, number, at);
                Ok(None)
            }
            // Two arms, since the proof loses which of the two it was where they are one.
            Spot::Free { .. } => Err(MapFull),
            Spot::Full => Err(MapFull),
        }
    }

    /// The value of the key, or none where the map does not have it.
    pub fn get<S: NumberedKeySpace<Key = K>>(&self, space: &S, key: K) -> Option<V>
        ensures value { IsMap (S.means space.now) S.numberof self.now → ValueOrNone (S.means space.now) (entries_of self.now) (S.means space.now key) result }
        ensures latest_value { IsMap (S.means space.now) S.numberof self.now → LatestOfAny (S.means space.now) (entries_of self.now) (S.means space.now key) result }
    {
        let entries = self.entries();
        let place = KeyedList { space, entries }.lookup(self.slots, key)?;
        Some(entries[place].value)
    }
}
