//! The index: open addressing over slots that the caller lends. A walk for a key starts at the key's number modulo the
//! slots and goes on slot by slot, round the end, to the key or to an empty slot. A slot keeps the number beside the
//! position, so the key space is asked only where the numbers agree.

ghost use Rattle.std.specs.Prelude.{◌≡◌, ◌↔◌, ◌+◌, ◌<◌, true, false, length, is_ok, IfOk, IsTrue, nat_le};
ghost use Rattle.keyspace.specs.Lists.{FirstOfKey, HasKeyAt, IsIndex, IsIndexOf, SomeOfKey, WalkEndsAt};

use crate::slot::{Slot, Spot, Taken, TooFewSlots};
use crate::space::{KeySpace, Keyed, NumberedKeySpace};

/// A list of entries, and the key space of their keys.
// No slots are in it: they stay the caller's, who may change them, so that they are an index is said where they are passed.
#[derive_where(Clone, Copy)]
pub struct KeyedList<'a, S, E> {
    pub space: &'a S,
    pub entries: &'a [E],
}

impl<S: NumberedKeySpace, E: Keyed<S::Key>> KeyedList<'_, S, E> {
    /// Says whether a slot that is so taken is that of `key`.
    fn is_taken_by(&self, taken: Taken, key: S::Key, number: u32) -> bool
        ensures { IsTrue result ↔ ((taken.number ≡ number) × HasKeyAt S.KeySpace E.keyed self.now taken.position key) }
    {
        taken.number == number
            && self
                .entries
                .get(taken.position)
                .is_some_and(|entry| self.space.same(entry.key(), key))
    }

    /// Where a walk for `key` ends, for a caller that keeps an index of its own, as a map that grows.
    pub fn seek(&self, slots: &[Slot], key: S::Key) -> Spot
        ensures ends_at { WalkEndsAt S.KeySpace E.keyed self.now slots.now key result }
    {
        let count = slots.len();
        if count == 0 {
            return Spot::Full;
        }
        let number = self.space.number(key);
        let home = number as usize % count;
        // By places and not by slots, since a free one is answered by its place.
        for at in (home..count).chain(0..home) {
            match slots[at] {
                None => return Spot::Free { at, number },
                Some(taken) => {
                    if self.is_taken_by(taken, key, number) {
                        return Spot::Found(taken.position);
                    }
                }
            }
        }
        Spot::Full
    }

    /// The position of the first entry whose key means what `key` means, or none, where the slots are an index of the
    /// entries. Whatever they hold, a position that is answered has such a key.
    pub fn lookup(&self, slots: &[Slot], key: S::Key) -> Option<usize>
        ensures only_meeting { SomeOfKey S.KeySpace E.keyed self.now key result }
        ensures first_position { IsIndex S.KeySpace E.keyed self.now slots.now → FirstOfKey S.KeySpace E.keyed self.now key result }
    {
        match self.seek(slots, key) {
            Spot::Found(position) => Some(position),
            Spot::Free { .. } | Spot::Full => None,
        }
    }

    /// Enters the entry at `position`, which has this key, where those before it are entered.
    fn enter(&self, slots: &mut [Slot], position: usize, key: S::Key)
        requires index { IsIndexOf S.KeySpace E.keyed self.now position slots.old }
        requires its_key { HasKeyAt S.KeySpace E.keyed self.now position key }
        requires room { position < length slots.old }
        ensures one_more { IsIndexOf S.KeySpace E.keyed self.now (position + 1) slots.new }
    {
        match self.seek(slots, key) {
            Spot::Found(_) => {}
            Spot::Free { at, number } => slots[at] = Some(Taken { number, position }),
            Spot::Full => unreachable!(),
        }
    }

    /// Makes the slots, whatever they hold, an index of the entries. Fewer slots than entries are refused, and stay as
    /// they were; twice as many make look-ups short.
    pub fn build(&self, slots: &mut [Slot]) -> Result<(), TooFewSlots>
        ensures refused_exactly { is_ok result ≡ nat_le (length self.now.entries.now) (length slots.old) }
        ensures refused_without_change { is_ok result ≡ false → slots.new ≡ slots.old }
        ensures indexed { is_ok result ≡ true → IsIndex S.KeySpace E.keyed self.now slots.new }
    {
        if slots.len() < self.entries.len() {
            return Err(TooFewSlots);
        }
        slots.fill(None);
        for (position, entry) in self.entries.iter().enumerate() {
            self.enter(slots, position, entry.key());
        }
        Ok(())
    }

    /// The position of the first entry whose key means what `key` means, or none, by an index that is built for it. The
    /// slots are an index of the entries afterwards, or as they were where they are too few.
    pub fn find(&self, slots: &mut [Slot], key: S::Key) -> Result<Option<usize>, TooFewSlots>
        ensures first_position { IfOk result (FirstOfKey S.KeySpace E.keyed self.now key) }
        ensures refused_exactly { is_ok result ≡ nat_le (length self.now.entries.now) (length slots.old) }
        ensures refused_without_change { is_ok result ≡ false → slots.new ≡ slots.old }
        ensures indexed { is_ok result ≡ true → IsIndex S.KeySpace E.keyed self.now slots.new }
    {
        self.build(slots)?;
        Ok(self.lookup(slots, key))
    }
}
