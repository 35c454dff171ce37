//! Whether two lists of entries hold the same pairs, in any order or in the same one.

ghost use Rattle.std.specs.Prelude.{◌≡◌, ◌↔◌, IsTrue, map};
ghost use Rattle.ordered_map.specs.Content.{Holds, Within, SameContent, Equal, pair_of};
ghost use Rattle.ordered_map.specs.Insertions.{YesInAnyOrder};

use crate::entry::Entry;
use keyspace::space::KeySpace;

/// Says whether a key of the list means what `wanted` means.
fn holds<S: KeySpace>(space: &S, keys: &[S::Key], wanted: S::Key) -> bool
    ensures { IsTrue result ↔ Holds (S.means space.now) keys.now (S.means space.now wanted) }
{
    keys.iter().any(|key| space.same(*key, wanted))
}

/// Says whether the second list holds what each key of the first means.
fn is_within<S: KeySpace>(space: &S, a: &[S::Key], b: &[S::Key]) -> bool
    ensures { IsTrue result ↔ Within (S.means space.now) a.now b.now }
{
    a.iter().all(|key| holds(space, b, *key))
}

/// Says whether two lists of keys mean the same, key by key.
fn means_same<S: KeySpace>(space: &S, a: &[S::Key], b: &[S::Key]) -> bool
    ensures { IsTrue result ↔ (map (S.means space.now) a.now ≡ map (S.means space.now) b.now) }
{
    a.len() == b.len() && a.iter().zip(b).all(|(x, y)| space.same(*x, *y))
}

/// The pairs of a key and a value, each of a key space: what an entry means as a pair.
#[derive_where(Clone, Copy)]
pub struct Pairs<'a, S, T> {
    pub keys: &'a S,
    pub values: &'a T,
}

impl<S: KeySpace, T: KeySpace> KeySpace for Pairs<'_, S, T> {
    type Key = Entry<S::Key, T::Key>;

    ghost Value = { S.Value × T.Value };

    ghost means = { λ pairs entry. pair_of (S.means pairs.keys.now) (T.means pairs.values.now) entry };

    ghost numberof = { λ _. 0 };

    fn same(&self, a: Entry<S::Key, T::Key>, b: Entry<S::Key, T::Key>) -> bool {
        self.keys.same(a.key, b.key) && self.values.same(a.value, b.value)
    }
}

impl<S: KeySpace, T: KeySpace> Pairs<'_, S, T> {
    /// Says whether two lists of entries hold the same pairs, whatever their order: each pair of the one is a pair of
    /// the other. It goes by `same` alone and through no index, so its cost is the product of the lengths.
    pub fn has_same_content(&self, a: &[Entry<S::Key, T::Key>], b: &[Entry<S::Key, T::Key>]) -> bool
        ensures same_content { IsTrue result ↔ SameContent (S.means self.now.keys.now) (T.means self.now.values.now) a.now b.now }
        ensures yes_in_any_order { YesInAnyOrder (S.means self.now.keys.now) a.now b.now result }
    {
        is_within(self, a, b) && is_within(self, b, a)
    }

    /// Says whether two lists of entries hold the same pairs in the same order.
    pub fn is_equal(&self, a: &[Entry<S::Key, T::Key>], b: &[Entry<S::Key, T::Key>]) -> bool
        ensures equal { IsTrue result ↔ Equal (S.means self.now.keys.now) (T.means self.now.values.now) a.now b.now }
        ensures equal_has_same_content { IsTrue result → SameContent (S.means self.now.keys.now) (T.means self.now.values.now) a.now b.now }
    {
        means_same(self, a, b)
    }
}
