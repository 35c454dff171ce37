//! What a key means, and the number that a meaning has.

ghost use Rattle.std.specs.Prelude.{◌≡◌, ℕ, ◌↔◌, IsTrue};

/// A kind of key. Each key means a value, and two keys are the same exactly if their values are equal.
pub trait KeySpace {
    type Key: Copy;

    // What keys mean, and what a key means.
    ghost Value: { Type 0 };

    ghost means: { Self → Self.Key → Value };

    // The number of a value, for a numbered key space. Any other gives what it likes, as 0 for each.
    ghost numberof: { Value → ℕ };

    /// Says whether two keys mean the same.
    fn same(&self, a: Self::Key, b: Self::Key) -> bool
        ensures same_meaning { IsTrue result ↔ (means self.now a ≡ means self.now b) };
}

/// A kind of key whose meanings have numbers: keys that mean the same have one number.
pub trait NumberedKeySpace: KeySpace {
    /// The number of what the key means.
    fn number(&self, key: Self::Key) -> u32
        ensures of_the_meaning { result ≡ Self.numberof (Self.means self.now key) };
}

/// What has a key: an entry of a list that is looked up in.
pub trait Keyed<K> {
    ghost keyed: { Self → K };

    fn key(&self) -> K
        ensures its_key { result ≡ keyed self.now };
}

/// A key is an entry that has nothing else.
impl<K: Copy> Keyed<K> for K {
    ghost keyed = { λ k. k };

    fn key(&self) -> K {
        *self
    }
}
