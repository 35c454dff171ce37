//! The entries of a map.

ghost use Rattle.std.specs.Prelude.{◌≡◌};

use keyspace::space::Keyed;

/// A key and its value.
#[derive(Clone, Copy)]
pub struct Entry<K, V> {
    pub key: K,
    pub value: V,
}

impl<K: Copy, V> Keyed<K> for Entry<K, V> {
    ghost keyed = { λ e. e.key };

    fn key(&self) -> K {
        self.key
    }
}
