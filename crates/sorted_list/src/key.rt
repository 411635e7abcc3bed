ghost use Rattle.std.specs.Prelude.{◌≡◌, ◌≤◌, ℕ};
ghost use Rattle.std.specs.Ordering.{ordering_index};
ghost use Rattle.std.specs.declared.cmp.Ordering.{Ordering};
ghost use Rattle.std.specs.declared.cmp.Ordering.TheVariants.{Less, Equal};
ghost use Rattle.std.specs.Cmp.{IsTotalOrder};
ghost use Rattle.sorted_list.specs.Fronts.{key_falls, key_once};

use std::cmp::Ordering;

/// A key. A list has one of those that tie at most.
pub trait Key {
    ghost order: { Self → Self → Ordering };

    /// How it stands to another key.
    fn order(&self, other: &Self) -> Ordering
        ensures { result ≡ order self.now other.now };

    ghost total: { IsTotalOrder order };
}

/// A front of keys, as their first field. Keys with one front stand next to one another.
pub trait Front<K: Key>: Copy {
    ghost side: { Self → K → Ordering };

    /// How it stands to the front of a key.
    fn side(&self, key: &K) -> Ordering
        ensures { result ≡ side self.now key.now };

    ghost falls: { (q : Self) (a b : K) → K.order a b ≡ Less → ordering_index (side q b) ≤ ordering_index (side q a) };
}

/// A front that one key of a list has at most, as the whole key is.
pub trait Whole<K: Key>: Front<K> {
    ghost once: { (q : Self) (a b : K) → K.order a b ≡ Less → Self.side q a ≡ Equal → Self.side q b ≡ Less };
}

impl<K: Key> Front<K> for &K {
    ghost side = { λ q. K.order q.now };

    ghost falls = { λ q a b less. key_falls K.total q.now a b less };

    fn side(&self, key: &K) -> Ordering {
        (*self).order(key)
    }
}

impl<K: Key> Whole<K> for &K {
    ghost once = { λ q a b less same. key_once K.total q.now a b less same };
}
