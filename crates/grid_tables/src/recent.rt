ghost use Rattle.std.specs.Prelude.{◌≡◌, IfSome};
ghost use Rattle.std.specs.Option.{option_copied};
ghost use Rattle.std.specs.List.{IsAmong};
ghost use Rattle.std.specs.BTreeMap.{get, values};

use std::cmp::Ordering;
use std::collections::BTreeMap;

/// The value at a key. It looks at the last key first: ids rise, and what was put last is asked for most.
pub(crate) fn get_recent<'a, K: Ord, V>(map: &'a BTreeMap<K, V>, key: &K) -> Option<&'a V>
    ensures value { option_copied result ≡ get K.cmp map.now key.now }
    ensures member { IfSome result (λ x. IsAmong (values map.now) x.now) }
{
    match map.last_key_value() {
        Some((last, value)) => match key.cmp(last) {
            Ordering::Equal => Some(value),
            Ordering::Greater => None,
            Ordering::Less => map.get(key),
        },
        None => None,
    }
}
