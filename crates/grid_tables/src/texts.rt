ghost use Rattle.std.specs.Prelude.{◌≡◌};
ghost use Rattle.grid_model.specs.Names.{text_cmp};

use std::cmp::Ordering;

/// How two texts stand to each other, by their bytes. Names differ early, so this looks at one byte after another: what the
/// library does for long slices costs more here.
pub(crate) fn text_order(one: &[u8], other: &[u8]) -> Ordering
    ensures { result ≡ text_cmp one.now other.now }
{
    let both = one.len().min(other.len());
    for i in 0..both {
        let order = one[i].cmp(&other[i]);
        if order.is_ne() {
            return order;
        }
    }
    one.len().cmp(&other.len())
}
