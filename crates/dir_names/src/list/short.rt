//! How short texts compare.

ghost use Rattle.std.specs.Prelude.{◌≡◌};
ghost use Rattle.dir_names.specs.Orders.{bytes_cmp};

use std::cmp::Ordering;

/// How many bytes are compared one by one.
const FIRST: usize = 16;

/// How two texts compare. This takes less time than `cmp` where they differ in their first bytes, or are short.
pub(crate) fn cmp_short(one: &[u8], other: &[u8]) -> Ordering
    ensures { result ≡ bytes_cmp one.now other.now }
{
    let first = one.len().min(other.len()).min(FIRST);
    for at in 0..first {
        if one[at] != other[at] {
            return one[at].cmp(&other[at]);
        }
    }
    if first < FIRST {
        return one.len().cmp(&other.len());
    }
    one[first..].cmp(&other[first..])
}
