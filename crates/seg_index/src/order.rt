ghost use Rattle.std.specs.Prelude.{◌≡◌};
ghost use Rattle.std.specs.Ordering.{nat_cmp};
ghost use Rattle.std.specs.Cmp.Lexicographic.{slice_cmp};

use std::cmp::Ordering;

/// Compares two names by their bytes; a prefix comes first. The slices' own `cmp` is made for long ones, and names are
/// short.
pub(crate) fn compare(name: &[u8], other: &[u8]) -> Ordering
    ensures { result ≡ slice_cmp nat_cmp name.now other.now }
{
    for i in 0..name.len().min(other.len()) {
        if name[i] != other[i] {
            return name[i].cmp(&other[i]);
        }
    }
    name.len().cmp(&other.len())
}
