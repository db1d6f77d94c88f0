ghost use Rattle.std.specs.Prelude.{◌≤◌, ◌<◌, IfOk, IfErr};
ghost use Rattle.seg_cells.specs.Search.{IsBetween};

use std::cmp::Ordering;

/// A binary search among `n` items in ascending order. `compare(index)` compares the item at an index with what is
/// looked for. Returns as `slice::binary_search_by` does: `Ok` with the index of an equal item, else `Err` with the
/// index to insert it at.
pub fn binary_search<C: Fn(u32) -> Ordering>(n: u32, compare: C) -> Result<u32, u32>
    requires { C.IsAlwaysCallable compare }
    ensures found { IfOk result (λ index. (index < n) × C.post compare index Ordering.Equal) }
    ensures missing { IfErr result (λ index. (index ≤ n) × IsBetween (C.post compare) n index) }
{
    let mut low = 0;
    let mut high = n;
    while low < high {
        let middle = low + (high - low) / 2;
        match compare(middle) {
            Ordering::Less => low = middle + 1,
            Ordering::Equal => return Ok(middle),
            Ordering::Greater => high = middle,
        }
    }
    Err(low)
}
