//! Pointers. A pointer word has the distance from its own position to the target; distance 1 is the null pointer.
ghost use Rattle.std.specs.Prelude.{◌≡◌, ◌+◌, ◌%◌, ◌^◌, ◌==◌, if◌then◌else◌, Some, None};
ghost use Rattle.seg_spec.specs.Pointer.{distance};

/// The position of a node of a tree or of a list, in bytes from the segment's start.
pub type NodeAt = u32;

/// The target of a pointer at a position with this distance.
pub(crate) fn named(at: usize, distance: u32) -> Option<u32>
    ensures { result
        ≡ (if distance == 1 then None else Some ((at + distance) % 2 ^ 32)) }
{
    match distance {
        1 => None,
        _ => Some(low_word(at).wrapping_add(distance)),
    }
}

/// The distance of a pointer at a position whose target is `to`.
pub(crate) fn distance(at: usize, to: Option<u32>) -> u32
    ensures { result ≡ distance at to }
{
    match to {
        None => 1,
        Some(to) => to.wrapping_sub(low_word(at)),
    }
}

/// The lowest 32 bits.
pub(crate) fn low_word(n: usize) -> u32
    ensures { result ≡ n % 2 ^ 32 }
{
    (n % (1 << 32)) as u32
}
