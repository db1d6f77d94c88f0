ghost use Rattle.std.specs.Prelude.{◌≡◌, ◌+◌, ◌-◌, ◌^◌, ◌*◌, ◌<◌, ◌≤◌, max, min};
ghost use Rattle.seg_spec.specs.Heap.{granted, expanded, shrunk};

use crate::header::LIVE;

/// The size in units of the block that an allocation of `need` units takes from a free block of `whole` units. If one
/// unit would be left over, it takes that too.
pub fn granted(whole: u32, need: u32) -> u32
    requires { need ≤ whole }
    ensures { result ≡ granted whole need }
{
    if whole - need == 1 { whole } else { need }
}

/// The size in units to which a block of `units` units expands if it needs `need`, with a free block of `room` units
/// right after it (0 if there is none). `None` if there are too few.
pub fn expanded(units: u32, room: u32, need: u32) -> Option<u32>
    requires { units + room < LIVE }
    ensures { result ≡ expanded units room need }
{
    if need <= units {
        Some(units)
    } else if need <= units + room {
        Some(granted(units + room, need))
    } else {
        None
    }
}

/// The size in units to which a block of `units` units shrinks if it needs `need`, with a free block of `room` units
/// right after it (0 if there is none). A single unit is given back only to a free block.
pub fn shrunk(units: u32, room: u32, need: u32) -> u32
    requires { need ≤ units }
    ensures { result ≡ shrunk units room need }
{
    if units - need >= 2 || room > 0 {
        need
    } else {
        units
    }
}

/// How many entries a buffer of `kept` entries asks for first, if it must have room for `limit`: twice as many as it
/// has, or the largest number if that is too large.
pub fn preferred(kept: u32, limit: u32) -> u32
    ensures capped { result ≡ max 4 (max (min (2 * kept) (2 ^ 32 - 1)) limit) }
    ensures doubled { kept < 2 ^ 31 → result ≡ max 4 (max (2 * kept) limit) }
{
    limit.max(kept.saturating_mul(2)).max(4)
}
