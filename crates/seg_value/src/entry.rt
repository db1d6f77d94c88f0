ghost use Rattle.std.specs.Prelude.{◌≡◌, ◌-◌, ◌*◌, ◌^◌, ◌<◌, ◌≤◌};
ghost use Rattle.seg_spec.specs.Demand as demand;

use seg_cells::Entry;

/// The size in units of a block for `entries` entries. If no segment has that room, it is more than any block has.
pub(crate) fn need(entry: Entry, entries: u32) -> u32
    ensures some { 2 ≤ result }
    ensures exact { entries * entry.size < 2 ^ 32 → result ≡ demand.need (entries * entry.size) }
    ensures capped { 2 ^ 32 ≤ entries * entry.size → result ≡ demand.need (2 ^ 32 - 1) }
{
    seg_block::need(entries.saturating_mul(entry.size))
}
