ghost use Rattle.std.specs.Prelude.{◌≡◌, ℕ, ◌≤◌, Option, Some, None};
ghost use Rattle.seg_spec.specs.Window.{KeepsHost};
ghost use Rattle.seg_spec.specs.Heap.{IsHeap};
ghost use Rattle.seg_block.specs.Blocks.{IsLiveBlock};
ghost use Rattle.seg_block.specs.Request.{Grants, GrantsNew};

use crate::fit::Fit;
use crate::header::BlockAt;
use seg_ptr::Window;
use std::alloc::Allocator;

/// The answer to a request: the old block in place, or a new block.
#[derive(Clone, Copy, Debug, PartialEq, Eq)]
pub enum Grant {
    Same(BlockAt),
    New(BlockAt),
}

/// Allocates a block of `preferred` units, or of `limit` units if that fails.
pub fn request_new<F: Fit, A: Allocator>(
    w: &mut Window<A>,
    preferred: u32,
    limit: u32,
) -> Option<Grant>
    requires preferred { 2 ≤ preferred }
    requires limit { 2 ≤ limit }
    ensures host { KeepsHost w.old w.new }
    ensures grants { IsHeap F.allocator w.old.bytes
        → GrantsNew F.allocator w.old.bytes w.new.bytes preferred limit result }
{
    if let Some(block) = F::allocate(w, preferred) {
        return Some(Grant::New(block));
    }
    F::allocate(w, limit).map(Grant::New)
}

/// Finds room for `preferred` units, or else for `limit` units: each time in place at an allocated block first, then in
/// a new block.
pub fn request_at<F: Fit, A: Allocator>(
    w: &mut Window<A>,
    block: BlockAt,
    preferred: u32,
    limit: u32,
) -> Option<Grant>
    requires preferred { 2 ≤ preferred }
    requires limit { 2 ≤ limit }
    ensures host { KeepsHost w.old w.new }
    ensures grants { (x : ℕ) → IsHeap F.allocator w.old.bytes → IsLiveBlock w.old.bytes block x
        → Grants F.allocator w.old.bytes w.new.bytes block x preferred limit result }
{
    if F::expand(w, block, preferred) {
        return Some(Grant::Same(block));
    }
    if let Some(new) = F::allocate(w, preferred) {
        return Some(Grant::New(new));
    }
    if F::expand(w, block, limit) {
        return Some(Grant::Same(block));
    }
    match F::allocate(w, limit) {
        Some(new) => Some(Grant::New(new)),
        None => None,
    }
}

/// Finds room for `preferred` units, or else for `limit` units, for a buffer that has an old block or none. A new block
/// leaves the old one allocated.
pub fn request<F: Fit, A: Allocator>(
    w: &mut Window<A>,
    old: Option<BlockAt>,
    preferred: u32,
    limit: u32,
) -> Option<Grant>
    requires preferred { 2 ≤ preferred }
    requires limit { 2 ≤ limit }
    ensures host { KeepsHost w.old w.new }
    ensures same { (at x : ℕ) → old ≡ Some at → IsHeap F.allocator w.old.bytes
        → IsLiveBlock w.old.bytes at x
        → Grants F.allocator w.old.bytes w.new.bytes at x preferred limit result }
    ensures new { old ≡ None → IsHeap F.allocator w.old.bytes
        → GrantsNew F.allocator w.old.bytes w.new.bytes preferred limit result }
{
    match old {
        Some(block) => request_at::<F, A>(w, block, preferred, limit),
        None => request_new::<F, A>(w, preferred, limit),
    }
}
