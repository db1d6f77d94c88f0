ghost use Rattle.std.specs.Prelude.{◌≡◌};

use crate::moves::Move;
use crate::report::{Ended, Report};
use client_verify::Refused;
use std::alloc::Allocator;

/// The region that clients run in: its length `room` and the segment's `base`, in bytes, and the moves, which each client makes
/// again. A base is a multiple of 16, and the segment must end within the region.
#[derive(Debug, Clone, Copy)]
pub struct Schedule<'a> {
    pub room: u32,
    pub base: u32,
    pub moves: &'a [Move],
}

/// The saved image, the report of each client that ran, in order, and how the last one ended.
#[derive(Drop)]
pub struct Outcome<A: Allocator> {
    pub image: Vec<u8, A>,
    pub reports: Vec<Report, A>,
    pub ended: Ended,
}

/// Why no client ran, and the caller's bytes, unchanged. `?` turns it into the reason alone.
#[derive(Drop)]
pub struct Unrun<A: Allocator> {
    pub refused: Refused,
    pub bytes: Vec<u8, A>,
}

impl<A: Allocator> From<Unrun<A>> for Refused {
    ghost from_gives = { λ unrun refused. refused ≡ unrun.refused };

    fn from(unrun: Unrun<A>) -> Refused {
        unrun.refused
    }
}
