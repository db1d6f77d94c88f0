ghost use Rattle.std.specs.Prelude.{◌≡◌, ℕ, ◌+◌, ◌-◌, ◌%◌, ◌^◌, ◌<◌, ◌≤◌, ◌↔◌, length, IsTrue, MatchOption};
ghost use Rattle.seg_spec.specs.Window.{region_of, IsPlace};
ghost use Rattle.client_spec.specs.Clients.{AreMoves, IsFirstBadMove};
ghost use Rattle.client_program.specs.Moving.{first_step, MakesNext, MakesDue, CanPerformLines};
ghost use Rattle.client_vm.specs.Moves.{moves_of};

use seg_manager::{Fit, Segment, Window};
use std::alloc::Allocator;

/// A move of the segment to another base of its region, right before a step. Steps are counted from 1.
#[derive(Debug, Clone, Copy, PartialEq, Eq)]
pub struct Move {
    pub step: u64,
    pub base: u32,
}

/// The index of the first move that can't be made on a segment, or `None` if all fit. A move can't be made if its step is 0 or
/// not above the step before, or if its base is no place for the segment.
pub fn moves_fit<F: Fit, A: Allocator>(segment: &Segment<F, A>, moves: &[Move]) -> Option<usize>
    ensures { let room = length (region_of segment.now.window) in
        let len = length segment.now.window.bytes in
        MatchOption result (AreMoves room len 0 (moves_of moves.now))
        (λ i. IsFirstBadMove room len (moves_of moves.now) i) }
{
    first_bad_move(segment.window().len(), segment.window().room(), moves)
}

/// The index of the first move that can't be made, or `None`, for a segment of `len` bytes in a region of `room` bytes.
pub fn first_bad_move(len: u32, room: u32, moves: &[Move]) -> Option<usize>
    requires { len ≤ 2 ^ 30 }
    ensures { MatchOption result (AreMoves room len 0 (moves_of moves.now))
        (λ i. IsFirstBadMove room len (moves_of moves.now) i) }
{
    let mut step = 0;
    for (i, next) in moves.iter().enumerate() {
        if next.step <= step || !is_place(room, next.base, len) {
            return Some(i);
        }
        step = next.step;
    }
    None
}

/// Whether a segment of `len` bytes may be at a base of a region of `room` bytes: the base is a multiple of 16, and the segment ends
/// within the region.
pub fn is_place(room: u32, base: u32, len: u32) -> bool
    requires { len ≤ 2 ^ 30 }
    ensures { IsTrue result ↔ IsPlace room base len }
{
    base % 16 == 0 && len <= room && base <= room - len
}

/// How many lines are performed at a time, about a tenth of a second's. In between, the output hears of the steps.
const AT_A_TIME: u64 = 1 << 26;

/// The moves that aren't made yet.
#[derive(Drop)]
pub(crate) struct Moves<'a> {
    rest: &'a [Move],
}

impl<'a> Moves<'a> {
    pub(crate) fn new(moves: &'a [Move]) -> Moves<'a>
        ensures { result.rest.now ≡ moves.now }
    {
        Moves { rest: moves }
    }

    /// How many steps come before the next move. Without a move that is more than any run has.
    #[tactic(auto, using(crate::proofs::MovesLaws::first_is))]
    fn due(&self) -> u64
        ensures { 0 < first_step (moves_of self.now.rest.now) →
            result ≡ first_step (moves_of self.now.rest.now) - 1 }
    {
        match self.rest.first() {
            Some(next) if next.step > 0 => next.step - 1,
            _ => u64::MAX,
        }
    }

    /// Makes the next move if it is due: `steps` were taken, and the next line is a step. Returns how many lines to perform next,
    /// 1 or more: a lower bound of the number of lines before a move is due, at most [`AT_A_TIME`].
    #[inline(never)]
    pub(crate) fn make_due<A: Allocator>(
        &mut self,
        steps: u64,
        is_step: bool,
        w: &mut Window<A>,
    ) -> u64
        ensures some { 0 < result }
        ensures home { w.new.home ≡ w.old.home }
        ensures made { (room len : ℕ) → AreMoves room len steps (moves_of self.old.rest.now) →
            MakesDue (moves_of self.old.rest.now) steps is_step w.old
            (moves_of self.new.rest.now) w.new }
        ensures waits { (room len : ℕ) →
            AreMoves room len steps (moves_of self.old.rest.now) →
            CanPerformLines steps (moves_of self.new.rest.now) result }
    {
        if steps == self.due() && is_step {
            self.make(w);
        }
        self.due().saturating_sub(steps).max(1).min(AT_A_TIME)
    }

    fn make<A: Allocator>(&mut self, w: &mut Window<A>)
        ensures next { MakesNext (moves_of self.old.rest.now) w.old
            (moves_of self.new.rest.now) w.new }
        ensures home { w.new.home ≡ w.old.home }
    {
        if let Some((next, rest)) = self.rest.split_first() {
            let _ = w.relocate(next.base);
            self.rest = rest;
        }
    }
}
