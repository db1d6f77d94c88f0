ghost use Rattle.std.specs.Prelude.{◌≡◌, ◌<◌, ◌^◌};

use crate::node::Side;
use seg_ptr::NodeAt;
use std::marker::Model;

/// A node, and the side on which the path continues, in one word. The lowest bit is the side, and the bits above it are
/// the node's position without its highest bit, which is 0 in a segment.
#[derive(Debug, Clone, Copy, Default)]
pub(crate) struct Step {
    word: u32,
}

impl Model for Step {
    ghost use Rattle.std.specs.Prelude.{◌+◌, ◌*◌, ◌/◌};
    ghost use Rattle.seg_rbtree.specs.Steps.{NodeAndSide, bit_of, side_of};

    ghost Value = { NodeAndSide };

    ghost view = { λ s. record { node = s.word / 2; side = side_of s.word } };

    ghost inverse = { λ s. record { word = s.node * 2 + bit_of s.side } };
}

impl Step {
    /// The step from a node to a side of it.
    #[inline]
    pub(crate) fn new(node: NodeAt, side: Side) -> Step
        ensures { node < 2 ^ 31 → result ≡ record { node = node; side = side } }
    {
        Step {
            word: node << 1 | side as u32,
        }
    }

    #[inline]
    pub(crate) fn node(self) -> NodeAt
        ensures { result ≡ self.node }
    {
        self.word >> 1
    }

    #[inline]
    pub(crate) fn side(self) -> Side
        ensures { result ≡ self.side }
    {
        if self.word & 1 == 0 {
            Side::Left
        } else {
            Side::Right
        }
    }
}
