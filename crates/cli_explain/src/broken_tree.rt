//! Which rule a red-black tree breaks.

use crate::flaw::{Flaw, Right};
use arrayvec::ArrayVec;
use seg_block::{block_of, units_in};
use seg_index::View;

/// The most nodes on a path.
const DEPTH: usize = 60;

/// The offsets in a node.
const RIGHT: u32 = 4;

const COLOUR: u32 = 8;

const ZERO: u32 = 12;

const KEY: u32 = 16;

/// A tree, by the position of the pointer to its root.
#[derive(Clone, Copy)]
pub(crate) struct Tree {
    pub(crate) root: u32,
    pub(crate) nodes: u32,
    pub(crate) order: Order,
}

/// The order of a tree's nodes.
#[derive(Clone, Copy)]
pub(crate) enum Order {
    /// By the number after the tree fields.
    Key,
    /// By the size of the block and its position.
    Size,
    /// By name. It is tested elsewhere.
    Name,
}

/// A pointer that is still to be followed.
#[derive(Clone, Copy, Default)]
struct Branch {
    pointer: u32,
    /// The number of black nodes above it.
    blacks: u32,
    is_below_red: bool,
}

impl Tree {
    /// The first rule that the tree breaks.
    pub(crate) fn flaw(self, view: View) -> Option<Flaw<'static>> {
        self.shape_flaw(view).or_else(|| self.order_flaw(view))
    }

    /// What is wrong with the nodes, their colours and their number.
    fn shape_flaw(self, view: View) -> Option<Flaw<'static>> {
        let mut open = ArrayVec::<Branch, DEPTH>::new();
        let mut branch = Branch {
            pointer: self.root,
            blacks: 0,
            is_below_red: true,
        };
        let mut height = None;
        let mut found = 0u32;
        for _ in 0..=self.nodes.saturating_mul(2) {
            match view.target(branch.pointer as usize) {
                None => {
                    let blacks = height.unwrap_or(branch.blacks);
                    height = Some(blacks);
                    if blacks != branch.blacks {
                        return Some(black_flaw(branch.pointer));
                    }
                    match open.pop() {
                        Some(next) => branch = next,
                        None => return self.count_flaw(found),
                    }
                }
                Some(node) => {
                    found = found.saturating_add(1);
                    let colour = view.get32(node.saturating_add(COLOUR) as usize);
                    if let Some(flaw) = node_flaw(view, node, colour, branch.is_below_red) {
                        return Some(flaw);
                    }
                    let mut below = Branch {
                        pointer: node.saturating_add(RIGHT),
                        blacks: branch.blacks.saturating_add(u32::from(colour == 0)),
                        is_below_red: colour == 1,
                    };
                    if open.try_push(below).is_err() {
                        return Some(Flaw::Unmet("a path of the tree has more than 60 nodes"));
                    }
                    below.pointer = node;
                    branch = below;
                }
            }
        }
        self.count_flaw(found)
    }

    fn count_flaw(self, found: u32) -> Option<Flaw<'static>> {
        (found != self.nodes).then_some(Flaw::should(
            "the number of the tree's nodes",
            found,
            Right::Exactly(self.nodes),
        ))
    }

    /// What is wrong with the order of the nodes, if their number is right.
    fn order_flaw(self, view: View) -> Option<Flaw<'static>> {
        let mut open = ArrayVec::<u32, DEPTH>::new();
        let mut pointer = self.root;
        let mut before = None;
        for _ in 0..=self.nodes.saturating_mul(2) {
            if let Some(node) = view.target(pointer as usize) {
                open.try_push(node).ok()?;
                pointer = node;
                continue;
            }
            let node = open.pop()?;
            if let Some(flaw) = self.pair_flaw(view, before, node) {
                return Some(flaw);
            }
            before = Some(node);
            pointer = node.saturating_add(RIGHT);
        }
        None
    }

    /// What is wrong with the order of two nodes in a row.
    fn pair_flaw(self, view: View, before: Option<u32>, node: u32) -> Option<Flaw<'static>> {
        let before = before?;
        match self.order {
            Order::Name => None,
            Order::Key => keys_flaw(view, before.saturating_add(KEY), node.saturating_add(KEY)),
            Order::Size => {
                let (first, last) = (
                    units_in(view, block_of(before)),
                    units_in(view, block_of(node)),
                );
                (first > last || (first == last && before > node)).then_some(Flaw::Pair(
                    "the free block at byte ",
                    block_of(before),
                    " comes before the smaller or lower one at byte ",
                    block_of(node),
                ))
            }
        }
    }
}

/// What is wrong with two keys in a row, by their positions.
pub(crate) fn keys_flaw(view: View, before: u32, after: u32) -> Option<Flaw<'static>> {
    let first = view.get64(before as usize).cast_signed();
    let last = view.get64(after as usize).cast_signed();
    (first >= last).then_some(Flaw::Keys(first, last))
}

fn black_flaw(pointer: u32) -> Flaw<'static> {
    Flaw::Number(
        "the path to the null pointer at byte ",
        pointer as usize,
        " has another number of black nodes than the path to the first null pointer",
    )
}

/// What is wrong with a node and its colour.
fn node_flaw(view: View, node: u32, colour: u32, is_below_red: bool) -> Option<Flaw<'static>> {
    let zero = view.get32(node.saturating_add(ZERO) as usize);
    if colour > 1 {
        return Some(Flaw::Pair(
            "the colour of the node at byte ",
            node,
            " should be 0 or 1, but is ",
            colour,
        ));
    }
    if zero != 0 {
        return Some(Flaw::Pair(
            "the last tree field of the node at byte ",
            node,
            " should be 0, but is ",
            zero,
        ));
    }
    (colour == 1 && is_below_red).then_some(Flaw::Number(
        "the node at byte ",
        node as usize,
        " is red, but it is the root or below a red node",
    ))
}
