ghost use Rattle.std.specs.Prelude.{◌≡◌, ℕ, ◌≤◌, List, ⊤};
ghost use Rattle.std.specs.List.{AllByRecursion};
ghost use Rattle.std.specs.Cmp.{IsTotalOrder};
ghost use Rattle.std.specs.declared.cmp.Ordering.{Ordering};
ghost use Rattle.std.specs.declared.cmp.Ordering.TheVariants.{Less, Equal};
ghost use Rattle.seg_spec.specs.Apart.{Separate};
ghost use Rattle.seg_spec.specs.Bytes.{IsSame};
ghost use Rattle.seg_spec.specs.Search.{rank_of};
ghost use Rattle.seg_rbtree.specs.Parts.{ByteRange};
ghost use Rattle.seg_rbtree.specs.Paths.{sought_by};

use seg_ptr::{NodeAt, View};
use std::cmp::Ordering;

/// The order of a tree's nodes, and how nodes compare with keys. It may read any bytes of a node but its tree words.
pub trait NodeOrder<K: Copy> {
    // Whether the comparisons are proved to satisfy the facts below. For an order that isn't proved this is false, and the
    // contracts state nothing.
    ghost exact: { Type 0 };

    // The comparison of two nodes in a segment with these bytes.
    ghost compare: { Self → List ℕ → ℕ → ℕ → Ordering };

    // The comparison of a node with a key.
    ghost compare_key: { Self → List ℕ → ℕ → K → Ordering };

    // The bytes that the order reads of a node.
    ghost read: { Self → List ℕ → ℕ → List ByteRange };

    // The premise of `apart` for a node. An order that follows a node's pointers needs one.
    ghost placed: { Self → List ℕ → ℕ → Type 0 } = { λ _ _ _. ⊤ };

    /// Compares two nodes.
    fn nodes(&self, view: View, node: NodeAt, other: NodeAt) -> Ordering
        ensures { exact → result ≡ compare self.now view.entry.bytes.now node other };

    /// Compares a node with a key.
    fn key(&self, view: View, node: NodeAt, key: K) -> Ordering
        ensures { exact → result ≡ compare_key self.now view.entry.bytes.now node key };

    // The order is total. Nodes that compare as equal need not be the same.
    ghost total: { exact → (order : Self) (bytes : List ℕ) → IsTotalOrder (compare order bytes) };

    // If a node is before another one, it doesn't compare as greater with any key.
    ghost keyed: { exact → (order : Self) (bytes : List ℕ) (x y : ℕ) (key : K)
        → compare order bytes x y ≡ Less
        → rank_of (compare_key order bytes x key) ≤ rank_of (compare_key order bytes y key) };

    // The order reads no tree word of a node that has a header before it.
    ghost apart: { exact → (order : Self) (bytes : List ℕ) (x : ℕ) → 16 ≤ x
        → placed order bytes x
        → AllByRecursion (λ p. Separate p.at p.len x 16) (read order bytes x) };

    // Nodes compare as before if the bytes that the order reads of them are the same.
    ghost steady: { exact → (order : Self) (old new : List ℕ) (x y : ℕ)
        → AllByRecursion (λ p. IsSame old new p.at p.len) (read order old x)
        → AllByRecursion (λ p. IsSame old new p.at p.len) (read order old y)
        → compare order new x y ≡ compare order old x y };
}

/// An order in which a key has at most one position: nodes that equal the same key equal each other.
pub trait UniqueKeys<K: Copy>: NodeOrder<K> {
    // Two nodes that equal a key equal each other.
    ghost one: { Self.exact → (order : Self) (bytes : List ℕ) (x y : ℕ) (key : K)
        → Self.compare_key order bytes x key ≡ Equal → Self.compare_key order bytes y key ≡ Equal
        → Self.compare order bytes x y ≡ Equal };
}

/// What a search looks for.
#[derive(Debug, Clone, Copy)]
pub(crate) enum Sought<K> {
    /// A node, or the empty place to insert it at.
    Node(NodeAt),
    /// A node that equals a key, or the empty place to insert one at.
    Key(K),
    /// The empty place before the first node that is at or above a key.
    First(K),
}

impl<K: Copy> Sought<K> {
    /// Compares what is looked for with a node.
    pub(crate) fn compare<O: NodeOrder<K>>(self, view: View, order: &O, node: NodeAt) -> Ordering
        ensures { O.exact → result ≡ sought_by (O.compare order.now view.entry.bytes.now)
            (O.compare_key order.now view.entry.bytes.now) self node }
    {
        match self {
            Sought::Node(sought) => order.nodes(view, sought, node),
            Sought::Key(key) => order.key(view, node, key).reverse(),
            Sought::First(key) => match order.key(view, node, key) {
                Ordering::Less => Ordering::Greater,
                Ordering::Equal | Ordering::Greater => Ordering::Less,
            },
        }
    }
}
