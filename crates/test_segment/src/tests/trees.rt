//! The calls on trees that maps, indexes and allocators don't make.

ghost use Rattle.std.specs.Prelude.{◌≡◌, ◌+◌, [], ◌∷◌, ⊤};
ghost use Rattle.std.proofs.Common.{inr, arith};
ghost use Rattle.std.specs.Ordering.{nat_cmp};
ghost use Rattle.std.specs.Cmp.{on_total, nat_cmp_total};
ghost use Rattle.seg_spec.specs.Bytes.{word};
ghost use Rattle.seg_rbtree.specs.Parts.{byte_range};
ghost use Rattle.seg_spec.proofs.BytesLaws.{number-slice};
ghost use Rattle.seg_spec.proofs.OrderLaws.{steps_up};

use seg_image::{Region, View, Window};
use seg_rbtree::{NodeOrder, TREE_WORDS, Tree};
use std::alloc::Global;
use std::cmp::Ordering;
use std::test::Fail;
use support_data::is_true;

/// The order of nodes by the number after their tree words.
struct ByNumber;

fn number(view: View, node: u32) -> u32
    ensures { result ≡ word view.entry.bytes.now (node + 16) }
{
    view.get32(node as usize + TREE_WORDS as usize)
}

impl NodeOrder<u32> for ByNumber {
    ghost exact = { ⊤ };

    ghost compare = { λ _ bytes x y. nat_cmp (word bytes (x + 16)) (word bytes (y + 16)) };

    ghost compare_key = { λ _ bytes x key. nat_cmp (word bytes (x + 16)) key };

    ghost read = { λ _ _ x. byte_range (x + 16) 4 ∷ [] };

    fn nodes(&self, view: View, node: u32, other: u32) -> Ordering {
        number(view, node).cmp(&number(view, other))
    }

    fn key(&self, view: View, node: u32, key: u32) -> Ordering {
        number(view, node).cmp(&key)
    }

    ghost total = { λ _ _ bytes. on_total (λ x. word bytes (x + 16)) nat_cmp_total };

    ghost keyed = { λ _ _ bytes x y key less. steps_up nat_cmp_total (word bytes (x + 16))
        (word bytes (y + 16)) key less };

    ghost apart = { λ _ _ _ x low _. (inr (omega arith), tt) };

    ghost steady = { λ _ _ old new x y same_x same_y i. nat_cmp
        (number-slice 4 old new (x + 16) (x + 16) same_x.0 i)
        (number-slice 4 old new (y + 16) (y + 16) same_y.0 i) };
}

/// Whether a tree of the numbers 32, 64 and 96, whose nodes are there, is searched from its root, which is 64, to 96.
fn looks_at_two_nodes(w: &mut Window<Global>) -> bool {
    let tree = Tree::new(0);
    w.point(0, None);
    let was_empty = tree.is_empty(w);
    for node in [32u32, 64, 96] {
        w.put32(node as usize + TREE_WORDS as usize, node);
        tree.insert(w, &ByNumber, node);
    }
    let looked = tree.first_at_least(w.view(), &ByNumber, 65);
    was_empty && looked.node == Some(96) && looked.looks == 2
}

#[test]
fn finds_the_first_node_at_or_above_a_key(rt: HostRuntime) -> Result<(), Fail> {
    match Window::place(Region::new(rt.alloc(), 128)?, 0, 128) {
        Ok(mut w) => is_true(looks_at_two_nodes(&mut w)).expect(&rt, "looks"),
        Err((fault, _region)) => return Err(Fail::from(fault)),
    }
    Ok(())
}
