//! The checker on lists.

/// Lists, and the faults in them.
pub(crate) const LISTS: &str = "
$ image
; a unique list of three numbers: its cell is at 720
type list t1
type i64
720 unique t0 2
752 node t0 2
784 node t0 2
816 node t0 2
720->752 724=3
752->784 756->816
784->816 788->752
816->752 820->784

; the nodes of a list are claimed from the first one on
=> sound
760=7 764=0x80000000 => sound ; another number
720->null => pointer 720
752->null | 752->720 => pointer 752
784->817 => pointer 784
784->752 | 752->752 => twice 736
724=4 | 724=0xffffffff => twice 736 ; a fourth node is the first again
720->null 724=0 => unowned 736

; lists that are no ring of the counted nodes
724=2 | 724=1 | 724=0 => value 720 ; fewer nodes, and none beside a pointer
816->null | 816->784 => value 720 ; the last one's next
756->null | 756->784 | 788->816 | 820->816 => value 720 ; previous ones
756->null 784->null => pointer 784 ; the claims come first
; a ring that goes on after the nodes that are counted
724=2 784->752 => value 720
724=2 784->752 756->784 => unowned 800

$ image
; in a list of one node, `next` has the distance 0, and the pointer to the node before has -4
type list t1
type i64
720 unique t0 2
752 node t0 2
720->752 724=1
752=0 756=0xfffffffc
=> sound
752=1 | 756=1 => value 720

$ image
; a node of two units has 16 bytes: two pointers and 8 bytes more. A value of 16 bytes doesn't fit.
type i64
type struct t0 t0
type list t1
720 unique t2 2
752 node t2 2
720->752 724=1
752=0 756=0xfffffffc
=> pointer 720

$ image
; a node of three units has room for that value
type i64
type struct t0 t0
type list t1
720 unique t2 2
752 node t2 3
720->752 724=1
752=0 756=0xfffffffc
=> sound
";
