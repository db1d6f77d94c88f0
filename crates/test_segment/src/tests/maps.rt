//! The checker on maps and flat maps.

/// Maps and flat maps, and the faults in them.
pub(crate) const MAPS: &str = "
$ image
; a unique map with the keys -9, 0 and 9: its cell is at 720, the root at 800. A node has its key at offset 16.
type map t1
type i64
720 unique t0 2
752 node t0 3
800 node t0 3
848 node t0 3
720->800 724=3
752->null 756->null 760=1 768:-9
800->752  804->848  808=0 816:0
848->null 852->null 856=1 864:9

; the nodes of a map are claimed, each before what is below it
=> sound
720->null | 720->720 => pointer 720
800->720 => pointer 800
804->849 => pointer 804
804->752 => twice 736
848->800 => twice 784
; the left part before the right one, and both before colours, keys and the number of nodes
752->720 804->720 => pointer 752
804->720 760=2 764=1 768=1 772=0 724=2 => pointer 804
724=0 720->720 => value 720 ; a number that the pointer doesn't allow comes before the claims
720->null 724=0 => unowned 736

; maps that are no red-black tree of the counted nodes
760=0 856=0 => sound
724=0 | 724=2 | 724=4 => value 720 ; the number of nodes
; a red root, a third colour, other ways with another number of black nodes
808=1 | 760=2 | 760=0 | 856=0 => value 720
764=1 | 812=0x80000000 | 860=1 => value 720 ; words that are not 0
; two red nodes, one below the other, with as many black ones on each way
804->null 752->848 864:-10 => value 720
804->null 756->848 864:-8 => value 720
804->null 724=2 => unowned 832

; keys of a map out of order
768:0 | 768:5 | 816:9 | 816:-10 | 864:0 | 864:-9223372036854775808 => value 720
768:-9223372036854775808 864:9223372036854775807 => sound

$ image
; a chain of nodes, each to the left of the one before. The 61st node is reported before it is claimed, and the 60th after.
type map t1
type i64
720 unique t0 2
724=60
chain node 720 60
=> value 720
3584->5 | 3584->752 => value 720 ; the last node, at 752 + 59 * 48
3536->5 => pointer 3536
3536->752 => twice 736

$ image
; a unique flat map with the keys -5, 0 and 7: its cell is at 720, its entries have 16 bytes
type flat_map t1
type i64
720 unique t0 2
752 buffer t0 4
720->752 724=3
752:-5 768:0 784:7

; the cell of a flat map, and keys out of order
=> sound
724=2 | 724=0 => sound
724=4 | 724=0xffffffff | 720->null | 720->720 | 720->753 => pointer 720
720->null 724=0 => unowned 736
752:0 | 752:5 | 768:7 | 768:-6 | 784:0 | 784:-1 => value 720
752:-9223372036854775808 784:9223372036854775807 => sound

; the bytes after the counted keys may have any values
784:-7 => value 720
784:-7 724=2 => sound
";
