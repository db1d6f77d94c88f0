//! The checker on the index of names, flat and a tree.

/// Indexes of names, and the faults in them.
pub(crate) const NAMES: &str = "
$ image
; the numbers a, ab and one whose name is 63 times the letter b, 0x62. An entry has the number of values and the length of the name.
type i64
720 named t0 2
752 named t0 2
784 named t0 6
880 index t0 3
728='a' 760='ab'
32->880 36=3
880->720 884=1,1
888->752 892=1,2
896->784 900=1,63
792=0x62626262 796=0x62626262 800=0x62626262 804=0x62626262
808=0x62626262 812=0x62626262 816=0x62626262 820=0x62626262
824=0x62626262 828=0x62626262 832=0x62626262 836=0x62626262
840=0x62626262 844=0x62626262 848=0x62626262 852=0x626262

; the pointer to the buffer of entries, and their number
=> sound
36=0 => index 32
32->null 36=0 => unowned 704
36=5 | 32->null | 32->720 | 32->881 | 32->16 | 20=1 => pointer 32
32->720 36=0 => pointer 32
36=4 => index 904 ; a fourth entry, of zeros
36=2 => unowned 768

; entries with wrong numbers or pointers
; the entry's numbers come before its claim
892=0,2 | 892=1,0 | 892=1,64 | 892=1,255 | 892=1,258 => index 888
892=0,2 888->null | 892=1,0 888->null | 892=1,64 888->null => index 888
892=1,255 888->null | 892=1,258 888->null => index 888
888->null | 888->753 | 888->880 | 888->4 | 892=2,2 | 892=1,9 => pointer 888
888->720 892=1,2 => twice 704 ; the claim comes before the name
; 16 bytes have room for a value and a name of 8 bytes, but here these are no letters
892=1,8 => index 888

; names with wrong bytes or out of order
; the bytes of the second name
760=0x61 | 760=0x2061 | 760=0x7f61 | 760=0x8061 | 760=0xff61 => index 888
760='a!' | 760='a~' => sound
728='b' | 892=1,1 => index 888 ; the first name after the second, and equal to it
880->752 884=1,2 888->720 892=1,1 => index 888 ; a prefix after the longer name
760='cc' => index 896 ; the third before the second

$ image
; the numbers a, b and c, in a tree of nodes at 816, 864 (the root) and 912. A node has its entry at offset 16.
type i64
20=1
720 named t0 2
752 named t0 2
784 named t0 2
816 index_node t0 3
864 index_node t0 3
912 index_node t0 3
728='a' 760='b' 792='c'
32->864 36=3
816->null 820->null 824=1 832->720 836=1,1
864->816  868->912  872=0 880->752 884=1,1
912->null 916->null 920=1 928->784 932=1,1

; nodes that are no red-black tree of entries
=> sound
824=0 920=0 => sound
; a red root, a third colour, words that are not 0, a way with another number of black nodes
872=1 | 824=2 | 828=1 | 876=0x80000000 | 824=0 => index 32
36=0 | 36=2 | 36=4 => index 32 ; other numbers of names
32->null | 32->720 => pointer 32
32->null 36=0 => unowned 704
864->720 => pointer 864
868->913 => pointer 868
20=0 => pointer 32

; the nodes are claimed before the shape of the tree is checked
868->816 => twice 800
864->864 | 816->864 => twice 848
; the left part before the right one, and both before colours and the number of names
816->720 868->720 36=2 => pointer 816
868->720 824=2 36=0 => pointer 868
828=1 836=0,1 => index 32 ; the tree before its entries

; the entries of a tree are checked in the order of their names
836=0,1 884=0 => index 832
884=1,0 932=0 => index 880
932=1,257 => index 928
832->785 => pointer 832
864->912 868->816 => index 880 ; a and c change places: the first one out of order is b
832->752 => twice 736 ; the object b has two entries
760='a' => index 880
868->null 36=2 => unowned 768

$ image
; a chain of nodes, each to the left of the one before. The 61st node is reported before it is claimed, and the 60th after.
type i64
20=1 36=60
chain index_node 32 60
=> index 32
3552->5 | 3552->720 => index 32 ; the last node, at 720 + 59 * 48
3504->5 => pointer 3504
3504->720 => twice 704
";
