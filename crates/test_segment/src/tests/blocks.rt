//! The checker on blocks and free structures.

/// Heaps, and the faults in their blocks and free structures.
pub(crate) const BLOCKS: &str = "
$ image
; three unique numbers, with free blocks of 2, 3 and 2 units between and after them, whose links are at 748, 812 and 892
type i64
type i64
type i64
720 unique t0 2
752 gap 2
784 unique t1 2
816 gap 3
864 unique t2 2
896 gap 2

; the free list of sequential fit
24->752 748->816 812->896 892->null
=> sound

; headers of blocks
704=0x80000000 | 704=0x80000001 | 704=0x8000000e | 704=0xffffffff | 704=2 | 708=1 => block 704
704=0x80000003 => block 752
740=3 => block 736
884=0 => block 880
712=0 | 712=7 | 712=0x302 | 712=0x10002 | 712=3 | 712=4 | 712=0x105 | 716=0 => block 704
744=2 | 744=0x100 => block 736
880=0x80000002 => block 880
768=2 776=0 => block 768 ; a free block after a free one
; these tags are allowed, of blocks that nothing may name here
712=1 | 712=5 | 712=6 | 712=0x102 => pointer 576

; the pointers of the free list
24->null | 24->816 | 24->720 | 24=0 => free 24
748->null | 748->752 | 748->896 => free 748
812->752 | 812->897 => free 812
892->752 | 892=0 => free 892
; the list in another order: its first pointer is wrong
24->896 892->816 812->752 748->null => free 24
752=77 764=78 816=79 => sound ; what stands in a gap is of no matter
16=1 => free 24 ; the list is no tree of best fit

; the free tree of best fit: its root is the free block at 880; below are the lower one of the same size, and the larger one
16=1 24->896
748->null 812->null 892->null
752->null 756->null 760=1
816->null 820->null 824=1
896->752  900->816  904=0
=> sound

; the colours and links of the free tree
760=0 824=0 | 832=77 => sound
; a red root, a third colour, words that are not 0, one way with fewer black nodes
904=1 | 760=2 | 764=1 | 908=0x80000000 | 760=0 => free 24
748=0 | 812=0 | 892=0 => free 24 ; a link

; free trees of other blocks, or in another order
; not all free blocks, one twice, what is no free block, a circle
24->null | 24->752 | 896->null | 900->null | 900->752 | 896->720 | 896->753 => free 24
896->896 | 752->896 | 896=0x7fffffff => free 24
896->816 900->752 => free 24 ; larger before smaller
; of one size, the higher one before the lower one
24->752 760=0 752->896 756->816 896->null 900->null 904=1 => free 24
16=0 => free 24 ; the tree is no list of sequential fit

$ image
; a buffer is for a string, a vector or a flat map; a node is for a list or a map
type str
type list t0
720 unique t0 2
752 unique t1 2
720->null 724=0
752->null 756=0
=> sound
712=3 => pointer 576
712=4 => block 704
744=0x104 => pointer 580
744=0x103 => block 736

$ image
; without free blocks both free structures are empty
type i64
720 unique t0 2
16=0 | 16=1 => sound
16=0 24->720 | 16=0 24=0 | 16=1 24->720 | 16=1 24=0 => free 24
16=2 | 20=2 => header
";
