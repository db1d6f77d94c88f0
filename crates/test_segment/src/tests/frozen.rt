//! The checker on frozen objects and shared cells.

/// Frozen objects and cells that share them, and the faults in them.
pub(crate) const FROZEN: &str = "
$ image
; a unique cell, and the frozen number 7 that it shares: a count, a number, and the value
8=2 28=1
type i64
type shared t0
720 unique t1 2
752 frozen t0 2
720->752 724=1
752=1 756=0 760:7

; the count and the number of a frozen object
=> sound
760:-1 => sound ; another value
752=0 | 752=2 | 752=0xffffffff => value 752 ; the cells that name it
; its number, below the next one
756=1 | 756=0xffffffff | 28=0 => value 752
28=2 | 28=0xffffffff | 756=0xfffffffe 28=0xffffffff => sound
756=0xffffffff 28=0xffffffff => value 752
; nothing names it, so that what it counts is of no matter
720->null 724=0 | 720->null 724=0 752=9 756=9 => unowned 736

; the pointer of a cell that shares, and the tag of what it shares
724=0 | 724=2 | 724=0xffffffff => value 720
720->null 724=2 => value 720
720->null => pointer 720
720->720 | 720->753 | 720->16 | 720->768 | 720=0x7fffffff => pointer 720
; an object that isn't frozen, and one that is, of another type
744=2 | 744=0x107 => pointer 720
744=0x207 | 744=0x100 | 744=8 => block 736 ; tags that no block has
736=0x80000003 => block 736

; only version 2 has shared cells, frozen objects, and a number for the next frozen object
8=1 => header
8=0 | 8=3 | 8=0x102 | 8=0xffffffff => header
8=1 28=0 => type 1

; a type of shared cells has one part, which may be the type itself
80=0x0009 | 80=0x0209 | 80=0x020109 | 80=0x01000109 | 80=0x010a => type 1
80=0x010109 => pointer 720
80=0x010109 744=0x107 760->null 764=0 => sound
80=0x010109 744=0x107 760->752 764=1 752=2 => value 760
80=0x010109 744=0x107 => value 760

$ image
; a frozen value of 16 bytes needs 24 bytes with its count and its number
8=2 28=1
type i64
type struct t0 t0
type shared t1
720 unique t2 2
752 frozen t1 2
720->752 724=1
752=1
=> pointer 720

$ image
8=2 28=1
type i64
type struct t0 t0
type shared t1
720 unique t2 2
752 frozen t1 3
720->752 724=1
752=1
=> sound

$ image
; a vector of three cells, two of which share the same frozen number. The second cell is counted, and isn't a second owner.
8=2 28=5
type i64
type shared t0
type vec t1
720 unique t2 2
752 buffer t2 3
800 frozen t0 2
832 frozen t0 2
720->752 724=3
752->800 756=1
760->832 764=1
768->800 772=1
800=2 804=4 808:7
832=1 836=0 840:8
=> sound
800=1 | 800=3 | 800=0 => value 800
800=1 832=2 | 804=5 832=2 => value 800 ; the lower object first
832=2 | 836=5 => value 832
768->832 => value 800
768->832 800=1 832=2 => sound
768->null 772=0 => value 800
768->null 772=0 800=1 => sound
724=2 800=1 => sound
836=4 => sound ; the checker doesn't compare the numbers of objects that don't name one another
728->720 => sound ; the object of a cell doesn't matter
760->null 764=0 => unowned 816

$ image
; a frozen pair shares another one, which has a lower number. Their cells are at 768 and 816.
8=2 28=2
type i64
type shared t2
type struct t0 t1
720 unique t1 2
752 frozen t2 3
800 frozen t2 3
720->752 724=1
752=1 756=1 768->800 772=1
800=1 804=0 816->null

; frozen objects that share objects with higher numbers, or with counts of other cells
=> sound
804=1 | 756=0 | 756=0 804=1 | 804=0xffffffff => value 768
756=9 28=10 | 756=9 804=8 28=10 => sound
756=2 => value 752
756=3 804=2 => value 752 ; of both numbers, which aren't below the next one, the lower object's first
816->752 820=1 => value 816 ; round in a circle
816->800 820=1 800=2 => value 816 ; itself
772=0 | 772=2 => value 768
768->null | 768->720 | 768->0 => pointer 768
768->null 772=0 => unowned 784
752=2 800=2 => value 752
800=2 => value 800

; cells outside frozen objects may share objects with any number
768->null 772=0 800=1 720->800 752=0 => unowned 736
720->800 800=1 768->null 772=0 756=0 804=1 => unowned 736

$ image
; a frozen struct of an own and a vector. The own has a cell, and the vector has two: all three cells share one number.
8=2 28=2
type i64
type shared t0
type own t1
type vec t1
type struct t2 t3
type shared t4
720 unique t5 2
752 frozen t4 3
800 object t1 2
832 buffer t3 2
864 frozen t0 2
720->752 724=1
752=1 756=1 760->800 764=1 768->832 772=2
800->864 804=1
832->864 836=1 840->864 844=1
864=3 868=0 872:7
=> sound
868=1 => value 800
800->null 804=0 868=1 => value 832
800->null 804=0 832->null 836=0 868=1 => value 840
800->null 804=0 832->null 836=0 840->null 844=0 => unowned 848
800->null 804=0 864=2 => sound
864=2 | 864=4 => value 864
; the first object's own value isn't looked at for what it names but by its cell
756=0 => value 800

$ image
; the same through a list and a map. The value in a list node is at offset 8, and in a map node at offset 24.
8=2 28=2
type i64
type shared t0
type list t1
type map t1
type struct t2 t3
type shared t4
720 unique t5 2
752 frozen t4 3
800 node t2 2
832 node t3 3
880 frozen t0 2
720->752 724=1
752=1 756=1 760->800 764=1 768->832 772=1
800=0 804=0xfffffffc 808->880 812=1
832->null 836->null 840=0 848:5 856->880 860=1
880=2 884=0 888:7
=> sound
884=1 => value 808
808->null 812=0 884=1 => value 856
880=1 => value 880

$ image
; an image of version 1 has no frozen object
type i64
720 unique t0 2
752 frozen t0 2
752=1
=> block 736
28=1 | 28=0x80000000 => header
8=2 28=1 | 8=2 28=0xffffffff | 8=2 => unowned 736
";
