//! The checker on strings, vectors, owns and structs, and on unique objects.

/// Values and unique objects, and the faults in them.
pub(crate) const VALUES: &str = "
$ image
; a string of 20 bytes, in a buffer with room for 32
type str
720 unique t0 2
752 buffer t0 3
720->752 724=20
=> sound
724=32 | 724=0 | 752=0xffffffff 780=7 => sound
724=33 | 724=0xffffffff | 720->null | 720->720 | 720->753 | 720->704 => pointer 720
720=0x7fffffff | 744=2 => pointer 720
720->null 724=0 => unowned 736

$ image
; a vector of two strings, the second of them empty, in a buffer with room for six
type vec t1
type str
720 unique t0 2
752 buffer t0 4
816 buffer t1 2
720->752 724=2
752->816 756=3
760->null 764=0
=> sound
724=1 => sound
724=0 => unowned 800
724=7 | 720->null => pointer 720
724=3 => pointer 768 ; the third item's pointer names itself
752->null | 756=17 => pointer 752
764=1 => pointer 760
760->816 => twice 800
760->752 => pointer 760 ; the buffer of the vector isn't one of a string
760->720 => pointer 760 ; a wrong tag comes before a second owner

$ image
; an own of a number
type own t1
type i64
720 unique t0 2
752 object t1 2
720->752 724=1
=> sound
724=0 | 724=2 | 720->null 724=2 | 720->null 724=0xffffffff | 720->5 724=2 => value 720
720->null | 720->720 => pointer 720
720->null 724=0 => unowned 736
580->752 => twice 736 ; the object is a unique one too

$ image
; an own of a type that is an own of that type: objects inside objects
type own t0
720 unique t0 2
752 object t0 2
784 object t0 2
816 object t0 2
720->752 724=1
752->784 756=1
784->816 788=1
816->null 820=0
=> sound
816->816 820=1 => twice 800
816->720 820=1 => twice 704
784->784 => twice 768

$ image
; a struct of a number, a string, and a struct with a string. Its cells are at 728 and 736.
type i64
type str
type struct t1
type struct t0 t1 t2
720 unique t3 3
768 buffer t1 2
800 buffer t1 2
728->768 732=1
736->800 740=1
=> sound
720=1 724=9 => sound
728->null 736->null => pointer 728
736->null => pointer 736
736->768 => twice 752

$ image
; a named object has two strings as its values, and its name after them
type str
720 named t0 3
768 index t0 2
800 buffer t0 2
832 buffer t0 2
736='n'
32->768 36=1
768->720 772=2,1
720->800 724=5
728->832 732=5
=> sound
720->null 728->null => pointer 720
732=17 => pointer 728
728->800 => twice 784

$ image
; three unique objects, of two numbers and a struct
type i64
type i64
type struct t0 t0 t0
720 unique t0 2
752 unique t1 2
784 unique t2 3
=> sound
576->null => unowned 704
580->null 584->null => unowned 736
580->720 => pointer 580 ; the word of the second type names the first object, of the first type
576->721 | 576->16 | 712=1 => pointer 576
588->720 => pointer 588 ; the words of types that there are not
700=0 => pointer 700
744=0x202 584->752 => pointer 580 ; 16 bytes for a value of 24
744=0x202 580->null 584->752 => pointer 584
";
