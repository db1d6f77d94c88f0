//! The checker reports the first of several faults.

/// Images with several faults, of which the first is reported.
pub(crate) const ORDER: &str = "
$ image
; a named number, a unique own of a number, and a unique string. Each change makes a fault that comes before the others.
type i64
type own t0
type str
720 named t0 2
752 index t0 2
784 unique t1 2
816 unique t2 2
848 object t0 2
728='x'
32->752 36=1
752->720 756=1,1
784->848 788=1
816->null 820=0
=> sound
; each change makes a fault that comes before the faults of the changes above
584->null
=> unowned 800
788=2
=> value 784
584->784
=> pointer 584
728=0
=> index 752
24=0
=> free 24
844=0
=> block 832
708=1
=> block 704
112=9
=> type 3
8=3
=> header

$ image
; the counts of frozen objects are checked after all values and before blocks without owners. The lowest object has no owner.
8=2 28=1
type i64
type shared t0
type own t0
720 object t0 2
752 unique t1 2
784 unique t2 2
816 frozen t0 2
752->816 756=1
784->null 788=0
816=1
=> unowned 704
816=2
=> value 816
788=2
=> value 784
752->784
=> pointer 752

$ image
; blocks are checked in the order in which they were claimed: the second cell of an object comes before what the first one owns
type own t1
type str
type struct t0 t0
720 unique t2 2
752 object t1 2
784 object t1 2
816 buffer t1 2
848 buffer t1 2
720->752 724=1
728->784 732=1
752->816 756=3
784->848 788=3
=> sound
752->null 784->null => pointer 752
752->null 728->null => pointer 728
752->null 720->null => pointer 720
784->816 => twice 800 ; both strings claim one buffer: the second one is too late

$ image
; unique objects are claimed after all names, and before any value is checked
type own t1
type i64
720 unique t0 2
752 unique t1 2
720->null 724=0
=> sound
720->752 724=1 => twice 736
724=2 580->720 => pointer 580
724=1 580=2 => pointer 580
";
