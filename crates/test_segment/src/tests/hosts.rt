//! Each call of a host on an image, with its reasons to refuse, and the blocks that it leaves, worked out by hand.

use crate::tests::calls::play;
use std::test::Fail;

/// Objects with names, unique objects, and anonymous ones.
const OBJECTS: &str = "
$ new 4096
types => 14
B = construct b t0 3
construct b t0 => exists
construct b t1 => exists
construct t0 => range ; an empty name, one with a space, and one that isn't ASCII
construct t0: a b => range
construct é t0 => range
construct c t0 0 => range
construct c t14 => type
construct c t31 => type
construct c t0 60000 => memory
construct c t0 65535 => memory
find_or_construct b t0 => B
find b t0 => B
find b t1 => type
find_item b t0 0 => B
I = find_item b t0 2
distance B I => 16
find_item b t0 3 => range
count b t0 => 3
find_or_construct a t1
names: a/1/1 b/0/3
fault: sound
destroy b t1 => no
destroy b t0
destroy b t0 => no
find b t0 => absent
count b t0 => absent
is_named a
is_named b => no
is_named as => no
destroy a t1
all_memory_deallocated

; names are listed in order
$ new 4096
construct e t0
construct b t0
construct c t0
construct a t0
construct d t0
names: a/0 b/0 c/0 d/0 e/0
find bb t0 => absent
destroy c t0
destroy c t0 => no
names: a/0 b/0 d/0 e/0
fault: sound
destroy a t0
destroy b t0
destroy d t0
destroy e t0
names:
all_memory_deallocated

$ new 4096
find_unique t0 => absent
U = construct_unique t0
construct_unique t0 => exists
find_or_construct_unique t0 => U
find_unique t0 => U
find_unique t14 => type
find_unique t31 => type
find_or_construct_unique t11
num_unique => 2
fault: sound
destroy_unique t0
destroy_unique t0 => no
find_unique t0 => absent
destroy_unique t11
num_unique => 0
all_memory_deallocated

; an object without an owner is a fault in an image
$ new 4096
V = construct_anonymous t2
push_back V
blocks: 704/2 736/3
fault: unowned 704
destroy_anonymous V
fault: sound
all_memory_deallocated
construct_anonymous t14 => type
construct_anonymous t31 => type
";

/// Numbers, structs, texts and owns.
const VALUES: &str = "
$ new 4096
P = construct pair t7
N = field P 0
T = field P 1
distance N T => 8
field P 2 => range
field N 0 => type
store N -5
load N => -5
load T => type
store T 1 => type
assign T: good
append T: -day
text T: good-day
text P => type
items T => type
number_bytes T => type
len T => 8
push_byte T 33 => 9
text T: good-day!
shrink_to_fit P => type
clear P
load N => 0
text T:
clear Z => type ; a place of an unknown type

; a text of 40 bytes has a block of 4 units with its header, one of 5 bytes a block of 2
$ new 1024
T = construct_unique t1
assign T: a text of forty bytes, which is 3 units.
blocks: 704/2 736/4
assign T: short
blocks: 704/2 736/4
shrink_to_fit T
blocks: 704/2 736/2
text T: short
clear T
blocks: 704/2
fault: sound
destroy_unique t1
all_memory_deallocated

; a text of 16 bytes needs 2 units, and gets 3, since one unit can't be a block
$ new 784
T = construct_unique t1
assign T: sixteen letters!
blocks: 704/2 736/3
free_memory => 0

; an object in an own is replaced by another one
$ new 4096
O = construct own t6
content O => null
I = put_content O
store I 9
content O => I
J = put_content O
content O => J
load J => 0
fault: sound
content J => type

; an own gets an object, and loses it
$ new 4096
O = construct_unique t6
N = construct_anonymous t0
blocks: 704/2 736/2
set_own O N
content O => N
fault: sound
take_own O => N
take_own O => null
destroy_anonymous N
destroy_unique t6
all_memory_deallocated
";

/// Vectors and lists.
const SEQUENCES: &str = "
$ new 4096 t2 t3
V = construct v t
pop_back V => null
item V 0 => range
A = push_back V
store A 1
push_back V
B = item V 1
store B 2
C = push_back V
store C 3
items V: 1 2 3
len V => 3
pop_back V
items V: 1 2
item V 2 => range
put V 1 => type
fault: sound

$ new 4096
L = construct l t3
A = push_back L
store A 2
B = push_back L
store B 3
F = push_front L
store F 1
items L: 1 2 3
item L 0 => F
next F => A
previous F => B
pop_front L
pop_back L
items L: 2
item L 1 => range
pop_front L
pop_front L => null
pop_back L => null
number_bytes L => type
push_numbers L: 5 => type
shrink_to_fit L => type
destroy l t3
all_memory_deallocated

; a vector has room for 4 numbers, and then, in place, for 8. After the fifth push it is cut to 5. The whole heap has room for 34.
$ new 1024
V = construct_unique t2
push_front V => type
push_back V
blocks: 704/2 736/3
push_back V
push_back V
push_back V
blocks: 704/2 736/3
push_back V
blocks: 704/2 736/5
shrink_to_fit V
blocks: 704/2 736/4
items V: 0 0 0 0 0
clear V
push_numbers V: 5 6 7 8 9 10 11 12 13 14 15 16 17 18 19 20
len V => 16
items V: 5 6 7 8 9 10 11 12 13 14 15 16 17 18 19 20
number_bytes V: 5 6 7 8 9 10 11 12 13 14 15 16 17 18 19 20
push_numbers V:
push_numbers V: 21 22 23 24 25 26 27 28 29 30 31 32 33 34 35 36 37 38 39 40 => memory
blocks: 704/2 736/18
number_bytes V: 5 6 7 8 9 10 11 12 13 14 15 16 17 18 19 20 21 22 23 24 25 26 27 28 29 30 31 32 33 34 35 36 37 38
push_number V 39 => memory
pop_back V
push_number V -39 => 1016
N = item V 33
load N => -39
fault: sound
";

/// Maps of both kinds.
const MAPS: &str = "
$ new 4096 t4 t5
M = construct m t
first_key M => null
last_key M => null
first_entry M => null
last_entry M => null
next_entry M 0 => null
previous_entry M 0 => null
A = put M 3
store A 6
B = put M -5
store B -10
put M 4
put M 3
len M => 3
get M 3
A = get M 3
load A => 6
first_key M => -5
next_key M -5 => 3
next_key M 0 => 3
next_key M 4 => null
last_key M => 4
previous_key M 4 => 3
previous_key M 0 => -5
previous_key M -5 => null
first_entry M: -5 -10
next_entry M -5: 3 6
next_entry M 0: 3 6
next_entry M 4 => null
last_entry M: 4 0
previous_entry M 4: 3 6
previous_entry M 0: -5 -10
previous_entry M -5 => null
first_entry A => type
next_entry A 0 => type
last_entry A => type
previous_entry A 0 => type
keys M: -5 3 4
keys_above M -6: -5 3 4
keys_above M -5: 3 4
keys_above A 0 => type
entries M: -5 -10 3 6 4 0
entries_above M -6: -5 -10 3 6 4 0
entries_above M 0: 3 6 4 0
entries_above A 0 => type
remove M 3
remove M 3 => no
get M 3 => absent
push_back M => type
fault: sound

; a key is removed while a host goes through the keys
$ new 4096 t4 t5
M = construct_unique t
put M 4
put M 2
put M 6
put M 1
put M 3
put M 5
put M 7
first_key M => 1
next_key M 2 => 3
remove M 4
next_key M 3 => 5
next_key M 7 => null

; the same if the segment remembers where it is
$ new 4096 t4 t5
M = construct_unique t
put M 4
put M 2
put M 6
put M 1
put M 3
put M 5
put M 7
first_in_turn M => 1
next_in_turn M 2 => 3
remove M 4
next_in_turn M 3 => 5
next_in_turn M 7 => null

; the keys and numbers of a flat map in place
$ new 4096
M = construct_unique t4
pair_bytes M:
A = put M 3
store A 6
B = put M -5
store B -10
put M 4
pair_bytes M: -5 -10 3 6 4 0
remove M 3
pair_bytes M: -5 -10 4 0
shrink_to_fit M
pair_bytes M: -5 -10 4 0
clear M
pair_bytes M:
number_bytes M => type
T = construct_unique t5
put T 3
pair_bytes T => type
V = construct_unique t2
push_numbers V: 1 2
pair_bytes V => type
pair_bytes A => type
pair_bytes Z => type

; several keys with their numbers by one call: a key that comes again keeps its place and gets the later number
$ new 4096
M = construct_unique t4
put_numbers M: 3 6 -5 -10 4 0 3 7
pair_bytes M: -5 -10 3 7 4 0
put_numbers M:
put_numbers M: 9 -9 -6 60
pair_bytes M: -6 60 -5 -10 3 7 4 0 9 -9
T = construct_unique t5
A = put T 3
store A 30
put_numbers T: 5 50 3 31 -1 10
get T 3 => A
load A => 31
B = get T 5
load B => 50
C = get T -1
load C => 10
V = construct_unique t2
put_numbers V: 1 2 => type
put_numbers A: 1 2 => type
put_numbers Z: 1 2 => type
fault: sound
";

/// Frozen objects and the cells that share them.
const SHARED: &str = "
$ new 4096
O = construct source t6
A = construct first t8
B = construct second t8
freeze O A => null
freeze A O => type
N = put_content O
store N 9
freeze O A
content O => null
frozen B => null
share B O => type
share B A
fault: sound
destroy first t8
N = frozen B
load N => 9

; a frozen pair has 3 units, with its count and its number before its value. The first pair is freed with its last cell.
$ new 1024
C = construct_unique t10
O = construct_unique t9
blocks: 704/2 736/2
P = put_content O
blocks: 704/2 736/2 768/2
freeze O C
blocks: 704/2 736/2 800/3
F = frozen C
P = put_content O
S = field P 1
share S C
freeze O C
blocks: 704/2 736/2 800/3 848/3
G = frozen C
S = field G 1
frozen S => F
fault: sound
share C S
frozen C => F
blocks: 704/2 736/2 800/3
clear C
blocks: 704/2 736/2
destroy_unique t9
destroy_unique t10
all_memory_deallocated
";

/// Sizes and free memory. A number and its name take 80 bytes with either index.
const SIZES: &str = "
$ new 1024
free_memory => 320
all_memory_deallocated
S = construct seven t0
store S 7
all_memory_deallocated => no
free_memory => 240
grow 24 => size ; not a number of units, and more than a segment may have
grow 2147483648 => size
size => 1024
grow 4096 => 5120
free_memory => 4336
largest_gap => 4336
zero_free_memory
shrink => 784
largest_gap => 0
fault: sound
reopen
load S => 7
find seven t0 => S
grow 16 => 800

$ new 784
construct x t0
free_memory => 0
largest_gap => 0
construct y t0 => memory
grow 240 => 1024
free_memory => 240
largest_gap => 240
";

/// Images that were written by hand. The saved ones are of version 2.
const EXAMPLES: &str = "
$ open counter
X = find x t0
load X => 41
distance Z X => 720
names: x/0/1
saves: counter

$ open sharing
saves: sharing
blocks: 736/3 784/2 848/2
names: b/1
B = find b t1
N = frozen B
load N => 7
free_memory => 208
destroy b t1
free_memory => 320
fault: sound
";

/// Values of 20,000 objects, one inside the other, are checked and destroyed.
const DEEP: &str = "
; each object owns the next
$ one 1048576
O = construct_unique t12
20000 times P = put_content O | O = field P 1
fault: sound
destroy_unique t12
all_memory_deallocated

; each frozen object shares the one before. They are freed with the cell that shares the last.
$ one 1048576
C = construct_unique t10
O = construct_unique t9
P = put_content O
freeze O C
20000 times P = put_content O | S = field P 1 | share S C | freeze O C
fault: sound
clear C
blocks: 704/2 736/2
";

static TEXTS: [&str; 7] = [OBJECTS, VALUES, SEQUENCES, MAPS, SHARED, SIZES, EXAMPLES];

#[test]
fn calls_return_what_is_written(rt: HostRuntime) -> Result<(), Fail> {
    for text in &TEXTS {
        play(rt.alloc(), text)?;
    }
    Ok(())
}

#[test]
fn values_are_deep(rt: HostRuntime) -> Result<(), Fail> {
    play(rt.alloc(), DEEP)
}
