//! The checker on tables of types.

/// Tables of types, which are read from 64 on, and their first wrong entry.
pub(crate) const TYPES: &str = "
$ image
; a free block, and no types. An entry has 16 bytes: a kind, the number of parts, and the parts.
720 gap 2
24->720
=> sound
64=10 => type 0 ; no kind of types
64=0x020103 96=1 => type 2 ; vec t2, unused, i64
64=0x010103 80=10 => type 1 ; vec t1, an unknown kind
64=0x010103 => type 0 ; vec t1, unused
64=0x000107 => sound ; own t0
64=0x000108 => type 0 ; struct t0
64=1 80=0x000108 => sound ; i64, struct t0
64=1 80=8 => type 1 ; i64, a struct without fields
64=1 80=0x000101 => type 1 ; i64, i64 with a part

; types of shared cells are of version 2
64=0x010109 80=1 => type 0 ; shared t1, i64
8=2 64=0x010109 80=1 => sound
8=2 64=1 80=0x020109 => type 1 ; i64, shared t2
8=2 64=9 80=1 => type 0 ; shared without a part, i64
";
