//! Traces, with lines worked out by hand from the instruction table.

use crate::tests::sharing::SHARE;
use client_trace::trace;
use client_vm::Through;
use seg_manager::IndexKind;
use std::alloc::Global;
use std::test::Fail;
use support_data::{Limited, SeqFit, client, created, front, ready};

/// A vector gets a struct, and the field of the struct the numbers 2 and 1 in a loop. The vector has no item 1. Then an object is
/// made and destroyed.
const STORES: &str = r"type i64
type vec t2
type struct t0 t0
name vector
text no item\0a
FINDOR r0 - t1 k0
  PUSH r1 r0
    FIELD r2 r1 1
    CONST r3 2
    CONST r4 1
    WHILE r3 5
      STORE r2 r3
      SUB r3 r3 r4
    END
    LOAD r5 r2
    OUTI r5
    AT r6 r0 r4
    ELSE
      OUTC k1
    END
  ELSE
  END
ELSE
END
NEW r7 t2
  REF r8 r7
  FIELD r9 r8 0
  DROP r7
ELSE
END
";

/// The steps of the loop: it begins, has two iterations of three steps, and ends at an `END` that isn't a step.
const STORES_TRACE: &str = r#"     1    0  FINDOR r0 - t1 k0  ; r0 -> vector
     2    1  PUSH r1 r0         ; r0 -> vector, r1 -> vector[0]
     3    2  FIELD r2 r1 1      ; r0 -> vector, r1 -> vector[0], r2 -> vector[0].field 1
     4    3  CONST r3 2         ; r0 -> vector, r1 -> vector[0], r2 -> vector[0].field 1, r3 = 2
     5    4  CONST r4 1         ; r0 -> vector, r1 -> vector[0], r2 -> vector[0].field 1, r3 = 2, r4 = 1
     6    5  WHILE r3 5         ; r0 -> vector, r1 -> vector[0], r2 -> vector[0].field 1, r3 = 2, r4 = 1
     7    8  END                ; r0 -> vector, r1 -> vector[0], r2 -> vector[0].field 1, r3 = 2, r4 = 1
     8    6  STORE r2 r3        ; r0 -> vector, r1 -> vector[0], r2 -> vector[0].field 1, r3 = 2, r4 = 1
     9    7  SUB r3 r3 r4       ; r0 -> vector, r1 -> vector[0], r2 -> vector[0].field 1, r3 = 1, r4 = 1
    10    8  END                ; r0 -> vector, r1 -> vector[0], r2 -> vector[0].field 1, r3 = 1, r4 = 1
    11    6  STORE r2 r3        ; r0 -> vector, r1 -> vector[0], r2 -> vector[0].field 1, r3 = 1, r4 = 1
    12    7  SUB r3 r3 r4       ; r0 -> vector, r1 -> vector[0], r2 -> vector[0].field 1, r3 = 0, r4 = 1
     -    8  END                ; r0 -> vector, r1 -> vector[0], r2 -> vector[0].field 1, r3 = 0, r4 = 1
    13    9  LOAD r5 r2         ; r0 -> vector, r1 -> vector[0], r2 -> vector[0].field 1, r3 = 0, r4 = 1, r5 = 1
    14   10  OUTI r5            ; r0 -> vector, r1 -> vector[0], r2 -> vector[0].field 1, r3 = 0, r4 = 1, r5 = 1
out "1\n"
    15   11  AT r6 r0 r4        ; r0 -> vector, r1 -> vector[0], r2 -> vector[0].field 1, r3 = 0, r4 = 1, r5 = 1, r6 = 5
    16   13  OUTC k1
out "no item\n"
    17   19  NEW r7 t2          ; r7 owns t2
    18   20  REF r8 r7          ; r7 owns t2, r8 -> r7.content
    19   21  FIELD r9 r8 0      ; r7 owns t2, r8 -> r7.content, r9 -> r7.content.field 0
    20   22  DROP r7
"#;

/// A unique map gets an own, and the own an object. A list of a family gets items at both ends, and is found.
const REFERS: &str = "type i64
type map t2
type own t0
type list t0
family row
CONST r0 0
CONST r1 -3
UMAKE r2 t1
  PUTK r3 r2 r1
    NEW r4 t0
      PUT r3 r4
      CONTENT r4 r3
      ELSE
      END
    ELSE
    END
  ELSE
  END
ELSE
END
MAKE r5 r1 - t3 k0
  PUSH r6 r5
    PUSHF r6 r5
    ELSE
    END
  ELSE
  END
  FIND r6 r1 r0 t3 k0
    MOV r7 r6
  ELSE
  END
ELSE
END
";

/// What is known in only one part of an opener isn't known after it.
const REFERS_TRACE: &str = r"     1    0  CONST r0 0           ; r0 = 0
     2    1  CONST r1 -3          ; r0 = 0, r1 = -3
     3    2  UMAKE r2 t1          ; r0 = 0, r1 = -3, r2 -> unique t1
     4    3  PUTK r3 r2 r1        ; r0 = 0, r1 = -3, r2 -> unique t1, r3 -> unique t1.key -3
     5    4  NEW r4 t0            ; r0 = 0, r1 = -3, r2 -> unique t1, r3 -> unique t1.key -3, r4 owns t0
     6    5  PUT r3 r4            ; r0 = 0, r1 = -3, r3 -> unique t1.key -3
     7    6  CONTENT r4 r3        ; r0 = 0, r1 = -3
     8   15  MAKE r5 r1 - t3 k0   ; r0 = 0, r1 = -3, r5 -> row#-3
     9   16  PUSH r6 r5           ; r0 = 0, r1 = -3, r5 -> row#-3, r6 -> row#-3[0]
    10   17  PUSHF r6 r5          ; r0 = 0, r1 = -3, r5 -> row#-3
    11   22  FIND r6 r1 r0 t3 k0  ; r0 = 0, r1 = -3, r5 -> row#-3, r6 -> row#-3.value 0
    12   23  MOV r7 r6            ; r0 = 0, r1 = -3
";

/// A chain gets five objects, each of which owns the next, and a text of 61 bytes is printed.
const CHAIN: &str = "type i64
type own t2
type struct t0 t1
name chain
text 0123456789012345678901234567890123456789012345678901234567890
FINDOR r0 - t1 k0
  CONST r1 1
  WHILE r1 5
    NEW r2 t2
      PUT r0 r2
      CONTENT r3 r0
        FIELD r0 r3 1
      ELSE
      END
    ELSE
    END
  END
  OUTC k1
ELSE
END
";

/// Three steps come before five iterations of five steps. The path to the last own has ten parts, of which eight are shown.
const CHAIN_TRACE: &str = r#"     1    0  FINDOR r0 - t1 k0  ; r0 -> chain
     2    1  CONST r1 1         ; r0 -> chain, r1 = 1
     3    2  WHILE r1 5         ; r0 -> chain, r1 = 1
     4   11  END                ; r0 -> chain, r1 = 1
     5    3  NEW r2 t2          ; r0 -> chain, r1 = 1, r2 owns t2
     6    4  PUT r0 r2          ; r0 -> chain, r1 = 1
     7    5  CONTENT r3 r0      ; r0 -> chain, r1 = 1, r3 -> chain.content
     8    6  FIELD r0 r3 1      ; r0 -> chain.content.field 1, r1 = 1
     9   11  END                ; r0 -> chain.content.field 1, r1 = 1
    10    3  NEW r2 t2          ; r0 -> chain.content.field 1, r1 = 1, r2 owns t2
    11    4  PUT r0 r2          ; r0 -> chain.content.field 1, r1 = 1
    12    5  CONTENT r3 r0      ; r0 -> chain.content.field 1, r1 = 1, r3 -> chain.content.field 1.content
    13    6  FIELD r0 r3 1      ; r0 -> chain.content.field 1.content.field 1, r1 = 1
    14   11  END                ; r0 -> chain.content.field 1.content.field 1, r1 = 1
    15    3  NEW r2 t2          ; r0 -> chain.content.field 1.content.field 1, r1 = 1, r2 owns t2
    16    4  PUT r0 r2          ; r0 -> chain.content.field 1.content.field 1, r1 = 1
    17    5  CONTENT r3 r0      ; r0 -> chain.content.field 1.content.field 1, r1 = 1, r3 -> chain.content.field 1.content.field 1.content
    18    6  FIELD r0 r3 1      ; r0 -> chain.content.field 1.content.field 1.content.field 1, r1 = 1
    19   11  END                ; r0 -> chain.content.field 1.content.field 1.content.field 1, r1 = 1
    20    3  NEW r2 t2          ; r0 -> chain.content.field 1.content.field 1.content.field 1, r1 = 1, r2 owns t2
    21    4  PUT r0 r2          ; r0 -> chain.content.field 1.content.field 1.content.field 1, r1 = 1
    22    5  CONTENT r3 r0      ; r0 -> chain.content.field 1.content.field 1.content.field 1, r1 = 1, r3 -> chain.content.field 1.content.field 1.content.field 1.content
    23    6  FIELD r0 r3 1      ; r0 -> chain.content.field 1.content.field 1.content.field 1.content.field 1, r1 = 1
    24   11  END                ; r0 -> chain.content.field 1.content.field 1.content.field 1.content.field 1, r1 = 1
    25    3  NEW r2 t2          ; r0 -> chain.content.field 1.content.field 1.content.field 1.content.field 1, r1 = 1, r2 owns t2
    26    4  PUT r0 r2          ; r0 -> chain.content.field 1.content.field 1.content.field 1.content.field 1, r1 = 1
    27    5  CONTENT r3 r0      ; r0 -> chain.content.field 1.content.field 1.content.field 1.content.field 1, r1 = 1, r3 -> chain.(1 parts).field 1.content.field 1.content.field 1.content.field 1.content
    28    6  FIELD r0 r3 1      ; r0 -> chain.(2 parts).content.field 1.content.field 1.content.field 1.content.field 1, r1 = 1
     -   11  END                ; r0 -> chain.(2 parts).content.field 1.content.field 1.content.field 1.content.field 1, r1 = 1
    29   12  OUTC k1
out "012345678901234567890123456789012345678901234567890123456789".. of 61
"#;

/// After `FREEZE` the register no longer owns the object, and the object is read-only.
const SHARE_TRACE: &str = r#"     1    0  CONST r4 7         ; r4 = 7
     2    1  MAKE r0 - - t1 k0  ; r0 -> a, r4 = 7
     3    2  MAKE r1 - - t1 k1  ; r0 -> a, r1 -> b, r4 = 7
     4    3  NEW r2 t0          ; r0 -> a, r1 -> b, r2 owns t0, r4 = 7
     5    4  REF r3 r2          ; r0 -> a, r1 -> b, r2 owns t0, r3 -> r2.content, r4 = 7
     6    5  STORE r3 r4        ; r0 -> a, r1 -> b, r2 owns t0, r3 -> r2.content, r4 = 7
     7    6  FREEZE r5 r0 r2    ; r0 -> a, r1 -> b, r4 = 7, r5 = 1
     8    7  SHARE r1 r0        ; r0 -> a, r1 -> b, r4 = 7, r5 = 1
     9    8  KILL r6 - t1 k0    ; r1 -> b, r4 = 7, r5 = 1, r6 = 1
    10    9  CONTENT r7 r1      ; r1 -> b, r4 = 7, r5 = 1, r6 = 1, r7 reads b.content
    11   10  LOAD r8 r7         ; r1 -> b, r4 = 7, r5 = 1, r6 = 1, r7 reads b.content, r8 = 7
    12   11  OUTI r8            ; r4 = 7
out "7\n"
"#;

// Clients, their traces, and how many bytes of a trace the output takes.
static TRACES: [(&str, &str, usize); 5] = [
    (STORES, STORES_TRACE, usize::MAX),
    (REFERS, REFERS_TRACE, usize::MAX),
    (CHAIN, CHAIN_TRACE, usize::MAX),
    (SHARE, SHARE_TRACE, usize::MAX),
    (SHARE, SHARE_TRACE, 100),
];

/// The trace of a client on an empty segment, with an output that takes this many bytes, and whether the trace is whole.
fn traced(alloc: Global, file: &[u8], limit: usize) -> Result<(Vec<u8>, bool), Fail> {
    let mut segment = created::<SeqFit>(alloc, 2048, IndexKind::Flat)?;
    let client = ready(alloc, file, segment.types())?;
    let mut out = Through::new(Limited::new(alloc, usize::MAX, limit));
    let is_whole = trace(alloc, &mut segment, &client, &[], &mut out).is_ok();
    Ok((out.into_inner().bytes, is_whole))
}

/// Whether the trace of a client is these lines, as far as the output takes them.
fn has_trace(alloc: Global, text: &str, lines: &str, limit: usize) -> Result<bool, Fail> {
    let file = client(alloc, text)?;
    let (out, is_whole) = traced(alloc, file.as_slice(), limit)?;
    Ok(out.as_slice() == front(lines.as_bytes(), limit) && is_whole == (limit == usize::MAX))
}

#[test]
fn traces(rt: HostRuntime) -> Result<(), Fail> {
    for (text, lines, limit) in &TRACES {
        assert!(rt; has_trace(rt.alloc(), text, lines, *limit)?, "{lines}");
    }
    Ok(())
}
