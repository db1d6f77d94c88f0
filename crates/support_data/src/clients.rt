use std::alloc::{AllocError, Global};

/// The text of `examples/increment.text`: a client that adds 1 to the number x, and prints it.
pub const INCREMENT: &str = "type i64
name x
FIND r0 - - t0 k0
LOAD r1 r0
CONST r2 1
ADD r1 r1 r2
STORE r0 r1
OUTI r1
ELSE
END
";

/// The bytes of `examples/increment.client`.
pub const INCREMENT_FILE: [u8; 103] = [
    b'S', b'E', b'G', b'C', 1, 0, 0, 0, 1, 0, 0, 0, 1, 0, 0, 0, 8, 0, 0, 0, // the header
    1, 0, 0, 0, 0, 0, 0, 0, 0, 0, 0, 0, 0, 0, 0, 0, // type i64
    2, 1, b'x', // name x
    0x11, 0, 0x10, 0x10, 0, 0, 0, 0, // FIND r0 - - t0 k0
    0x21, 1, 0, 0, 0, 0, 0, 0, // LOAD r1 r0
    0x01, 2, 0, 0, 1, 0, 0, 0, // CONST r2 1
    0x03, 1, 1, 2, 0, 0, 0, 0, // ADD r1 r1 r2
    0x22, 0, 0, 1, 0, 0, 0, 0, // STORE r0 r1
    0x0c, 0, 1, 0, 0, 0, 0, 0, // OUTI r1
    0x0a, 0, 0, 0, 0, 0, 0, 0, // ELSE
    0x0b, 0, 0, 0, 0, 0, 0, 0, // END
];

/// The text of a client that makes a chain of `nodes` objects, each of which owns the one before, and destroys it.
pub fn chain(alloc: Global, nodes: u32) -> Result<String, AllocError> {
    format!(in alloc;
        "type i64
type own t2
type struct t0 t1
name h
CONST r0 {nodes}
CONST r1 1
FINDOR r2 - t1 k0
WHILE r0 {nodes}
NEW r3 t2
REF r4 r3
FIELD r5 r4 1
TAKE r6 r2
PUT r5 r6
ELSE
END
PUT r2 r3
ELSE
END
SUB r0 r0 r1
END
ELSE
END
KILL r7 - t1 k0
"
    )
}

/// Makes an object of each kind, requests memory by each instruction, and prints each code.
pub const MAKE_EACH_KIND: &str = "type i64
    type str
    type vec t1
    type list t0
    type flat_map t0
    type map t1
    type own t7
    type struct t0 t1
    name a
    name b
    name c
    name d
    name e
    family f
text a text of forty bytes, which is 3 units.
    CONST r1 7
    CONST r2 65
    MAKE r0 - r1 t0 k0
    ELSE
      OUTI r0
    END
    FINDOR r0 - t1 k1
      SETS r3 r0 k6
      ELSE
        OUTI r3
      END
      ADDS r3 r0 k6
      ELSE
        OUTI r3
      END
      ADDB r3 r0 r2
      ELSE
        OUTI r3
      END
    ELSE
      OUTI r0
    END
    MAKE r0 - - t2 k2
      PUSH r3 r0
        SETS r4 r3 k6
        ELSE
          OUTI r4
        END
      ELSE
        OUTI r3
      END
      PUSH r3 r0
      ELSE
        OUTI r3
      END
    ELSE
      OUTI r0
    END
    MAKE r0 - - t3 k3
      PUSH r3 r0
      ELSE
        OUTI r3
      END
      PUSHF r3 r0
      ELSE
        OUTI r3
      END
    ELSE
      OUTI r0
    END
    MAKE r0 - - t4 k4
      PUTK r3 r0 r1
      ELSE
        OUTI r3
      END
      PUTK r3 r0 r2
      ELSE
        OUTI r3
      END
    ELSE
      OUTI r0
    END
    MAKE r0 r1 - t5 k5
      PUTK r3 r0 r1
        ADDS r4 r3 k6
        ELSE
          OUTI r4
        END
      ELSE
        OUTI r3
      END
    ELSE
      OUTI r0
    END
    UMAKE r0 t6
      NEW r3 t7
        REF r4 r3
        FIELD r4 r4 1
        SETS r5 r4 k6
        ELSE
          OUTI r5
        END
        PUT r0 r3
      ELSE
        OUTI r3
      END
    ELSE
      OUTI r0
    END
    UFINDOR r0 t7
    ELSE
      OUTI r0
    END
";
