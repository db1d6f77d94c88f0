/// The text of `examples/count.text`.
pub const COUNT: &str = r"; Counts its runs in the number `runs`, which is made by the first one.
type i64
name runs
text no room\0a
CONST r1 1
FINDOR r0 - t0 k0
  LOAD r2 r0
  ADD r2 r2 r1
  STORE r0 r2
  OUTI r2
ELSE
  OUTC k1
END
";

/// The text of `examples/configure.text`.
pub const CONFIGURE: &str =
    r"; Writes a table of settings that other programs share: a greeting, and by their numbers a limit and a port.
; The port stays where a program has set it already.
type i64
type str
type flat_map t0
type struct t2 t1
name settings
text hello, world
text no room\0a
CONST r1 1
CONST r2 2
CONST r3 640
CONST r4 8080
FINDOR r0 - t3 k0
  FIELD r7 r0 1
  SETS r8 r7 k1
  ELSE
    OUTC k2
  END
  FIELD r5 r0 0
  PUTK r6 r5 r1
    STORE r6 r3
  ELSE
    OUTC k2
  END
  GETK r6 r5 r2
  ELSE
    PUTK r6 r5 r2
      STORE r6 r4
    ELSE
      OUTC k2
    END
  END
ELSE
  OUTC k2
END
";

/// The text of `examples/settings.text`.
pub const SETTINGS: &str =
    r"; Prints the table of settings: each number with its value, and the greeting.
type i64
type str
type flat_map t0
type struct t2 t1
name settings
text no settings\0a
text \0a
FIND r0 - - t3 k0
  FIELD r1 r0 0
  LEN r2 r1
  CONST r3 1
  CONST r4 0
  FIRSTK r4 r1
  ELSE
  END
  WHILE r2 1000
    GETK r5 r1 r4
      LOAD r5 r5
      OUTI r4
      OUTI r5
    ELSE
    END
    NEXTK r4 r1 r4
    ELSE
    END
    SUB r2 r2 r3
  END
  FIELD r1 r0 1
  OUTS r1
  OUTC k2
ELSE
  OUTC k1
END
";

/// The text of `examples/publish.text`.
pub const PUBLISH: &str =
    r"; Publishes a notice, a number and a text: it is frozen under the name `latest`, and shared under the name `shown`. From then on
; no client changes it; each run publishes another one.
type i64
type str
type struct t0 t1
type shared t2
name latest
name shown
text closed on Monday
text no room\0a
CONST r1 7
FINDOR r2 - t3 k0
  FINDOR r3 - t3 k1
    NEW r4 t2
      REF r5 r4
      FIELD r6 r5 0
      STORE r6 r1
      FIELD r6 r5 1
      SETS r7 r6 k2
        FREEZE r7 r2 r4
          SHARE r3 r2
        ELSE
          DROP r4
          OUTC k3
        END
      ELSE
        DROP r4
        OUTC k3
      END
    ELSE
      OUTC k3
    END
  ELSE
    OUTC k3
  END
ELSE
  OUTC k3
END
";

/// The text of `examples/notice.text`.
pub const NOTICE: &str = r"; Prints the notice that is shown: its number, and its text.
type i64
type str
type struct t0 t1
type shared t2
name shown
text no notice\0a
text \0a
FIND r0 - - t3 k0
  CONTENT r1 r0
    FIELD r2 r1 0
    LOAD r3 r2
    OUTI r3
    FIELD r2 r1 1
    OUTS r2
    OUTC k2
  ELSE
    OUTC k1
  END
ELSE
  OUTC k1
END
";

/// The text of `examples/cache.text`.
pub const CACHE: &str =
    r"; A cache of three entries, asked for the bytes of the input. A byte that isn't there is entered with its square, and the
; entry that came first goes. Prints `hit` or `miss` and the square for each byte.
type i64
type map t0
type list t0
name cache
name order
text hit\20
text miss\20
text no room\0a
CONST r1 1
CONST r2 0
CONST r3 3
FINDOR r4 - t1 k0
  FINDOR r5 - t2 k1
    WHILE r1 1000000
      GETB r6
        GETK r7 r4 r6
          LOAD r7 r7
          OUTC k2
          OUTI r7
        ELSE
          LEN r8 r5
          EQ r8 r8 r3
          IF r8
            AT r9 r5 r2
              LOAD r9 r9
              DELK r10 r4 r9
            ELSE
            END
            POPF r10 r5
            ELSE
            END
          ELSE
          END
          MUL r11 r6 r6
          PUSH r12 r5
            STORE r12 r6
            PUTK r7 r4 r6
              STORE r7 r11
              OUTC k3
              OUTI r11
            ELSE
              POP r10 r5
              ELSE
              END
              OUTC k4
            END
          ELSE
            OUTC k4
          END
        END
      ELSE
        CONST r1 0
      END
    END
  ELSE
    OUTC k4
  END
ELSE
  OUTC k4
END
";
