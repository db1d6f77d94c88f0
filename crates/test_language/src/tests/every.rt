/// A client with each of the first 52 operations, every kind of type and every kind of constant. The verifier rejects it. Later
/// operations are in the random texts, which are written from the table.
pub const TEXT: &str = r"type i64
type str
type vec t0
type list t1
type flat_map t7
type map t0
type own t7
type struct t0 t1 t6
type shared t7
text a\0a\5cb
name x
family f~
CONST r5 -77
MOV r10 r15
ADD r4 r9 r14
SUB r3 r8 r13
MUL r2 r7 r12
LT r1 r6 r11
EQ r0 r5 r10
IF r15
ELSE
END
WHILE r4 300
END
OUTI r9
OUTS r14
OUTC k0
GETB r3
ELSE
END
MAKE r8 r7 - t7 k2
ELSE
END
FIND r13 - r12 t0 k1
ELSE
END
FINDOR r2 r7 t1 k2
ELSE
END
COUNT r7 - t2 k1
ELSE
END
KILL r12 r7 t3 k2
UMAKE r1 t4
ELSE
END
UFIND r6 t5
ELSE
END
UFINDOR r11 t6
ELSE
END
UKILL r0 t7
NEW r5 t0
ELSE
END
DROP r10
REF r15 r4
PUT r9 r14
TAKE r3 r8
ELSE
END
CONTENT r13 r2
ELSE
END
CLEAR r7
FORGET r12
LOAD r1 r6
STORE r11 r0
FIELD r5 r10 2
LEN r15 r4
AT r9 r14 r3
ELSE
END
PUSH r8 r13
ELSE
END
PUSHF r2 r7
ELSE
END
POP r12 r1
ELSE
END
POPF r6 r11
ELSE
END
SETS r0 r5 k0
ELSE
END
ADDS r10 r15 k0
ELSE
END
ADDB r4 r9 r14
ELSE
END
SHRINK r3
GETK r8 r13 r2
ELSE
END
PUTK r7 r12 r1
ELSE
END
DELK r6 r11 r0
FIRSTK r5 r10
ELSE
END
NEXTK r15 r4 r9
ELSE
END
FREEZE r14 r3 r8
ELSE
END
SHARE r13 r2
";
