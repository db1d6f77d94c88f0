//! The instruction table: the operations and their properties. The program and the definitions both read it.

ghost use Rattle.std.specs.Prelude.{◌≡◌, ◌≢◌, ◌≤◌, ◌+◌, map, IfSome, IfNone};
ghost use Rattle.client_spec.specs.Operations.{opcode, entries, mnemonic, row_of};
ghost use Rattle.client_spec.specs.declared.table.TheConstants.{OPERATIONS};

/// What an instruction does. The discriminant is the operation's number in a client file.
#[derive(Debug, Clone, Copy, PartialEq, Eq)]
pub enum Operation {
    Const = 1,
    Mov,
    Add,
    Sub,
    Mul,
    Less,
    Equal,
    If,
    While,
    Else,
    End,
    OutInt,
    OutStr,
    OutConst,
    GetByte,
    Make,
    Find,
    FindOrMake,
    Count,
    Kill,
    MakeUnique,
    FindUnique,
    FindOrMakeUnique,
    KillUnique,
    New,
    Drop,
    Ref,
    Put,
    Take,
    Content,
    Clear,
    Forget,
    Load,
    Store,
    Field,
    Len,
    At,
    PushBack,
    PushFront,
    PopBack,
    PopFront,
    SetStr,
    AddStr,
    AddByte,
    Shrink,
    GetKey,
    PutKey,
    DeleteKey,
    FirstKey,
    NextKey,
    Freeze,
    Share,
}

/// The role of an operation in the nesting of code.
#[derive(Debug, Clone, Copy, PartialEq, Eq)]
pub enum Role {
    /// An instruction without parts.
    Plain,
    /// Opens a success part, which is followed by `ELSE`, an else part and `END`.
    Opener,
    /// Opens a body, which is followed by `END`.
    Loop,
    /// Separates a success part from its else part.
    Else,
    /// Ends an else part or a body.
    End,
}

/// What an operand may be.
#[derive(Debug, Clone, Copy, PartialEq, Eq)]
pub enum Operand {
    Unused,
    Register,
    /// A register, or 16 for none.
    Optional,
}

/// What an instruction's number means.
#[derive(Debug, Clone, Copy, PartialEq, Eq)]
pub enum Number {
    Unused,
    /// Any signed number of 32 bits.
    Any,
    /// The most iterations of a loop.
    Turns,
    /// The number of a type of the client.
    TypeId,
    /// The number of a text constant of the client.
    Text,
    /// A type and a name: `256 * type + constant`. The number of a family's member is in register b; for an exact name b is 16
    /// (none).
    TypedName,
}

/// What register b or c must contain.
#[derive(Debug, Clone, Copy, PartialEq, Eq)]
pub enum Need {
    Nothing,
    Int,
    /// A number, or the operand is 16 (none).
    IntOrNone,
    /// A number or a reference.
    Copyable,
    /// An object that the register owns.
    Owner,
    /// An owned object of the type in register b's `own` or `shared`.
    Content,
    /// A reference to a value of a type of these kinds.
    Reference(Kinds),
    /// The same, but not into a frozen object.
    Changeable(Kinds),
    /// A reference to a `shared` of the same type as register b's.
    Alike,
}

/// The kinds of types that an operation works on.
#[derive(Debug, Clone, Copy, PartialEq, Eq)]
pub enum Kinds {
    Any,
    I64,
    Str,
    List,
    Own,
    Shared,
    /// `own` or `shared`.
    Holder,
    /// A struct that has a field with the instruction's number.
    Struct,
    /// `vec` or `list`.
    Sequence,
    /// `str`, `vec` or `list`.
    Indexed,
    /// `str`, `vec` or `flat_map`.
    Buffered,
    /// `flat_map` or `map`.
    Map,
    /// All but `i64`, `own`, `struct` and `shared`.
    Sized,
}

/// What is known of register a after success.
#[derive(Debug, Clone, Copy, PartialEq, Eq)]
pub enum Gives {
    /// No register changes.
    Nothing,
    /// A number.
    Int,
    /// The same as register b.
    Copy,
    /// A reference to an object of the name.
    Named,
    /// A reference to the type's unique object.
    Unique,
    /// A new object of the type.
    Owner,
    /// A reference to the object that register b owns.
    Owned,
    /// The object that was in register b's `own`.
    Content,
    /// A reference to a part of the value that register b refers to, or the byte of a text. Through a `shared` it is a reference
    /// into a frozen object.
    Part,
    /// Nothing, and register b becomes undefined.
    Forgotten,
}

/// The references that end, before register a is set.
#[derive(Debug, Clone, Copy, PartialEq, Eq)]
pub enum Ends {
    Nothing,
    /// Those of register b's class, except the one in b.
    Others,
    /// Those to objects of the name.
    Name,
    /// Those to the type's unique object.
    Unique,
    /// Those into the object of register b, which b no longer owns.
    Dropped,
    /// As `Others`, and those into the object of register c, which c no longer owns.
    Moved,
    /// As `Moved`, but in the else part register c still owns its object.
    Frozen,
}

/// A row of the instruction table.
#[derive(Debug, Clone, Copy, PartialEq, Eq)]
pub struct Row {
    pub operation: Operation,
    /// The first version of client files that has the operation.
    pub version: u32,
    pub role: Role,
    pub a: Operand,
    pub b: Operand,
    pub c: Operand,
    pub number: Number,
    pub needs_b: Need,
    pub needs_c: Need,
    pub gives: Gives,
    pub ends: Ends,
}

// operation, word, version, role; a, b, c, number; what b and c must contain; what a contains afterwards, which references end
macro_rules! row {
    ($operation:ident, $word:literal, $version:literal, $role:ident; $a:ident, $b:ident, $c:ident, $number:ident;
     $needs_b:ident $(($kinds:ident))?, $needs_c:ident; $gives:ident, $ends:ident) => {
        (
            $word,
            Row {
                operation: Operation::$operation,
                version: $version,
                role: Role::$role,
                a: Operand::$a,
                b: Operand::$b,
                c: Operand::$c,
                number: Number::$number,
                needs_b: Need::$needs_b $((Kinds::$kinds))?,
                needs_c: Need::$needs_c,
                gives: Gives::$gives,
                ends: Ends::$ends,
            },
        )
    };
}

/// The number of operations.
pub const OPERATIONS: usize = 52;

/// The instruction table, in the order of the operations' numbers: each operation's mnemonic and its row.
pub static ROWS: [(&str, Row); OPERATIONS] = [
    row!(Const, "CONST", 1, Plain; Register, Unused, Unused, Any; Nothing, Nothing; Int, Nothing),
    row!(Mov, "MOV", 1, Plain; Register, Register, Unused, Unused; Copyable, Nothing; Copy, Nothing),
    row!(Add, "ADD", 1, Plain; Register, Register, Register, Unused; Int, Int; Int, Nothing),
    row!(Sub, "SUB", 1, Plain; Register, Register, Register, Unused; Int, Int; Int, Nothing),
    row!(Mul, "MUL", 1, Plain; Register, Register, Register, Unused; Int, Int; Int, Nothing),
    row!(Less, "LT", 1, Plain; Register, Register, Register, Unused; Int, Int; Int, Nothing),
    row!(Equal, "EQ", 1, Plain; Register, Register, Register, Unused; Int, Int; Int, Nothing),
    row!(If, "IF", 1, Opener; Unused, Register, Unused, Unused; Int, Nothing; Nothing, Nothing),
    row!(While, "WHILE", 1, Loop; Unused, Register, Unused, Turns; Int, Nothing; Nothing, Nothing),
    row!(Else, "ELSE", 1, Else; Unused, Unused, Unused, Unused; Nothing, Nothing; Nothing, Nothing),
    row!(End, "END", 1, End; Unused, Unused, Unused, Unused; Nothing, Nothing; Nothing, Nothing),
    row!(OutInt, "OUTI", 1, Plain; Unused, Register, Unused, Unused; Int, Nothing; Nothing, Nothing),
    row!(OutStr, "OUTS", 1, Plain; Unused, Register, Unused, Unused; Reference(Str), Nothing; Nothing, Nothing),
    row!(OutConst, "OUTC", 1, Plain; Unused, Unused, Unused, Text; Nothing, Nothing; Nothing, Nothing),
    row!(GetByte, "GETB", 1, Opener; Register, Unused, Unused, Unused; Nothing, Nothing; Int, Nothing),
    row!(Make, "MAKE", 1, Opener; Register, Optional, Optional, TypedName; IntOrNone, IntOrNone; Named, Nothing),
    row!(Find, "FIND", 1, Opener; Register, Optional, Optional, TypedName; IntOrNone, IntOrNone; Named, Nothing),
    row!(FindOrMake, "FINDOR", 1, Opener; Register, Optional, Unused, TypedName; IntOrNone, Nothing; Named, Nothing),
    row!(Count, "COUNT", 1, Opener; Register, Optional, Unused, TypedName; IntOrNone, Nothing; Int, Nothing),
    row!(Kill, "KILL", 1, Plain; Register, Optional, Unused, TypedName; IntOrNone, Nothing; Int, Name),
    row!(MakeUnique, "UMAKE", 1, Opener; Register, Unused, Unused, TypeId; Nothing, Nothing; Unique, Nothing),
    row!(FindUnique, "UFIND", 1, Opener; Register, Unused, Unused, TypeId; Nothing, Nothing; Unique, Nothing),
    row!(FindOrMakeUnique, "UFINDOR", 1, Opener; Register, Unused, Unused, TypeId; Nothing, Nothing; Unique, Nothing),
    row!(KillUnique, "UKILL", 1, Plain; Register, Unused, Unused, TypeId; Nothing, Nothing; Int, Unique),
    row!(New, "NEW", 1, Opener; Register, Unused, Unused, TypeId; Nothing, Nothing; Owner, Nothing),
    row!(Drop, "DROP", 1, Plain; Unused, Register, Unused, Unused; Owner, Nothing; Nothing, Dropped),
    row!(Ref, "REF", 1, Plain; Register, Register, Unused, Unused; Owner, Nothing; Owned, Nothing),
    row!(Put, "PUT", 1, Plain; Unused, Register, Register, Unused; Changeable(Own), Content; Nothing, Moved),
    row!(Take, "TAKE", 1, Opener; Register, Register, Unused, Unused; Changeable(Own), Nothing; Content, Others),
    row!(Content, "CONTENT", 1, Opener; Register, Register, Unused, Unused; Reference(Holder), Nothing; Part, Nothing),
    row!(Clear, "CLEAR", 1, Plain; Unused, Register, Unused, Unused; Changeable(Any), Nothing; Nothing, Others),
    row!(Forget, "FORGET", 1, Plain; Unused, Register, Unused, Unused; Nothing, Nothing; Forgotten, Nothing),
    row!(Load, "LOAD", 1, Plain; Register, Register, Unused, Unused; Reference(I64), Nothing; Int, Nothing),
    row!(Store, "STORE", 1, Plain; Unused, Register, Register, Unused; Changeable(I64), Int; Nothing, Nothing),
    row!(Field, "FIELD", 1, Plain; Register, Register, Unused, Any; Reference(Struct), Nothing; Part, Nothing),
    row!(Len, "LEN", 1, Plain; Register, Register, Unused, Unused; Reference(Sized), Nothing; Int, Nothing),
    row!(At, "AT", 1, Opener; Register, Register, Register, Unused; Reference(Indexed), Int; Part, Nothing),
    row!(PushBack, "PUSH", 1, Opener; Register, Register, Unused, Unused; Changeable(Sequence), Nothing; Part, Others),
    row!(PushFront, "PUSHF", 1, Opener; Register, Register, Unused, Unused; Changeable(List), Nothing; Part, Others),
    row!(PopBack, "POP", 1, Opener; Register, Register, Unused, Unused; Changeable(Indexed), Nothing; Int, Others),
    row!(PopFront, "POPF", 1, Opener; Register, Register, Unused, Unused; Changeable(List), Nothing; Int, Others),
    row!(SetStr, "SETS", 1, Opener; Register, Register, Unused, Text; Changeable(Str), Nothing; Int, Nothing),
    row!(AddStr, "ADDS", 1, Opener; Register, Register, Unused, Text; Changeable(Str), Nothing; Int, Nothing),
    row!(AddByte, "ADDB", 1, Opener; Register, Register, Register, Unused; Changeable(Str), Int; Int, Nothing),
    row!(Shrink, "SHRINK", 1, Plain; Unused, Register, Unused, Unused; Changeable(Buffered), Nothing; Nothing, Nothing),
    row!(GetKey, "GETK", 1, Opener; Register, Register, Register, Unused; Reference(Map), Int; Part, Nothing),
    row!(PutKey, "PUTK", 1, Opener; Register, Register, Register, Unused; Changeable(Map), Int; Part, Others),
    row!(DeleteKey, "DELK", 1, Plain; Register, Register, Register, Unused; Changeable(Map), Int; Int, Others),
    row!(FirstKey, "FIRSTK", 1, Opener; Register, Register, Unused, Unused; Reference(Map), Nothing; Int, Nothing),
    row!(NextKey, "NEXTK", 1, Opener; Register, Register, Register, Unused; Reference(Map), Int; Int, Nothing),
    row!(Freeze, "FREEZE", 2, Opener; Register, Register, Register, Unused; Changeable(Shared), Content; Int, Frozen),
    row!(Share, "SHARE", 2, Plain; Unused, Register, Register, Unused; Changeable(Shared), Alike; Nothing, Others),
];

fn rows() -> &'static [(&'static str, Row); OPERATIONS]
    ensures { map (λ entry. (entry.0.now, entry.1)) result.now ≡ entries }
{
    &ROWS
}

impl Operation {
    /// The operation's number in a client file, from 1 on.
    pub fn number(self) -> u8
        ensures { result ≡ opcode self }
    {
        self as u8
    }

    /// The index of the operation's row in the table.
    fn index(self) -> usize
        ensures { result + 1 ≡ opcode self }
    {
        self as usize - 1
    }

    /// The operation's mnemonic in the assembler text.
    pub fn word(self) -> &'static str
        ensures { result.now ≡ mnemonic self }
    {
        rows()[self.index()].0
    }

    /// The operation's row of the table.
    pub fn row(self) -> Row
        ensures row { result ≡ row_of self }
        ensures own { result.operation ≡ self }
    {
        rows()[self.index()].1
    }

    /// The operation with a number, or `None` if no operation has it.
    pub fn from_number(number: u8) -> Option<Operation>
        ensures found { IfSome result (λ operation. opcode operation ≡ number) }
        ensures none { IfNone result ((operation : Operation) → opcode operation ≢ number) }
    {
        let index = usize::from(number).checked_sub(1)?;
        let (_, row) = rows().get(index)?;
        Some(row.operation)
    }

    /// The operation of a number that some operation has.
    #[inline]
    pub fn of_number(number: u8) -> Operation
        requires { (1 ≤ number) × (number ≤ OPERATIONS) }
        ensures { opcode result ≡ number }
    {
        rows()[usize::from(number) - 1].1.operation
    }

    /// The operation with a mnemonic, or `None` if no operation has it.
    pub fn from_word(word: &[u8]) -> Option<Operation>
        ensures found { IfSome result (λ operation. mnemonic operation ≡ word.now) }
        ensures none { IfNone result ((operation : Operation) → mnemonic operation ≢ word.now) }
    {
        for (text, row) in rows() {
            if text.as_bytes() == word {
                return Some(row.operation);
            }
        }
        None
    }
}
