//! The rules for clients, as explanations.

pub(crate) const WHOLE: &str = "the file ends inside it";

pub(crate) const KNOWN: &str =
    "isn't an instruction, nor type, text, name or family; instructions are in capitals, and a comment is a line whose first byte is `;`";

pub(crate) const ORDER: &str = "types have to come first, then constants, then instructions";

pub(crate) const FEW: &str = "a client has at most 32 types, 256 constants and 4096 instructions";

pub(crate) const KINDS: &str =
    "1 to 8; an unused entry is all 0, and only unused entries may follow it";

/// The kinds of types in a client, and in an image of version 2.
pub(crate) const MORE_KINDS: &str =
    "1 to 9; an unused entry is all 0, and only unused entries may follow it";

pub(crate) const PARTS: &str =
    "i64 and str should have no component, a struct 1 to 8, and any other type one";

pub(crate) const ZEROS: &str = "the bytes after the components should be 0";

pub(crate) const TYPES: &str =
    "a component should be a used type, in a struct one before it, and a value has at most 4096 bytes";

pub(crate) const LARGE: &str = "a value should have at most 4096 bytes";

pub(crate) const TEXT_BYTES: &str =
    "a text has the bytes 0x20 to 0x7e; any other byte, or a backslash, is a backslash and two of 0 to 9 and a to f";

pub(crate) const SHORT_TEXT: &str = "a text has at most 255 bytes";

pub(crate) const ONE_WORD: &str = "exactly one word should follow";

pub(crate) const DIFFER: &str = "the name should differ from those before it";

pub(crate) const NO_NUMBER: &str = "the operation takes no number, so it should be 0";

pub(crate) const VERSION: &str = "only a client with a type `shared` may have this operation";

pub(crate) const TURNS: &str = "a loop should have 1 to 1000000000 turns";

pub(crate) const CLOSED: &str =
    "each instruction that can fail needs an ELSE and an END, and each loop an END";

pub(crate) const ELSE: &str = "ELSE ends the success part of an instruction that can fail";

pub(crate) const END: &str = "END ends an else part or the body of a loop";

pub(crate) const DEPTH: &str =
    "at most 8 parts may be open: a loop, and an instruction that can fail, opens one until its END";

pub(crate) const ENDS: &str = "the file should end after the last instruction";

pub(crate) const ANY: &str = "it isn't allowed; docs/FORMATS.md has the rules";
