//! What may be wrong with a program, in words.

/// A message and its hint. In both, `$` is replaced by the words at the error, `@` for a type, and `~` for a
/// number.
#[derive(Clone, Copy)]
pub struct ErrorKind {
    pub message: &'static str,
    /// What would be right, if that is always the same.
    pub hint: &'static str,
    pub class: ErrorClass,
}

/// How the compiler treats an error.
#[derive(Clone, Copy, PartialEq, Eq)]
pub enum ErrorClass {
    Plain,
    Division,
    Field,
    /// More parts would be open than a client may have.
    Depth,
    Registers,
    /// Another limit of clients.
    Size,
}

impl ErrorKind {
    /// Whether a limit of clients is passed.
    pub fn is_limit(&self) -> bool {
        matches!(
            self.class,
            ErrorClass::Depth | ErrorClass::Registers | ErrorClass::Size
        )
    }

    // declarations
    pub const SECOND_FAIL: ErrorKind = ErrorKind {
        message: "there is a `fail` part already",
        hint: "",
        class: ErrorClass::Plain,
    };

    pub const SECOND_CONSTANT: ErrorKind = ErrorKind {
        message: "there is a constant `$` already, in line ~",
        hint: "",
        class: ErrorClass::Plain,
    };

    pub const SECOND_STRUCT: ErrorKind = ErrorKind {
        message: "there is a struct `$` already, in line ~",
        hint: "",
        class: ErrorClass::Plain,
    };

    pub const SECOND_OBJECT: ErrorKind = ErrorKind {
        message: "there is an object `$` already, in line ~",
        hint: "",
        class: ErrorClass::Plain,
    };

    pub const SECOND_FUNCTION: ErrorKind = ErrorKind {
        message: "there is a function `$` already, in line ~",
        hint: "",
        class: ErrorClass::Plain,
    };

    pub const FIELD_COUNT: ErrorKind = ErrorKind {
        message: "a struct has 1 to 8 fields, and this has ~",
        hint: "put some of them in a struct of their own, as a field",
        class: ErrorClass::Plain,
    };

    pub const DUPLICATE_FIELD: ErrorKind = ErrorKind {
        message: "there is a field `$` already",
        hint: "",
        class: ErrorClass::Plain,
    };

    pub const SEGMENT_NAME: ErrorKind = ErrorKind {
        message: "a name in the segment has 1 to ~ visible bytes, none of them `#`",
        hint: "",
        class: ErrorClass::Plain,
    };

    pub const ARRAY_LENGTH: ErrorKind = ErrorKind {
        message: "an object has 1 to 65,535 values",
        hint: "",
        class: ErrorClass::Plain,
    };

    pub const NO_TYPE: ErrorKind = ErrorKind {
        message: "there is no type `$`",
        hint: "",
        class: ErrorClass::Plain,
    };

    pub const CONTAINS_ITSELF: ErrorKind = ErrorKind {
        message: "the struct of `$` would lie in itself",
        hint: "write `own<..>`",
        class: ErrorClass::Plain,
    };

    pub const DIVIDES_BY_ZERO: ErrorKind = ErrorKind {
        message: "this divides by 0",
        hint: "",
        class: ErrorClass::Division,
    };

    pub const NOT_CONSTANT: ErrorKind = ErrorKind {
        message: "this has to be known when the program is compiled",
        hint: "numbers, texts, constants and operators on them are",
        class: ErrorClass::Plain,
    };

    pub const LEAVES_FAIL: ErrorKind = ErrorKind {
        message: "`$` in a `fail` part would leave what it is used in",
        hint: "`stop` may stand there",
        class: ErrorClass::Plain,
    };

    // names and places
    pub const NO_NAME: ErrorKind = ErrorKind {
        message: "there is no `$` here",
        hint: "",
        class: ErrorClass::Plain,
    };

    pub const CALL_AS_PLACE: ErrorKind = ErrorKind {
        message: "`$(..)` is no place",
        hint: "",
        class: ErrorClass::Plain,
    };

    pub const PLACE_WANTED: ErrorKind = ErrorKind {
        message: "a place is wanted here",
        hint: "",
        class: ErrorClass::Plain,
    };

    pub const NUMBER_HAS_NO_PARTS: ErrorKind = ErrorKind {
        message: "`$` is a number, and has no parts",
        hint: "",
        class: ErrorClass::Plain,
    };

    pub const GONE: ErrorKind = ErrorKind {
        message: "`$` may be gone here: line ~ removes something on its way",
        hint: "look it up again",
        class: ErrorClass::Plain,
    };

    pub const MOVED: ErrorKind = ErrorKind {
        message: "`$` was moved or dropped before: it comes from line ~",
        hint: "",
        class: ErrorClass::Plain,
    };

    pub const FAMILY: ErrorKind = ErrorKind {
        message: "`$` is a family: it wants a number",
        hint: "write `..[n]`",
        class: ErrorClass::Plain,
    };

    pub const ARRAY: ErrorKind = ErrorKind {
        message: "`$` is an array: it wants a number",
        hint: "write `..[n]`",
        class: ErrorClass::Plain,
    };

    pub const CONSTANT_AS_PLACE: ErrorKind = ErrorKind {
        message: "`$` is a constant, and no place",
        hint: "",
        class: ErrorClass::Plain,
    };

    pub const KEY_HAS_NO_PARTS: ErrorKind = ErrorKind {
        message: "a key is a number, and has no parts",
        hint: "",
        class: ErrorClass::Plain,
    };

    pub const LENGTH_HAS_NO_PARTS: ErrorKind = ErrorKind {
        message: "a length is a number, and has no parts",
        hint: "",
        class: ErrorClass::Plain,
    };

    pub const AFTER_ARGUMENTS: ErrorKind = ErrorKind {
        message: "`after` takes one key",
        hint: "",
        class: ErrorClass::Plain,
    };

    pub const METHOD_AS_VALUE: ErrorKind = ErrorKind {
        message: "`$(..)` gives nothing here",
        hint: "methods stand alone, or behind `if let x =`",
        class: ErrorClass::Plain,
    };

    /// Its hint lists the fields of the struct.
    pub const NO_FIELD: ErrorKind = ErrorKind {
        message: "`@` has no field `$`",
        hint: "",
        class: ErrorClass::Field,
    };

    pub const NO_PART: ErrorKind = ErrorKind {
        message: "`@` has no field `$`",
        hint: "an item is `[..]`, the number of items `.len`",
        class: ErrorClass::Plain,
    };

    pub const NO_ITEMS: ErrorKind = ErrorKind {
        message: "`@` has no items",
        hint: "",
        class: ErrorClass::Plain,
    };

    pub const FROZEN: ErrorKind = ErrorKind {
        message: "what is frozen is only read",
        hint: "make a new value, freeze that, and share it",
        class: ErrorClass::Plain,
    };

    // values
    pub const TEXT_AS_NUMBER: ErrorKind = ErrorKind {
        message: "a number is wanted here, and this is a text",
        hint: "a byte stands in single quotation marks: 'a'",
        class: ErrorClass::Plain,
    };

    pub const NOT_NUMBER: ErrorKind = ErrorKind {
        message: "a number is wanted here, and `$` is @",
        hint: "",
        class: ErrorClass::Plain,
    };

    pub const NUMBER_WANTED: ErrorKind = ErrorKind {
        message: "a number is wanted here",
        hint: "",
        class: ErrorClass::Plain,
    };

    pub const MAY_BE_ABSENT: ErrorKind = ErrorKind {
        message: "this may be absent",
        hint: "say what it is then, as `.. ?? 0`, or look it up with `if let`",
        class: ErrorClass::Plain,
    };

    pub const DEFAULT_OF: ErrorKind = ErrorKind {
        message: "`??` is for numbers, and this is @",
        hint: "look it up with `if let`",
        class: ErrorClass::Plain,
    };

    pub const NEEDLESS_DEFAULT: ErrorKind = ErrorKind {
        message: "this is always there",
        hint: "leave `??` and what follows it out",
        class: ErrorClass::Plain,
    };

    pub const TWO_TEXTS: ErrorKind = ErrorKind {
        message: "two texts aren't compared",
        hint: "a text is compared with a constant one; compare two by a loop over their bytes",
        class: ErrorClass::Plain,
    };

    pub const TEXT_WANTED: ErrorKind = ErrorKind {
        message: "a text is wanted here, and this is @",
        hint: "",
        class: ErrorClass::Plain,
    };

    pub const WIDTH: ErrorKind = ErrorKind {
        message: "a width is 1 to 18",
        hint: "",
        class: ErrorClass::Plain,
    };

    pub const MISPLACED_WIDTH: ErrorKind = ErrorKind {
        message: "`value : width` is for print and write",
        hint: "",
        class: ErrorClass::Plain,
    };

    pub const NOT_PRINTABLE: ErrorKind = ErrorKind {
        message: "@ can't be printed",
        hint: "print its parts",
        class: ErrorClass::Plain,
    };

    pub const COPY_BOUND: ErrorKind = ErrorKind {
        message: "at most how many bytes are copied?",
        hint: "say so behind the items, as `max 100`",
        class: ErrorClass::Plain,
    };

    pub const ADDED_TO_ITSELF: ErrorKind = ErrorKind {
        message: "a text isn't added to itself",
        hint: "",
        class: ErrorClass::Plain,
    };

    pub const NO_FUNCTION: ErrorKind = ErrorKind {
        message: "there is no function `$`",
        hint: "",
        class: ErrorClass::Plain,
    };

    pub const RECURSION: ErrorKind = ErrorKind {
        message: "`$` calls itself",
        hint: "functions are written out where they are called; write a loop",
        class: ErrorClass::Plain,
    };

    pub const ARGUMENT_COUNT: ErrorKind = ErrorKind {
        message: "`$` takes ~ values, and has ~ here",
        hint: "",
        class: ErrorClass::Plain,
    };

    pub const NO_RESULT: ErrorKind = ErrorKind {
        message: "`$` gives no number",
        hint: "",
        class: ErrorClass::Plain,
    };

    pub const ARGUMENT_TYPE: ErrorKind = ErrorKind {
        message: "@ is wanted here",
        hint: "",
        class: ErrorClass::Plain,
    };

    pub const ARGUMENT_MISMATCH: ErrorKind = ErrorKind {
        message: "@ is wanted here, and this is @",
        hint: "",
        class: ErrorClass::Plain,
    };

    // statements
    pub const NOT_IN_LOOP: ErrorKind = ErrorKind {
        message: "`$` stands in no loop",
        hint: "",
        class: ErrorClass::Plain,
    };

    pub const NOT_IN_FUNCTION: ErrorKind = ErrorKind {
        message: "`$` stands in no function",
        hint: "the program is left by `stop`",
        class: ErrorClass::Plain,
    };

    pub const RETURN_WITHOUT: ErrorKind = ErrorKind {
        message: "this function gives a number",
        hint: "",
        class: ErrorClass::Plain,
    };

    pub const RETURN_WITH: ErrorKind = ErrorKind {
        message: "this function gives nothing",
        hint: "write `-> int` behind its parameters",
        class: ErrorClass::Plain,
    };

    pub const LOOP_BOUND: ErrorKind = ErrorKind {
        message: "at most how many turns does this loop make?",
        hint: "say so before its `{`, as `max 1000`; with `else { .. }` behind it the program hears when that was too few",
        class: ErrorClass::Plain,
    };

    pub const TURNS: ErrorKind = ErrorKind {
        message: "a loop makes 1 to 1,000,000,000 turns",
        hint: "",
        class: ErrorClass::Plain,
    };

    pub const OBJECT_NAME: ErrorKind = ErrorKind {
        message: "`$` is the name of an object",
        hint: "",
        class: ErrorClass::Plain,
    };

    pub const LET_ABSENT: ErrorKind = ErrorKind {
        message: "this may be absent",
        hint: "write `if let`, or `let .. else { .. }` with an else part that leaves",
        class: ErrorClass::Plain,
    };

    pub const NOT_LOOKUP: ErrorKind = ErrorKind {
        message: "`if let` looks something up, and this is no place",
        hint: "write `let`",
        class: ErrorClass::Plain,
    };

    pub const NEVER_ABSENT: ErrorKind = ErrorKind {
        message: "this is always there",
        hint: "write `let`",
        class: ErrorClass::Plain,
    };

    pub const TAKE_OF: ErrorKind = ErrorKind {
        message: "`take` is for own<..>, and this is @",
        hint: "",
        class: ErrorClass::Plain,
    };

    pub const NEEDLESS_USE: ErrorKind = ErrorKind {
        message: "a number needs no `use`",
        hint: "",
        class: ErrorClass::Plain,
    };

    pub const UNNAMED_USE: ErrorKind = ErrorKind {
        message: "this place wants a name",
        hint: "write `use .. as NAME`",
        class: ErrorClass::Plain,
    };

    pub const INPUT_PAIR: ErrorKind = ErrorKind {
        message: "the input gives one byte a turn",
        hint: "",
        class: ErrorClass::Plain,
    };

    pub const RANGE_PAIR: ErrorKind = ErrorKind {
        message: "a range gives one number a turn",
        hint: "",
        class: ErrorClass::Plain,
    };

    pub const NO_SOURCE: ErrorKind = ErrorKind {
        message: "`for` goes through input, a range `a..b`, or a container",
        hint: "",
        class: ErrorClass::Plain,
    };

    pub const NOT_CONTAINER: ErrorKind = ErrorKind {
        message: "`for` goes through a container, and this is @",
        hint: "",
        class: ErrorClass::Plain,
    };

    pub const LOOP_NAME: ErrorKind = ErrorKind {
        message: "`$` is set by its loop alone",
        hint: "copy it: `let n = ..`",
        class: ErrorClass::Plain,
    };

    pub const SEVERAL_VALUES: ErrorKind = ErrorKind {
        message: "a number is set to one value",
        hint: "",
        class: ErrorClass::Plain,
    };

    pub const IS_NUMBER: ErrorKind = ErrorKind {
        message: "`$` is a number",
        hint: "",
        class: ErrorClass::Plain,
    };

    pub const LENGTH_SET: ErrorKind = ErrorKind {
        message: "a length isn't set",
        hint: "items are added with push, and removed with pop or clear",
        class: ErrorClass::Plain,
    };

    pub const ONLY_NUMBERS: ErrorKind = ErrorKind {
        message: "`$` is for numbers",
        hint: "",
        class: ErrorClass::Plain,
    };

    pub const ONLY_NAMED_NUMBERS: ErrorKind = ErrorKind {
        message: "`$` is for numbers with names",
        hint: "write `let n = ..`, and set the place to `n`",
        class: ErrorClass::Plain,
    };

    pub const OWNER_WANTED: ErrorKind = ErrorKind {
        message: "an owned object is wanted here",
        hint: "make it with `let x = new ..`, or take it with `let x = take ..`",
        class: ErrorClass::Plain,
    };

    pub const NEW_WANTED: ErrorKind = ErrorKind {
        message: "an owned object is wanted here",
        hint: "make it with `let x = new ..`",
        class: ErrorClass::Plain,
    };

    pub const MISMATCH: ErrorKind = ErrorKind {
        message: "this is @, and @ is wanted",
        hint: "",
        class: ErrorClass::Plain,
    };

    pub const OWNS_ITSELF: ErrorKind = ErrorKind {
        message: "an object would own itself",
        hint: "",
        class: ErrorClass::Plain,
    };

    pub const SHARES_ITSELF: ErrorKind = ErrorKind {
        message: "an object would share itself",
        hint: "",
        class: ErrorClass::Plain,
    };

    pub const SHARED_SET: ErrorKind = ErrorKind {
        message: "@ isn't set",
        hint: "write `freeze .. = ..` or `share .. = ..`",
        class: ErrorClass::Plain,
    };

    pub const STRUCT_SET: ErrorKind = ErrorKind {
        message: "@ isn't set",
        hint: "set its fields",
        class: ErrorClass::Plain,
    };

    pub const CONTAINER_SET: ErrorKind = ErrorKind {
        message: "@ isn't set",
        hint: "its items are set or pushed",
        class: ErrorClass::Plain,
    };

    pub const KEY_SET: ErrorKind = ErrorKind {
        message: "a key isn't set",
        hint: "",
        class: ErrorClass::Plain,
    };

    pub const BYTE_SET: ErrorKind = ErrorKind {
        message: "a byte of a text isn't set",
        hint: "texts only grow at their end",
        class: ErrorClass::Plain,
    };

    pub const NO_METHOD: ErrorKind = ErrorKind {
        message: "there is no method `$`",
        hint: "there are push, push_front, pop, pop_front; and the statements delete, clear, shrink",
        class: ErrorClass::Plain,
    };

    pub const ONE_VALUE: ErrorKind = ErrorKind {
        message: "`$` takes one value",
        hint: "",
        class: ErrorClass::Plain,
    };

    pub const NO_VALUE: ErrorKind = ErrorKind {
        message: "`$` takes no value",
        hint: "",
        class: ErrorClass::Plain,
    };

    pub const WRONG_METHOD: ErrorKind = ErrorKind {
        message: "@ has no `$`",
        hint: "a key is set with `m[k] = ..`",
        class: ErrorClass::Plain,
    };

    pub const ITEM_IS_NO: ErrorKind = ErrorKind {
        message: "an item here is @, and no number",
        hint: "write `if let x = ..`, and fill x",
        class: ErrorClass::Plain,
    };

    pub const PUSHED_BYTE_NAME: ErrorKind = ErrorKind {
        message: "a byte that is pushed gets no name",
        hint: "",
        class: ErrorClass::Plain,
    };

    pub const ITEM_GOES: ErrorKind = ErrorKind {
        message: "an item here is @, which can't be kept when it goes",
        hint: "read it with `[..]` before",
        class: ErrorClass::Plain,
    };

    pub const CALL_ELSE: ErrorKind = ErrorKind {
        message: "a call has no else part",
        hint: "let the function give a number, and test it",
        class: ErrorClass::Plain,
    };

    pub const BYTE_WANTED: ErrorKind = ErrorKind {
        message: "which byte is pushed?",
        hint: "",
        class: ErrorClass::Plain,
    };

    pub const DELETED_ITEM: ErrorKind = ErrorKind {
        message: "`delete` is for keys of maps and for objects, and this is an item of @",
        hint: "items go by pop, pop_front and clear",
        class: ErrorClass::Plain,
    };

    pub const DELETED_VALUE: ErrorKind = ErrorKind {
        message: "`delete` is for keys of maps and for objects by their own names",
        hint: "a value is emptied by `clear`",
        class: ErrorClass::Plain,
    };

    pub const ARRAY_DELETED_WHOLE: ErrorKind = ErrorKind {
        message: "an array is deleted whole",
        hint: "write `delete` with its name alone",
        class: ErrorClass::Plain,
    };

    pub const NUMBER_CLEARED: ErrorKind = ErrorKind {
        message: "a number isn't cleared",
        hint: "set it to 0",
        class: ErrorClass::Plain,
    };

    pub const SHRINK_OF: ErrorKind = ErrorKind {
        message: "`shrink` is for text, vec and flat_map, and this is @",
        hint: "",
        class: ErrorClass::Plain,
    };

    pub const FREEZE_OF: ErrorKind = ErrorKind {
        message: "`freeze` is for shared<..>, and this is @",
        hint: "",
        class: ErrorClass::Plain,
    };

    pub const SHARE_OF: ErrorKind = ErrorKind {
        message: "`share` is for shared<..>, and this is @",
        hint: "",
        class: ErrorClass::Plain,
    };

    pub const MOVED_IN_LOOP: ErrorKind = ErrorKind {
        message: "an object that is owned since before this loop is moved in it",
        hint: "make it in the loop, or move it after the loop",
        class: ErrorClass::Plain,
    };

    // limits
    pub const TOO_DEEP: ErrorKind = ErrorKind {
        message: "more than 8 parts would be open here",
        hint: "end one of these before: read a number with `??`, or do this behind it, under a flag",
        class: ErrorClass::Depth,
    };

    pub const NESTED: ErrorKind = ErrorKind {
        message: "more than 1,000 blocks are nested here",
        hint: "end some of them before",
        class: ErrorClass::Size,
    };

    pub const OUT_OF_REGISTERS: ErrorKind = ErrorKind {
        message: "more than 16 numbers and references are alive here",
        hint: "let some go by closing the block that they are in",
        class: ErrorClass::Registers,
    };

    pub const TYPES: ErrorKind = ErrorKind {
        message: "more than 32 types are needed, with those of the image",
        hint: "",
        class: ErrorClass::Size,
    };

    pub const CONSTANTS: ErrorKind = ErrorKind {
        message: "~ constants are needed, and a client has 256",
        hint: "",
        class: ErrorClass::Size,
    };

    pub const INSTRUCTIONS: ErrorKind = ErrorKind {
        message: "the client would have ~ instructions, and 4,096 are the limit",
        hint: "a function is written out where it is called; numbers printed inside a line take 70 to 90 each",
        class: ErrorClass::Size,
    };

    pub const STEPS: ErrorKind = ErrorKind {
        message: "the program could take ~ steps, and 1,000,000,000 are the limit",
        hint: "give a loop a smaller `max`",
        class: ErrorClass::Size,
    };

    pub const TOO_LONG: ErrorKind = ErrorKind {
        message: "the client would have far more than 4,096 instructions",
        hint: "",
        class: ErrorClass::Size,
    };
}
