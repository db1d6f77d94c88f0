//! The code of a client while it is written: instructions, types, names and errors, what is still to be emitted, and the walks to
//! places.
#![tactic(auto)]

mod arithmetic;
mod client;
mod code;
mod constants;
mod cost;
mod emitter;
mod error;
mod hint;
mod keys;
mod kind;
mod linking;
mod message;
mod names;
mod near;
mod numbering;
mod places;
mod program;
mod registers;
mod task;
mod types;
mod walks;

pub use arithmetic::{compute, decimal_digits, read_number};
pub use client::Compiled;
pub use code::{Code, EndedName, NONE, OpenPart, Operand, OtherParts};
pub use constants::Constants;
pub use emitter::{Emitter, EmitterMark};
pub use error::{About, Error, Problem, Trouble, Warning, WarningKind, append, append_bytes};
pub use hint::Hint;
pub use kind::{ErrorClass, ErrorKind};
pub use linking::{Linked, link};
pub use message::{Message, Shown, WarningMessage};
pub use names::{Key, MOST_DIGITS, Meaning, Name, Names, Place, Root, Way, WayKind};
pub use near::{near_function, near_struct};
pub use places::{
    is_method, is_number, kind_of, last_step, last_way, plain_name, steps_of, use_object,
};
pub use program::{Folded, Function, MOST_DEPTH, NOWHERE, NamedValue, Object, ObjectKind, Program};
pub use registers::{COUNT, Class, Contents, Known, Register, Registers};
pub use task::{
    End, Handler, Loop, Output, PartEnd, Sequence, Task, TextTarget, Turn, Value, Walk,
};
pub use types::{Member, Shape, StructAt, StructType, TypeAt, Types};
pub use walks::{
    Removed, close_noting, close_walk, constant_kind, free_key, key_register, own_handler,
    tell_no_room,
};
