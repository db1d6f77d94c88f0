//! Clients: their files and their instructions.
#![tactic(auto)]

mod client;
mod constant;
mod header;
mod instruction;
mod nesting;
mod parser;
mod typed;
mod types;

pub use client::{Client, Constants};
pub use client_spec::table::{
    Ends, Gives, Kinds, Need, Number, OPERATIONS, Operand, Operation, Role, Row,
};
pub use constant::{Constant, ConstantKind, LONGEST};
pub use header::{
    FIRST_VERSION, FileHeader, MAGIC, MOST_CONSTANTS, MOST_INSTRUCTIONS, SHARING_VERSION,
};
pub use instruction::{Instruction, REGISTERS};
pub use nesting::{DEPTH, Nesting};
pub use parser::{parse, parse_typed};
pub use seg_layout::{ENTRY, Fault, Fields, MAX_TYPES, Type, TypeId, TypeTable};
pub use typed::TypedClient;
pub use types::{MOST_TYPES, TYPES_AT};
