//! Clients as text: the assembler, which turns a text into a client file, and the printer, which writes the canonical text of a
//! client.
#![tactic(auto)]

mod assembler;
mod escape;
mod header;
mod item;
mod lines;
mod numeral;
mod outline;
mod printer;
mod words;
mod writer;

pub use assembler::assemble;
pub use printer::print;
