//! Which variable each register has, for people who read a trace of the client.

use script_code::{Code, Meaning, Name, Names, Register, append};
use script_syntax::Span;
use std::alloc::Global;

/// From an instruction on, a register has another variable, or none.
#[derive(Clone, Copy)]
pub struct VariableChange {
    /// The position of the instruction in the client's code, from 0.
    pub instruction: usize,
    pub register: Register,
    /// The variable's name in the program.
    pub name: Option<Span>,
}

/// The changes so far, in the order of the instructions.
#[derive(Drop)]
pub struct Variables {
    changes: Vec<VariableChange>,
    /// How many of the known names are noted.
    noted: usize,
}

/// How many changes were noted. Going back to it needs no copy.
#[derive(Clone, Copy)]
pub struct VariablesMark {
    changes: usize,
    noted: usize,
}

impl Variables {
    pub fn new(alloc: Global) -> Variables {
        Variables {
            changes: Vec::new(alloc),
            noted: 0,
        }
    }

    pub fn mark(&self) -> VariablesMark {
        VariablesMark {
            changes: self.changes.len(),
            noted: self.noted,
        }
    }

    pub fn go_back(&mut self, mark: &VariablesMark) {
        self.changes.truncate(mark.changes);
        self.noted = mark.noted;
    }

    /// Notes the names which were bound since the last time, from the next instruction on.
    pub fn note(&mut self, names: &Names, code: &mut Code) {
        for at in self.noted..names.len() {
            if let Some(name) = names.get(at) {
                if let Some(register) = variable_register(&name) {
                    self.change(register, Some(name.span), code);
                }
            }
        }
        self.noted = names.len();
    }

    /// Notes that a name ended before the next instruction. If another name has the same register, the register has that variable
    /// again.
    pub fn end(&mut self, name: &Name, others: &Names, code: &mut Code) {
        self.noted = self.noted.min(others.len());
        if let Some(register) = variable_register(name) {
            self.change(register, name_in(others, register), code);
        }
    }

    fn change(&mut self, register: Register, name: Option<Span>, code: &mut Code) {
        let change = VariableChange {
            instruction: code.instructions.len(),
            register,
            name,
        };
        append(&mut self.changes, change, &mut code.trouble)
    }

    pub fn into_changes(self) -> Vec<VariableChange> {
        self.changes
    }
}

/// The register that has a variable with this name. A hidden name is no variable.
fn variable_register(name: &Name) -> Option<Register> {
    match name.meaning {
        Meaning::Hidden(_) => None,
        meaning => meaning.register(),
    }
}

/// The innermost name of a register's variable.
fn name_in(names: &Names, register: Register) -> Option<Span> {
    let all = names.all();
    for at in (0..all.len()).rev() {
        if variable_register(&all[at]) == Some(register) {
            return Some(all[at].span);
        }
    }
    None
}
