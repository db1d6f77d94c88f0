//! What a statement may be in, and how statements leave it.

use crate::compiler::Mark;
use script_code::{COUNT, Code, Loop, Register, Trouble, append};
use script_values::Call;
use std::alloc::Global;

#[derive(Clone, Copy)]
pub enum ConstructKind {
    Main,
    Loop(Loop),
    /// A function, with how many statements had left the construct that calls it.
    Function(Call, usize),
}

/// A loop, a function or the whole program.
#[derive(Clone, Copy)]
pub struct Construct {
    pub kind: ConstructKind,
    pub mark: Mark,
    /// 1 until a statement leaves what follows it.
    pub running: Option<Register>,
    pub wants_running: bool,
    /// How many statements leave what follows them in it.
    exits: usize,
    /// How many statements leave it, or a loop around it.
    breaks: usize,
    /// The registers to forget before it.
    pub forgets: [bool; COUNT],
}

/// The constructs that are being compiled, each in the one before.
#[derive(Drop)]
pub struct Constructs {
    list: Vec<Construct>,
}

impl Construct {
    /// Whether it has no register that tells whether it continues, and needs one.
    pub fn lacks_running(&self) -> bool {
        self.wants_running && self.running.is_none()
    }

    /// Leaves the rest of a turn, and the construct unless the statement `stays` in it.
    fn leave(&mut self, stays: bool, code: &mut Code) {
        self.exits = self.exits.saturating_add(1);
        if let Some(running) = self.running {
            code.number(running, 0);
        }
        if stays {
            return;
        }
        self.breaks = self.breaks.saturating_add(1);
        match self.kind {
            ConstructKind::Loop(found) => code.number(found.go, 0),
            _ => {}
        }
    }
}

impl Constructs {
    pub fn new(alloc: Global) -> Constructs {
        Constructs {
            list: Vec::new(alloc),
        }
    }

    pub fn len(&self) -> usize {
        self.list.len()
    }

    pub fn truncate(&mut self, len: usize) {
        self.list.truncate(len);
    }

    /// The innermost construct.
    pub fn last(&self) -> Option<Construct> {
        self.list.last().copied()
    }

    pub fn push(&mut self, kind: ConstructKind, mark: Mark, trouble: &mut Trouble) {
        let construct = Construct {
            kind,
            mark,
            running: None,
            wants_running: false,
            exits: 0,
            breaks: 0,
            forgets: [false; COUNT],
        };
        append(&mut self.list, construct, trouble)
    }

    /// Ends the innermost construct.
    pub fn pop(&mut self, code: &mut Code) {
        if let Some(construct) = self.list.pop() {
            if let Some(running) = construct.running {
                code.usage.release(running);
            }
        }
    }

    /// The innermost construct is compiled again from this mark.
    pub fn restart(&mut self, mark: &Mark, forgets: &[bool; COUNT]) {
        if let Some(construct) = self.list.last_mut() {
            construct.mark = *mark;
            construct.forgets = *forgets;
            construct.running = None;
            construct.exits = 0;
            construct.breaks = 0;
        }
    }

    /// The register that tells whether the innermost construct continues.
    pub fn running(&self) -> Option<Register> {
        self.list.last()?.running
    }

    /// Like `running`. If there is no register, the construct is compiled again with one.
    pub fn need_running(&mut self) -> Option<Register> {
        let construct = self.list.last_mut()?;
        construct.wants_running = true;
        construct.running
    }

    /// Takes the register that tells whether the innermost construct continues, if it wants one.
    pub fn start_running(&mut self, code: &mut Code) {
        if let Some(construct) = self.list.last_mut() {
            if construct.wants_running {
                construct.running = Some(code.literal_held(1));
            }
        }
    }

    /// How many statements of the innermost construct leave.
    pub fn exits(&self) -> usize {
        match self.list.last() {
            Some(construct) => construct.exits,
            None => 0,
        }
    }

    /// Whether a statement leaves the innermost construct, or a loop around it.
    pub fn has_breaks(&self) -> bool {
        match self.list.last() {
            Some(construct) => construct.breaks > 0,
            None => false,
        }
    }

    /// Leaves the constructs from a position on. The first of them may continue with its next turn.
    pub fn leave(&mut self, target: usize, stays: bool, code: &mut Code) {
        for at in (target..self.list.len()).rev() {
            if let Some(construct) = self.list.get_mut(at) {
                construct.leave(stays && at == target, code);
            }
        }
    }

    /// The position of the innermost construct, if it is a loop.
    pub fn innermost_loop(&self) -> Option<usize> {
        match self.list.last()?.kind {
            ConstructKind::Loop(_) => Some(self.list.len().saturating_sub(1)),
            _ => None,
        }
    }

    /// The position of the innermost function.
    pub fn innermost_function(&self) -> Option<usize> {
        for at in (0..self.list.len()).rev() {
            if let ConstructKind::Function(..) = self.list.get(at)?.kind {
                return Some(at);
            }
        }
        None
    }

    /// The call of the innermost function.
    pub fn innermost_call(&self) -> Option<Call> {
        match self.list.get(self.innermost_function()?)?.kind {
            ConstructKind::Function(call, _) => Some(call),
            _ => None,
        }
    }

    /// Whether a function is being compiled.
    pub fn has_function(&self, position: usize) -> bool {
        for construct in self.list.as_slice() {
            if let ConstructKind::Function(call, _) = construct.kind {
                if call.function == position {
                    return true;
                }
            }
        }
        false
    }
}
