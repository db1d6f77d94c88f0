//! What the verifier knows of each register, and which registers are in use.

use crate::constants::ConstantAt;
use crate::types::TypeAt;

/// The number of registers.
pub const COUNT: usize = 16;

/// A register, by its number.
#[derive(Clone, Copy, PartialEq, Eq)]
pub struct Register(pub u8);

/// Which object a reference points into.
#[derive(Clone, Copy, PartialEq, Eq)]
pub enum Class {
    /// The object that a register owns.
    Owner(Register),
    /// The unique object of a type.
    Unique(TypeAt),
    /// An object with a name, or of a family.
    Named(ConstantAt),
}

/// What the verifier knows of a register.
#[derive(Clone, Copy, PartialEq, Eq)]
pub enum Known {
    Nothing,
    Number,
    Reference {
        class: Class,
        value_type: TypeAt,
        is_frozen: bool,
    },
    Owner(TypeAt),
}

/// A register's contents. The stamp changes each time that the register is set.
#[derive(Clone, Copy)]
pub struct Contents {
    pub known: Known,
    pub stamp: usize,
}

/// What the verifier knows of all registers.
#[derive(Clone, Copy)]
pub struct Registers {
    contents: [Contents; COUNT],
}

/// Which registers are in use. A register that is held stays in use after its statement.
#[derive(Clone, Copy)]
pub struct Usage {
    is_busy: [bool; COUNT],
    holds: [u32; COUNT],
}

impl Register {
    fn index(self) -> usize {
        self.0 as usize
    }
}

impl Known {
    fn class(self) -> Option<Class> {
        match self {
            Known::Reference { class, .. } => Some(class),
            _ => None,
        }
    }
}

impl Contents {
    const NOTHING: Contents = Contents {
        known: Known::Nothing,
        stamp: 0,
    };
}

impl Registers {
    pub fn new() -> Registers {
        Registers {
            contents: [Contents::NOTHING; COUNT],
        }
    }

    pub fn get(&self, register: Register) -> Contents {
        self.contents
            .get(register.index())
            .copied()
            .unwrap_or(Contents::NOTHING)
    }

    pub fn known(&self, register: Register) -> Known {
        self.get(register).known
    }

    pub fn set(&mut self, register: Register, contents: Contents) {
        let index = register.index();
        if index < COUNT {
            self.contents[index] = contents;
        }
    }

    pub fn forget(&mut self, register: Register) {
        self.set(register, Contents::NOTHING);
    }

    /// Forgets the references into an object.
    pub fn end_class(&mut self, class: Class) {
        for index in 0..COUNT {
            if self.contents[index].known.class() == Some(class) {
                self.contents[index] = Contents::NOTHING;
            }
        }
    }

    /// Forgets the references into the object that a register refers to, except the register's own.
    pub fn end_others(&mut self, register: Register) {
        let own = self.get(register);
        if let Some(class) = own.known.class() {
            self.end_class(class);
            self.set(register, own);
        }
    }

    /// What is known after either of two parts. A register that both set has this stamp.
    pub fn merge(&self, other: &Registers, stamp: usize) -> Registers {
        let mut merged = Registers::new();
        for index in 0..COUNT {
            let (one, two) = (self.contents[index], other.contents[index]);
            if one.known == two.known {
                let stamp = if one.stamp == two.stamp {
                    one.stamp
                } else {
                    stamp
                };
                merged.contents[index] = Contents {
                    known: one.known,
                    stamp,
                };
            }
        }
        merged
    }
}

impl Usage {
    pub fn new() -> Usage {
        Usage {
            is_busy: [false; COUNT],
            holds: [0; COUNT],
        }
    }

    /// Takes the first register that isn't in use.
    pub fn take(&mut self) -> Option<Register> {
        for index in 0..COUNT {
            if !self.is_busy[index] {
                self.is_busy[index] = true;
                return Some(Register(index as u8));
            }
        }
        None
    }

    /// Lets a register go, unless it is held.
    pub fn free(&mut self, register: Register) {
        let index = register.index();
        if index < COUNT {
            self.is_busy[index] = self.holds[index] > 0;
        }
    }

    pub fn hold(&mut self, register: Register) {
        let index = register.index();
        if index < COUNT {
            self.is_busy[index] = true;
            self.holds[index] = self.holds[index].saturating_add(1);
        }
    }

    /// Ends one hold. The register is free if that was the last one.
    pub fn release(&mut self, register: Register) {
        let index = register.index();
        if index < COUNT {
            self.holds[index] = self.holds[index].saturating_sub(1);
            self.is_busy[index] = self.holds[index] > 0;
        }
    }

    /// Ends one hold of each of these registers.
    pub fn release_all(&mut self, registers: &[Register]) {
        for register in registers {
            self.release(*register);
        }
    }

    /// Like `release`, but the register stays in use to the end of the statement.
    pub fn keep(&mut self, register: Register) {
        self.release(register);
        let index = register.index();
        if index < COUNT {
            self.is_busy[index] = true;
        }
    }

    /// Lets go all registers that aren't held.
    pub fn tidy(&mut self) {
        for index in 0..COUNT {
            self.is_busy[index] = self.holds[index] > 0;
        }
    }

    pub fn is_held(&self, register: Register) -> bool {
        let index = register.index();
        index < COUNT && self.holds[index] > 0
    }

    pub fn is_in_use(&self, register: Register) -> bool {
        let index = register.index();
        index < COUNT && self.is_busy[index]
    }

    /// Whether a register is in use, but not held.
    pub fn is_temporary(&self, register: Register) -> bool {
        let index = register.index();
        index < COUNT && self.is_busy[index] && self.holds[index] == 0
    }
}
