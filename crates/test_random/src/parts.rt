//! The open parts of a client that is being written, and how they are opened and closed.

use crate::generator::Generator;
use crate::model::{Shape, shape_of};

/// How an open part ends.
#[derive(Clone, Copy)]
pub(crate) enum Close {
    /// Without a mark, for the field of a value.
    Nothing,
    /// With `ELSE` and `END`, for an opener whose code is in this register.
    Opener(usize),
    /// The same, for a register that owns an object of this type.
    Owner { register: usize, t: usize },
    If,
    Loop,
}

/// What a client may do with a value.
#[derive(Clone, Copy, PartialEq, Eq)]
pub(crate) enum Access {
    Change,
    /// Only read it: it is in a frozen object.
    Read,
}

/// An open part, the register and type of the value that it works on, and the class of references to that value.
#[derive(Clone, Copy)]
pub(crate) struct OpenPart {
    pub(crate) close: Close,
    pub(crate) register: usize,
    pub(crate) t: Option<usize>,
    pub(crate) class: usize,
    pub(crate) access: Access,
}

impl Generator {
    /// Opens the success part of an opener that makes or finds an object.
    pub(crate) fn open(&mut self, close: Close, t: Option<usize>, class: usize) {
        self.enter(OpenPart {
            close,
            register: self.next_register(),
            t,
            class,
            access: Access::Change,
        })
    }

    /// Opens the success part of an opener that makes or finds something inside the value of a part.
    pub(crate) fn open_inside(&mut self, part: OpenPart, t: usize) {
        let register = self.next_register();
        self.enter(OpenPart {
            close: Close::Opener(register),
            register,
            t: Some(t),
            ..part
        })
    }

    /// Enters a success part, which first prints a mark.
    fn enter(&mut self, part: OpenPart) {
        self.text.push("OUTC k3\n");
        self.push(part);
    }

    pub(crate) fn enter_plain(&mut self, close: Close) {
        self.push(OpenPart {
            close,
            register: 0,
            t: None,
            class: 0,
            access: Access::Change,
        });
    }

    /// Opens a part. If memory for it is refused, the client isn't finished.
    pub(crate) fn push(&mut self, part: OpenPart) {
        if self.parts.push(part).is_err() {
            self.text.refuse();
        }
    }

    /// Ends the references of a class, except the one in a register.
    pub(crate) fn end_others(&mut self, class: usize, register: usize) {
        for part in &mut self.parts {
            if part.class == class && part.register != register {
                part.t = None;
            }
        }
    }

    /// Ends the innermost part. Its else part prints the code.
    pub(crate) fn close(&mut self) {
        let Some(part) = self.parts.pop() else {
            return;
        };
        match part.close {
            Close::Nothing => {}
            Close::Opener(code) => {
                let n = self.number();
                self.text
                    .write("ELSE\nOUTI r#\nADD r# r# r2\nEND\n", &[code, n, n])
            }
            Close::Owner { register, t } => {
                self.give_away(register, t);
                self.text.write("ELSE\nOUTI r#\nEND\n", &[register])
            }
            Close::If => self.text.push("ELSE\nOUTI r4\nEND\n"),
            Close::Loop => self.text.push("END\n"),
        }
    }

    /// Freezes the object that a register owns into an open cell of its type, or drops it if there is no such cell.
    fn give_away(&mut self, register: usize, t: usize) {
        let Some(cell) = self.cell_for(t) else {
            return self.text.write("DROP r#\n", &[register]);
        };
        let b = cell.register;
        self.end_others(cell.class, b);
        self.text.write(
            "FREEZE r15 r# r#\nOUTC k3\nOUTI r15\nELSE\nOUTI r15\nDROP r#\nEND\n",
            &[b, register, register],
        )
    }

    /// The innermost open shared cell for objects of a type, if it can be changed.
    fn cell_for(&self, t: usize) -> Option<OpenPart> {
        let mut cell = None;
        for part in &self.parts {
            if is_cell_for(*part, t) {
                cell = Some(*part);
            }
        }
        cell
    }
}

/// Whether the value of a part is a shared cell for objects of a type, and can be changed.
fn is_cell_for(part: OpenPart, t: usize) -> bool {
    let Some(of) = part.t else {
        return false;
    };
    part.access == Access::Change && matches!(shape_of(of), Shape::Shared(held) if held == t)
}
