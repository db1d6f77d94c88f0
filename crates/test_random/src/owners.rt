//! Statements on owns and shared cells.

use crate::generator::Generator;
use crate::objects::{CELL_TYPE, unique_class};
use crate::parts::{Access, OpenPart};

impl Generator {
    pub(crate) fn on_own(&mut self, part: OpenPart, held: usize) {
        let (a, b) = (self.next_register(), part.register);
        match self.random.below(4) {
            0 => self.content(part, held, Access::Change),
            1 => {
                self.end_others(part.class, b);
                self.text.write("TAKE r# r#\n", &[a, b]);
                self.own(a, held)
            }
            _ => {
                self.end_others(part.class, b);
                self.text.write(
                    "NEW r# t#\nOUTC k3\nPUT r# r#\nELSE\nOUTI r#\nEND\n",
                    &[a, held, b, a, a],
                )
            }
        }
    }

    /// Opens a part with the object of an own or a shared cell, which may be changed or only read.
    pub(crate) fn content(&mut self, part: OpenPart, held: usize, access: Access) {
        let (a, b) = (self.next_register(), part.register);
        self.text.write("CONTENT r# r#\n", &[a, b]);
        self.open_inside(OpenPart { access, ..part }, held);
        self.print_value(held)
    }

    /// Writes a statement on a shared cell. A new object is frozen into the cell at the end of its part.
    pub(crate) fn on_shared(&mut self, part: OpenPart, t: usize, held: usize) {
        match self.random.below(8) {
            0 | 1 => self.content(part, held, Access::Read),
            2 | 3 => self.share(part, t),
            _ => self.new_object(held),
        }
    }

    /// Shares the object of one of two cells with the other: the cell of the part, and another cell of its type, which is open or
    /// is found first.
    pub(crate) fn share(&mut self, part: OpenPart, t: usize) {
        let other = match self.cell_around(t) {
            Some(other) => other,
            None => self.other_cell(part, t),
        };
        let (to, from) = match (part.access, other.access) {
            (Access::Change, Access::Change) if self.random.below(2) == 0 => (other, part),
            (Access::Change, Access::Change | Access::Read) => (part, other),
            (Access::Read, Access::Change) => (other, part),
            (Access::Read, Access::Read) => return,
        };
        self.end_others(to.class, to.register);
        self.text
            .write("SHARE r# r#\n", &[to.register, from.register])
    }

    /// Opens a part with another cell of a type: the named one, if the cell of the part is the unique one.
    fn other_cell(&mut self, part: OpenPart, t: usize) -> OpenPart {
        if part.class == unique_class(CELL_TYPE) {
            self.named_cell();
        } else {
            self.find_or_make_unique(t);
        }
        self.parts.last().copied().unwrap_or(part)
    }

    /// The closest part around the innermost one with a value of this type.
    fn cell_around(&self, t: usize) -> Option<OpenPart> {
        let mut cell = None;
        let (_innermost, around) = self.parts.as_slice().split_last()?;
        for part in around {
            if part.t == Some(t) {
                cell = Some(*part);
            }
        }
        cell
    }
}
