//! Statements on the values of parts.

use crate::generator::Generator;
use crate::model::{Shape, shape_of};
use crate::parts::{Access, Close, OpenPart};

impl Generator {
    /// Writes a statement on the value of a part.
    pub(crate) fn on_value(&mut self, part: OpenPart, t: usize) {
        let b = part.register;
        if self.random.below(24) == 0 {
            self.end_others(part.class, b);
            return self.text.write("CLEAR r#\n", &[b]);
        }
        match shape_of(t) {
            Shape::Number => self.on_number(b),
            Shape::Text => self.on_text(b),
            Shape::Sequence(item) => self.on_sequence(part, t, item),
            Shape::Keyed(item) => self.on_map(part, t, item),
            Shape::Own(held) => self.on_own(part, held),
            Shape::Shared(held) => self.on_shared(part, t, held),
            Shape::Struct(fields) => self.field(part, fields),
        }
    }

    /// Writes a statement that only reads the value of a part.
    pub(crate) fn read(&mut self, part: OpenPart, t: usize) {
        match shape_of(t) {
            Shape::Number => self.load(part.register),
            Shape::Text => self.read_text(part.register),
            Shape::Sequence(item) => self.read_sequence(part, item),
            Shape::Keyed(item) => self.read_map(part, item),
            Shape::Own(held) => self.content(part, held, Access::Read),
            Shape::Shared(held) => match self.random.below(2) {
                0 => self.share(part, t),
                _ => self.content(part, held, Access::Read),
            },
            Shape::Struct(fields) => self.field(part, fields),
        }
    }

    fn on_number(&mut self, b: usize) {
        let n = self.number();
        match self.random.below(2) {
            0 => self.text.write("STORE r# r#\n", &[b, n]),
            _ => self.load(b),
        }
    }

    fn load(&mut self, b: usize) {
        self.text.write("LOAD r15 r#\nOUTI r15\n", &[b])
    }

    fn on_text(&mut self, b: usize) {
        let n = self.number();
        let k = self.random.below(2).wrapping_add(4) as usize;
        match self.random.below(9) {
            0 => self.given("SETS r15 r# k#\n", &[b, k]),
            1 => self.given("ADDS r15 r# k#\n", &[b, k]),
            2 => self.given("ADDB r15 r# r#\n", &[b, n]),
            3 => self.given("POP r15 r#\n", &[b]),
            4 => self.text.write("SHRINK r#\n", &[b]),
            _ => self.read_text(b),
        }
    }

    fn read_text(&mut self, b: usize) {
        let n = self.number();
        match self.random.below(4) {
            0 => self.given("AT r15 r# r#\n", &[b, n]),
            1 => self.len(b),
            _ => self.text.write("OUTS r#\nOUTC k6\n", &[b]),
        }
    }

    pub(crate) fn len(&mut self, b: usize) {
        self.text.write("LEN r15 r#\nOUTI r15\n", &[b])
    }

    fn field(&mut self, part: OpenPart, fields: &[usize]) {
        let index = self.random.below(u32::try_from(fields.len()).unwrap_or(1)) as usize;
        let (a, b) = (self.next_register(), part.register);
        self.text.write("FIELD r# r# #\n", &[a, b, index]);
        self.push(OpenPart {
            close: Close::Nothing,
            register: a,
            t: fields.get(index).copied(),
            ..part
        });
    }

    /// Gives the new value of the innermost part a text or a number, so that values differ.
    pub(crate) fn fill(&mut self, t: usize) {
        let (b, n) = (self.next_register().saturating_sub(1), self.number());
        match shape_of(t) {
            Shape::Text => self.given("SETS r15 r# k4\n", &[b]),
            Shape::Struct(_) => {
                self.text
                    .write("FIELD r15 r# 0\nSTORE r15 r#\nLOAD r15 r15\n", &[b, n])
            }
            Shape::Number => self.text.write("STORE r# r#\n", &[b, n]),
            Shape::Sequence(_) | Shape::Keyed(_) | Shape::Own(_) | Shape::Shared(_) => {}
        }
    }

    /// Prints the text or the first number of the innermost part's value.
    pub(crate) fn print_value(&mut self, t: usize) {
        let b = self.next_register().saturating_sub(1);
        match shape_of(t) {
            Shape::Text => self.text.write("OUTS r#\nOUTC k6\n", &[b]),
            Shape::Struct(_) => self
                .text
                .write("FIELD r15 r# 0\nLOAD r15 r15\nOUTI r15\n", &[b]),
            Shape::Number
            | Shape::Sequence(_)
            | Shape::Keyed(_)
            | Shape::Own(_)
            | Shape::Shared(_) => {}
        }
    }
}
