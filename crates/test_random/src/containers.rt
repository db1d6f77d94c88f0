//! Statements on sequences and maps.

use crate::generator::Generator;
use crate::model::{Shape, shape_of};
use crate::parts::OpenPart;

/// The types that are vectors, and not lists.
const VECTORS: [usize; 2] = [2, 13];

impl Generator {
    pub(crate) fn on_sequence(&mut self, part: OpenPart, t: usize, item: usize) {
        let (a, b) = (self.next_register(), part.register);
        let is_list = !VECTORS.contains(&t);
        match self.random.below(9) {
            0..=2 => self.text.write("PUSH r# r#\n", &[a, b]),
            3 if is_list => self.text.write("PUSHF r# r#\n", &[a, b]),
            4 => return self.shorter(part, "POP r15 r#\n"),
            5 if is_list => return self.shorter(part, "POPF r15 r#\n"),
            5 => return self.text.write("SHRINK r#\n", &[b]),
            _ => return self.read_sequence(part, item),
        }
        self.end_others(part.class, b);
        self.open_inside(part, item);
        self.fill(item);
        self.print_first(b, item)
    }

    /// Prints the first item of a sequence, which shows at which end an item was added.
    fn print_first(&mut self, b: usize, item: usize) {
        let printed = match shape_of(item) {
            Shape::Number => "LOAD r15 r15\nOUTI r15\n",
            Shape::Text => "OUTS r15\nOUTC k6\n",
            Shape::Sequence(_)
            | Shape::Keyed(_)
            | Shape::Own(_)
            | Shape::Shared(_)
            | Shape::Struct(_) => return,
        };
        self.text.write("CONST r15 0\nAT r15 r# r15\n", &[b]);
        self.text.push(printed);
        self.text.push("ELSE\nOUTI r15\nEND\n")
    }

    pub(crate) fn read_sequence(&mut self, part: OpenPart, item: usize) {
        let (a, b, n) = (self.next_register(), part.register, self.number());
        match self.random.below(3) {
            0 => self.len(b),
            _ => {
                self.text.write("AT r# r# r#\n", &[a, b, n]);
                self.open_inside(part, item)
            }
        }
    }

    fn shorter(&mut self, part: OpenPart, opener: &str) {
        self.end_others(part.class, part.register);
        self.given(opener, &[part.register])
    }

    pub(crate) fn on_map(&mut self, part: OpenPart, t: usize, item: usize) {
        let (a, b, n) = (self.next_register(), part.register, self.number());
        match self.random.below(9) {
            0..=2 => {
                self.text.write("PUTK r# r# r#\n", &[a, b, n]);
                self.end_others(part.class, b);
                self.open_inside(part, item);
                self.fill(item)
            }
            3 => {
                self.end_others(part.class, b);
                self.text.write("DELK r15 r# r#\nOUTI r15\n", &[b, n])
            }
            4 if t == 4 => self.text.write("SHRINK r#\n", &[b]),
            _ => self.read_map(part, item),
        }
    }

    pub(crate) fn read_map(&mut self, part: OpenPart, item: usize) {
        let (a, b, n) = (self.next_register(), part.register, self.number());
        match self.random.below(4) {
            0 => self.len(b),
            1 => self.next_key(b, n),
            _ => {
                self.text.write("GETK r# r# r#\n", &[a, b, n]);
                self.open_inside(part, item)
            }
        }
    }

    fn next_key(&mut self, b: usize, n: usize) {
        match self.random.below(2) {
            0 => self.given("FIRSTK r15 r#\n", &[b]),
            _ => self.given("NEXTK r15 r# r#\n", &[b, n]),
        }
    }
}
