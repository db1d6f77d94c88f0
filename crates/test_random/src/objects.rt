//! Statements on named, unique and anonymous objects.

use crate::generator::Generator;
use crate::parts::{Access, Close, OpenPart};

/// The registers with small numbers, as operands with a space before them.
const NUMBERS: [&str; 5] = [" r0", " r1", " r2", " r3", " r4"];

/// The type of the named shared cell.
pub(crate) const CELL_TYPE: usize = 9;

/// The name constant of that cell.
const CELL: usize = 7;

const CELL_NAME: ObjectName = ObjectName {
    constant: CELL,
    operand: " -",
};

/// The type of shared cells with lists.
const LIST_CELL_TYPE: usize = 11;

/// The type of shared cells with texts.
const TEXT_CELL_TYPE: usize = 12;

/// A name of a client: its constant, and its operand b with a space before it.
#[derive(Clone, Copy)]
struct ObjectName {
    constant: usize,
    operand: &'static str,
}

/// The class of the unique object of a type.
pub(crate) fn unique_class(t: usize) -> usize {
    t.wrapping_add(10)
}

impl Generator {
    /// Writes an operation on the object of a name. `front` is the text before operand b, with `#` for the next register,
    /// and `item` is the text of operand c.
    fn write_named(&mut self, front: &str, name: ObjectName, item: &str, t: usize) {
        let register = self.next_register();
        self.text.write(front, &[register]);
        self.text.push(name.operand);
        self.text.push(item);
        self.text.write(" t# k#\n", &[t, name.constant])
    }

    fn some_name(&mut self) -> ObjectName {
        let (constant, operand) = match self.random.below(4) {
            0 => (0, " -"),
            1 => (1, " -"),
            2 => (2, " r2"),
            _ => (2, " r3"),
        };
        ObjectName { constant, operand }
    }

    /// Writes a statement on a named, unique or anonymous object.
    pub(crate) fn object(&mut self) {
        let a = self.next_register();
        let t = self.some_type();
        let item = NUMBERS.get(self.number()).copied().unwrap_or(" r0");
        let name = self.some_name();
        match self.random.below(13) {
            0 => self.write_named("MAKE r#", name, item, t),
            1 => self.write_named("MAKE r#", name, " -", t),
            2 => self.write_named("FIND r#", name, item, t),
            3 | 4 => self.write_named("FINDOR r#", name, "", t),
            5 => return self.count(t, name),
            6 | 7 => return self.kill(t, name),
            8 => return self.new_object(t),
            unique => return self.unique(unique, t),
        }
        self.open(Close::Opener(a), Some(t), name.constant)
    }

    /// Writes a statement on a shared cell, which is unique or named.
    pub(crate) fn cell(&mut self) {
        match self.random.below(8) {
            0 => self.kill(CELL_TYPE, CELL_NAME),
            1..=3 => self.named_cell(),
            4 => self.find_or_make_unique(LIST_CELL_TYPE),
            5 => self.find_or_make_unique(TEXT_CELL_TYPE),
            _ => self.find_or_make_unique(CELL_TYPE),
        }
    }

    pub(crate) fn named_cell(&mut self) {
        let a = self.next_register();
        self.write_named("FINDOR r#", CELL_NAME, "", CELL_TYPE);
        self.open(Close::Opener(a), Some(CELL_TYPE), CELL)
    }

    fn count(&mut self, t: usize, name: ObjectName) {
        self.write_named("COUNT r15", name, "", t);
        self.print_given()
    }

    fn kill(&mut self, t: usize, name: ObjectName) {
        self.end_others(name.constant, 99);
        self.write_named("KILL r15", name, "", t);
        self.text.push("OUTI r15\n")
    }

    fn unique(&mut self, choice: u32, t: usize) {
        let a = self.next_register();
        let class = unique_class(t);
        match choice {
            9 => self.text.write("UMAKE r# t#\n", &[a, t]),
            10 => self.text.write("UFIND r# t#\n", &[a, t]),
            11 => return self.find_or_make_unique(t),
            _ => {
                self.end_others(class, 99);
                return self.text.write("UKILL r15 t#\nOUTI r15\n", &[t]);
            }
        }
        self.open(Close::Opener(a), Some(t), class)
    }

    pub(crate) fn find_or_make_unique(&mut self, t: usize) {
        let a = self.next_register();
        self.text.write("UFINDOR r# t#\n", &[a, t]);
        self.open(Close::Opener(a), Some(t), unique_class(t))
    }

    /// Makes an object that a register owns, and opens a part with a reference to it.
    pub(crate) fn new_object(&mut self, t: usize) {
        let a = self.next_register();
        self.text.write("NEW r# t#\n", &[a, t]);
        self.own(a, t);
        self.fill(t)
    }

    /// Opens the success part of an opener that makes register a own an object.
    pub(crate) fn own(&mut self, a: usize, t: usize) {
        self.classes = self.classes.wrapping_add(1);
        let class = self.classes;
        self.open(Close::Owner { register: a, t }, None, class);
        let register = self.next_register();
        self.text.write("REF r# r#\n", &[register, a]);
        self.push(OpenPart {
            close: Close::Nothing,
            register,
            t: Some(t),
            class,
            access: Access::Change,
        });
    }
}
