//! Statements on numbers, input, or parts without a value.

use crate::generator::Generator;
use crate::parts::Close;
use client_code::{Ends, Gives, Need, Number, OPERATIONS, Operand, Operation, Role, Row};

impl Generator {
    /// Writes a statement on numbers, input, or parts without a value.
    pub(crate) fn plain(&mut self) {
        let (a, b, c) = (self.number(), self.number(), self.number());
        match self.random.below(11) {
            0 => self.text.write("ADD r# r# r#\nOUTI r#\n", &[a, b, c, a]),
            1 => self.text.write("SUB r# r# r#\n", &[a, b, c]),
            2 => self.text.write("MUL r# r# r#\n", &[a, b, c]),
            3 => self.text.write("LT r# r# r#\n", &[a, b, c]),
            4 => self.text.write("EQ r# r# r#\n", &[a, b, c]),
            5 => self.text.write("MOV r# r#\n", &[a, b]),
            6 | 7 => self.from_table(),
            8 => self.given("GETB r15\n", &[]),
            9 => {
                self.text.write("IF r#\n", &[b]);
                self.enter_plain(Close::If)
            }
            _ => self.repeat(b),
        }
    }

    /// Opens a loop of at most three turns.
    fn repeat(&mut self, b: usize) {
        let turns = self.random.below(3).wrapping_add(1);
        self.text.write("WHILE r# #\n", &[b, turns as usize]);
        self.enter_plain(Close::Loop)
    }

    /// Writes a simple operation by its row of the table. Its registers a and b are r15, with a number in it or, if the row allows
    /// one, a copy of a reference. Afterwards r15 contains a number.
    fn from_table(&mut self) {
        let Some(operation) = self.simple_operation() else {
            return;
        };
        let row = operation.row();
        let c = self.number();
        let copied = match self.parts.last() {
            Some(part) if part.t.is_some() && row.needs_b != Need::Int => part.register,
            Some(_) | None => c,
        };
        self.text.write("MOV r15 r#\n", &[copied]);
        self.text.push(operation.word());
        self.write_operands(row, c);
        self.text.push(match row.gives {
            Gives::Int => "\nOUTI r15\n",
            _ => "\nCONST r15 0\n",
        })
    }

    fn write_operands(&mut self, row: Row, c: usize) {
        for (operand, register) in [(row.a, 15), (row.b, 15), (row.c, c)] {
            if operand == Operand::Register {
                self.text.write(" r#", &[register]);
            }
        }
        if row.number == Number::Any {
            self.text.write(" #", &[c]);
        }
    }

    /// A random simple operation. `None` if no such operation was found.
    fn simple_operation(&mut self) -> Option<Operation> {
        for _ in 0..50 {
            let number = (self.random.below(OPERATIONS as u32) as u8).wrapping_add(1);
            let operation = Operation::from_number(number)?;
            if is_simple(operation.row()) {
                return Some(operation);
            }
        }
        None
    }
}

/// Whether an operation is simple: it has no parts, needs only numbers, or nothing, and changes only registers a and b.
fn is_simple(row: Row) -> bool {
    row.role == Role::Plain
        && row.version == 1
        && row.ends == Ends::Nothing
        && matches!(row.number, Number::Unused | Number::Any)
        && matches!(row.needs_b, Need::Nothing | Need::Int | Need::Copyable)
        && matches!(row.needs_c, Need::Nothing | Need::Int)
        && matches!(
            row.gives,
            Gives::Nothing | Gives::Int | Gives::Copy | Gives::Forgotten
        )
}
