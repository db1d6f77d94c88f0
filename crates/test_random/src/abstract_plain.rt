//! Instructions without parts, on the model.

use crate::abstract_run::{AbstractRun, Register};
use crate::model::{Objects, ValueContent};
use client_code::{Instruction, Operation};
use std::test::Fail;

impl AbstractRun {
    /// Performs an instruction without parts.
    pub(crate) fn act(&mut self, objects: &mut Objects, i: Instruction) -> Result<(), Fail> {
        let (b, c) = (self.number(i.b), self.number(i.c));
        match i.operation {
            Operation::Const => self.give(i, i64::from(i.number)),
            Operation::Mov => self.set(i.a, self.register(i.b)),
            Operation::Add => self.give(i, b.wrapping_add(c)),
            Operation::Sub => self.give(i, b.wrapping_sub(c)),
            Operation::Mul => self.give(i, b.wrapping_mul(c)),
            Operation::Less => self.give(i, i64::from(b < c)),
            Operation::Equal => self.give(i, i64::from(b == c)),
            Operation::OutInt => return self.print_number(b),
            Operation::OutConst => return self.print_constant(),
            Operation::OutStr => return self.print_text(objects, i),
            Operation::Kill => return self.kill(objects, i),
            Operation::KillUnique => {
                let removed = objects.uniques.remove(&usize::from(i.type_id()));
                self.give(i, i64::from(removed.is_some()));
            }
            Operation::Drop | Operation::Forget => self.set(i.b, Register::Undefined),
            Operation::Ref => self.set(i.a, self.register(i.b)),
            Operation::Shrink => {}
            Operation::Share => return self.share(objects, i),
            _ => return self.act_on_value(objects, i),
        }
        Ok(())
    }

    pub(crate) fn give(&mut self, i: Instruction, number: i64) {
        self.set(i.a, Register::Number(number));
    }

    fn print_text(&mut self, objects: &mut Objects, i: Instruction) -> Result<(), Fail> {
        match objects.content(self.value(i.b)) {
            Some(ValueContent::Text(text)) => self.print(text.as_slice()),
            _ => Err(Fail::from("no text")),
        }
    }

    fn kill(&mut self, objects: &mut Objects, i: Instruction) -> Result<(), Fail> {
        let name = self.name(i)?;
        let t = usize::from(i.type_id());
        let is_there = match objects.named.get(&name) {
            Some(object) => object.t == t,
            None => false,
        };
        if is_there {
            let _ = objects.named.remove(&name);
        }
        self.give(i, i64::from(is_there));
        Ok(())
    }

    /// Gives register b's cell a copy of the object of register c's cell.
    fn share(&mut self, objects: &mut Objects, i: Instruction) -> Result<(), Fail> {
        let Some(ValueContent::Held(named)) = objects.content(self.value(i.c)) else {
            return Err(Fail::from("no cell"));
        };
        let shared = match *named {
            Some(object) => Some(objects.copy(object)?),
            None => None,
        };
        let Some(ValueContent::Held(held)) = objects.content(self.value(i.b)) else {
            return Err(Fail::from("no cell"));
        };
        *held = shared;
        self.sharing.shared |= shared.is_some() && self.value(i.b) != self.value(i.c);
        Ok(())
    }

    /// Performs an instruction on the value of register b.
    fn act_on_value(&mut self, objects: &mut Objects, i: Instruction) -> Result<(), Fail> {
        let value = self.value(i.b);
        let c = self.register(i.c);
        if i.operation == Operation::Clear {
            objects.clear(value)?;
            return Ok(());
        }
        match (i.operation, objects.content(value)) {
            (Operation::Load, Some(ValueContent::Number(number))) => {
                let number = *number;
                self.give(i, number);
            }
            (Operation::Store, Some(ValueContent::Number(number))) => *number = self.number(i.c),
            (Operation::Field, Some(ValueContent::Fields(fields))) => {
                let field = field_value(fields.as_slice(), i.number);
                self.set(i.a, Register::Value(field));
            }
            (Operation::Put, Some(ValueContent::Held(held))) => {
                if let Register::Value(object) = c {
                    *held = Some(object);
                }
                self.set(i.c, Register::Undefined);
            }
            (Operation::DeleteKey, Some(ValueContent::Keyed(entries))) => {
                let removed = entries.remove(&self.number(i.c)).is_some();
                self.give(i, i64::from(removed));
            }
            (Operation::Len, Some(content)) => {
                let len = length(content);
                self.give(i, len);
            }
            _ => return Err(Fail::from("no meaning")),
        }
        Ok(())
    }
}

/// The length of a text or a container.
pub(crate) fn length(content: &ValueContent) -> i64 {
    let len = match content {
        ValueContent::Text(text) => text.len(),
        ValueContent::Items(items) => items.len(),
        ValueContent::Keyed(entries) => entries.len(),
        ValueContent::Number(_) | ValueContent::Held(_) | ValueContent::Fields(_) => 0,
    };
    len as i64
}

/// The value of a struct's field. An accepted client refers to no other field.
fn field_value(fields: &[usize], index: i32) -> usize {
    match usize::try_from(index) {
        Ok(index) => fields.get(index).copied().unwrap_or(usize::MAX),
        Err(_) => usize::MAX,
    }
}
