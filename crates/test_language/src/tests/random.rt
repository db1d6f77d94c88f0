use crate::tests::support::canonical;
use client_code::{Number, OPERATIONS, Operand, Operation, Role};
use std::alloc::{AllocError, Global};
use std::test::Fail;
use support_data::Random;

/// Types, and constants of each kind: two texts, two names, two families.
const FRONT: &str = "type i64
type struct t0 t0
type own t3
type map t1
type shared t0
text \\5c \\00
text plain
name x
name y
family p
family q
";

const TYPES: u32 = 5;

const FIRST_NAME: u32 = 2;

const FIRST_FAMILY: u32 = 4;

/// Writes random code that is valid by the instruction table, with parts at most 8 deep.
#[derive(Drop)]
struct Writer {
    random: Random,
    text: String,
}

impl Writer {
    fn register(&mut self) -> Result<(), AllocError> {
        let n = self.random.below(16);
        write!(self.text, " r{n}")
    }

    /// Writes an operand: a register, or `-` if it is optional and `is_none`.
    fn operand(&mut self, operand: Operand, is_none: bool) -> Result<(), AllocError> {
        match operand {
            Operand::Unused => Ok(()),
            Operand::Register => self.register(),
            Operand::Optional if is_none => self.text.push_str(" -"),
            Operand::Optional => self.register(),
        }
    }

    fn number(&mut self, number: Number, is_exact: bool) -> Result<(), AllocError> {
        let t = self.random.below(TYPES);
        let k = self.random.below(2);
        match number {
            Number::Unused => Ok(()),
            Number::Any => {
                let n = i64::from(self.random.below(u32::MAX)) - 2_147_483_648;
                write!(self.text, " {n}")
            }
            Number::Turns => {
                let n = self.random.below(1_000_000_000) + 1;
                write!(self.text, " {n}")
            }
            Number::TypeId => write!(self.text, " t{t}"),
            Number::Text => write!(self.text, " k{k}"),
            Number::TypedName => {
                let k = k + if is_exact { FIRST_NAME } else { FIRST_FAMILY };
                write!(self.text, " t{t} k{k}")
            }
        }
    }

    /// Writes the line of an instruction.
    fn line(&mut self, operation: Operation) -> Result<(), AllocError> {
        let row = operation.row();
        let is_exact = self.random.below(2) == 0;
        let has_count = self.random.below(2) == 0;
        self.text.push_str(operation.word())?;
        self.operand(row.a, false)?;
        self.operand(row.b, is_exact)?;
        self.operand(row.c, has_count)?;
        self.number(row.number, is_exact)?;
        self.text.push_str("\n")
    }

    /// Writes the statements of a part, which may have parts nested up to this depth.
    fn part(&mut self, depth: u32) -> Result<(), AllocError> {
        for _ in 0..self.random.below(4) {
            let number = (self.random.below(OPERATIONS as u32) as u8).wrapping_add(1);
            let Some(operation) = Operation::from_number(number) else {
                continue;
            };
            match operation.row().role {
                Role::Plain => self.line(operation)?,
                Role::Opener if depth > 0 => {
                    self.line(operation)?;
                    self.part(depth - 1)?;
                    self.text.push_str("ELSE\n")?;
                    self.part(depth - 1)?;
                    self.text.push_str("END\n")?;
                }
                Role::Loop if depth > 0 => {
                    self.line(operation)?;
                    self.part(depth - 1)?;
                    self.text.push_str("END\n")?;
                }
                Role::Opener | Role::Loop | Role::Else | Role::End => {}
            }
        }
        Ok(())
    }
}

/// Whether a client with random code is printed as its text, which is canonical.
fn goes_round(writer: &mut Writer, alloc: Global) -> Result<bool, Fail> {
    writer.text = String::from_str(alloc, FRONT)?;
    writer.part(8)?;
    let printed = canonical(alloc, writer.text.as_bytes())?;
    Ok(printed.as_slice() == writer.text.as_bytes())
}

#[test]
fn random_texts_go_round(rt: HostRuntime) -> Result<(), Fail> {
    let mut writer = Writer {
        random: Random::new(1),
        text: String::new(rt.alloc()),
    };
    for _ in 0..2000 {
        assert!(rt; goes_round(&mut writer, rt.alloc())?, "{}", writer.text);
    }
    Ok(())
}
