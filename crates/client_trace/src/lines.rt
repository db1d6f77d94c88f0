use crate::changed::Changed;
use crate::gathered::Gathered;
use crate::listing::Listing;
use crate::path::push_bytes;
use crate::paths::Paths;
use crate::view::View;
use client_code::{Client, Instruction, REGISTERS};
use client_verify::{RegisterType, Registers};
use client_vm::{Stepped, Stepper};
use std::alloc::{AllocError, Global};
use std::fmt::Write;

/// The output lines of one instruction at a time.
#[derive(Drop)]
pub(crate) struct TraceLines<'a> {
    listing: Listing,
    view: View<'a>,
    /// The steps so far.
    steps: u64,
    /// The lines of the last instruction.
    text: String,
}

impl<'a> TraceLines<'a> {
    pub(crate) fn new(
        alloc: Global,
        client: &Client,
        view: &View<'a>,
    ) -> Result<TraceLines<'a>, AllocError> {
        Ok(TraceLines {
            listing: Listing::new(alloc, client)?,
            view: *view,
            steps: 0,
            text: String::new(alloc),
        })
    }

    /// The lines of the last instruction.
    pub(crate) fn as_bytes(&self) -> &[u8] {
        self.text.as_bytes()
    }

    /// Counts the step of an instruction, which has no lines yet. Returns whether the view shows steps with this number.
    pub(crate) fn count(&mut self, stepped: Stepped) -> bool {
        self.text.clear();
        if stepped.is_step {
            self.steps = self.steps.saturating_add(1);
        }
        self.view.steps.has(self.steps)
    }

    /// Begins the lines of an instruction whose step is counted: the number of the client, the line of the program, the step's
    /// number, the instruction's number, and its text.
    pub(crate) fn begin(&mut self, stepped: Stepped) -> Result<(), AllocError> {
        let Stepped {
            instruction,
            is_step,
        } = stepped;
        self.add_client()?;
        self.add_source(instruction)?;
        self.add_step(is_step)?;
        write!(self.text, " {instruction:>4}  ")?;
        push_bytes(&mut self.text, self.listing.line(instruction))
    }

    /// Adds the number of the client, if there are several.
    fn add_client(&mut self) -> Result<(), AllocError> {
        match self.view.client {
            Some(client) => write!(self.text, "{client:>3} "),
            None => Ok(()),
        }
    }

    /// Adds the line of the program that an instruction comes from, if there is a program.
    fn add_source(&mut self, instruction: u16) -> Result<(), AllocError> {
        match self.view.source.lines.get(usize::from(instruction)) {
            Some(line) => write!(self.text, "{line:>5} "),
            None => Ok(()),
        }
    }

    /// Adds the number of the step, or `-` if the instruction is no step.
    fn add_step(&mut self, is_step: bool) -> Result<(), AllocError> {
        if !is_step {
            return self.text.push_str("     -");
        }
        let steps = self.steps;
        write!(self.text, "{steps:>6}")
    }

    /// Adds each register of which something is known after an instruction, with its contents. `next` is the instruction in front
    /// of which the registers contain the same.
    pub(crate) fn add_registers(
        &mut self,
        instruction: Instruction,
        at: u16,
        next: u16,
        known: &Registers,
        paths: &Paths,
        run: &Stepper<Global>,
    ) -> Result<(), AllocError> {
        let changed = if self.view.marks_changes {
            Changed::by(instruction)
        } else {
            Changed::NONE
        };
        let mut separator = "  ; ";
        for register in 0..REGISTERS {
            let held = known.get(register);
            if held != RegisterType::Undefined {
                let mark = if changed.has(register) { "*" } else { "" };
                write!(self.text, "{separator}{mark}r{register} ")?;
                self.add_variable(register, at, next)?;
                self.add_held(register, held, paths, run)?;
                separator = ", ";
            }
        }
        Ok(())
    }

    /// Ends the line of an instruction, and adds a line for its output.
    pub(crate) fn end(&mut self, printed: &Gathered) -> Result<(), AllocError> {
        self.text.push('\n')?;
        printed.add_to(&mut self.text)
    }

    /// Pads an instruction's text to the length of the longest one.
    pub(crate) fn add_gap(&mut self, instruction: u16) -> Result<(), AllocError> {
        let len = self.listing.line(instruction).len();
        for _ in len..self.listing.width() {
            self.text.push(' ')?;
        }
        Ok(())
    }

    /// Adds the variable that a register has after an instruction, even if the variable ends there.
    fn add_variable(&mut self, register: u8, at: u16, next: u16) -> Result<(), AllocError> {
        let variable = self.view.source.variable_after(register, at, next);
        if variable.is_empty() {
            return Ok(());
        }
        write!(self.text, "{variable} ")
    }

    /// Adds a register's contents.
    fn add_held(
        &mut self,
        register: u8,
        known: RegisterType,
        paths: &Paths,
        run: &Stepper<Global>,
    ) -> Result<(), AllocError> {
        match known {
            RegisterType::Undefined => Ok(()),
            RegisterType::Int => {
                let number = run.number(register);
                write!(self.text, "= {number}")
            }
            RegisterType::Reference(_, _) => {
                self.text.push_str("-> ")?;
                paths.add_to(&mut self.text, register)
            }
            RegisterType::ReadOnly(_, _) => {
                self.text.push_str("reads ")?;
                paths.add_to(&mut self.text, register)
            }
            RegisterType::Owner(type_id) => write!(self.text, "owns t{type_id}"),
        }
    }
}
