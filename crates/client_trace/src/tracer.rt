ghost use Rattle.std.specs.Prelude.{◌≡◌, ◌↔◌, true, false, IsErrOf};

use crate::gathered::Gathered;
use crate::known::{Known, known_at};
use crate::lines::TraceLines;
use crate::paths::Paths;
use crate::untraced::Untraced;
use crate::view::View;
use client_code::{Client, Instruction, Operand, Operation, REGISTERS};
use client_verify::{RegisterType, Registers};
use client_vm::{Fit, Ready, Segment, Sink, Stepped, Stepper, write_all};
use std::alloc::{AllocError, Global};

/// Runs a client on a segment, and writes a line for each instruction that it performs:
///
/// - the step's number, from 1, or `-` for the `END` at which a loop ends, which is no step;
/// - the instruction's number, from 0, and its canonical text;
/// - after `;` the registers of which something is known after it: `r1 = 41` is a number, `r2 -> vector[3].field 1` a reference
///   to the value at this path, `r4 reads cell.content` a reference into a frozen object, which can't be changed, and
///   `r3 owns t2` an object of type 2.
///
/// The instruction's output follows as a line of its own: `out "42\n"`.
///
/// The client's types must agree with the segment's, to which they are added. Objects that registers still own are destroyed at
/// the end. The memory that a trace needs doesn't depend on the number of steps.
pub fn trace<F: Fit, W: Sink>(
    alloc: Global,
    segment: &mut Segment<F, Global>,
    client: &Ready<Global>,
    input: &[u8],
    out: &mut W,
) -> Result<(), Untraced>
    requires works { W.has_failed out.old ≡ false }
    ensures failed { IsErrOf result Untraced.OutputFailed ↔ (W.has_failed out.new ≡ true) }
{
    let _ = trace_view(alloc, segment, client, input, &View::ALL, out)?;
    Ok(())
}

/// Runs a client as [`trace`] does, and shows what a view has. Returns how many bytes of the input the client read.
///
/// In the trace of a program each line begins with the line of the program that the instruction comes from, and a register that
/// has a variable is followed by its name: `r2 total = 5`.
pub fn trace_view<F: Fit, W: Sink>(
    alloc: Global,
    segment: &mut Segment<F, Global>,
    client: &Ready<Global>,
    input: &[u8],
    view: &View<'_>,
    out: &mut W,
) -> Result<usize, Untraced>
    requires works { W.has_failed out.old ≡ false }
    ensures failed { IsErrOf result Untraced.OutputFailed ↔ (W.has_failed out.new ≡ true) }
{
    let verified = client.verified();
    let mut tracer = Tracer::new(alloc, verified.client(), view)?;
    let mut run = Stepper::new(segment, client, input);
    let ended = tracer.to_end(&mut run, segment, verified.bound(), out);
    run.finish(segment);
    ended?;
    Ok(tracer.asked.min(input.len()))
}

/// The parts of a trace's lines, apart from the run.
#[derive(Drop)]
struct Tracer<'a> {
    client: Client<'a>,
    known: Known,
    paths: Paths<'a>,
    lines: TraceLines<'a>,
    view: View<'a>,
    /// How often the client asked for a byte of the input.
    asked: usize,
}

impl<'a> Tracer<'a> {
    fn new(alloc: Global, client: Client<'a>, view: &View<'a>) -> Result<Tracer<'a>, AllocError> {
        Ok(Tracer {
            client,
            known: Known::new(alloc, &client)?,
            paths: Paths::new(&client),
            lines: TraceLines::new(alloc, &client, view)?,
            view: *view,
            asked: 0,
        })
    }

    /// Writes the lines of a run to the end of the code. It performs at most twice the client's bound of lines.
    fn to_end<F: Fit, W: Sink>(
        &mut self,
        run: &mut Stepper<Global>,
        segment: &mut Segment<F, Global>,
        bound: u64,
        out: &mut W,
    ) -> Result<(), Untraced>
        requires works { W.has_failed out.old ≡ false }
        ensures failed { IsErrOf result Untraced.OutputFailed ↔ (W.has_failed out.new ≡ true) }
    {
        for _ in 0..bound.saturating_mul(2) {
            if !self.step(run, segment)? {
                break;
            }
            write_all(out, self.lines.as_bytes())?;
        }
        Ok(())
    }

    /// Performs an instruction, and makes its lines, or none if the view doesn't show it. At the end of the code it does nothing.
    fn step<F: Fit>(
        &mut self,
        run: &mut Stepper<Global>,
        segment: &mut Segment<F, Global>,
    ) -> Result<bool, AllocError> {
        let at = run.instruction();
        let Some(instruction) = self.client.instruction(u32::from(at)) else {
            return Ok(false);
        };
        let uses = self.uses(instruction, at, run);
        self.paths.pass(instruction, run, segment);
        let mut printed = Gathered::new();
        let Ok(Some(stepped)) = run.step(segment, &mut printed) else {
            return Ok(false);
        };
        self.count_byte(instruction);
        let next = known_at(instruction, at, run.instruction());
        if self.lines.count(stepped) && (uses || self.sets(instruction, at, next)) {
            self.add_lines(instruction, stepped, next, run)?;
            self.lines.end(&printed)?;
        }
        Ok(true)
    }

    /// Makes the line of an instruction, after which the registers contain what they contain in front of `next`.
    fn add_lines(
        &mut self,
        instruction: Instruction,
        stepped: Stepped,
        next: u16,
        run: &Stepper<Global>,
    ) -> Result<(), AllocError> {
        let known = self.known.in_front_of(next);
        self.lines.begin(stepped)?;
        if known == Registers::new() {
            return Ok(());
        }
        let at = stepped.instruction;
        self.lines.add_gap(at)?;
        self.lines
            .add_registers(instruction, at, next, &known, &self.paths, run)
    }

    /// Counts a byte that an instruction asks for.
    fn count_byte(&mut self, instruction: Instruction) {
        if instruction.operation == Operation::GetByte {
            self.asked = self.asked.saturating_add(1);
        }
    }

    /// Whether an instruction that the run performs next uses the object or variable of the view. It does if there is none.
    fn uses(&self, instruction: Instruction, at: u16, run: &Stepper<Global>) -> bool {
        let Some(name) = self.view.only else {
            return true;
        };
        let row = instruction.operation.row();
        self.paths.is_named(instruction, run, name)
            || self.reads(row.b, instruction.b, at, name)
            || self.reads(row.c, instruction.c, at, name)
    }

    /// Whether an operand is a register that has the variable with this name in front of an instruction, or that refers into the
    /// object with this name.
    fn reads(&self, operand: Operand, register: u8, at: u16, name: &str) -> bool {
        is_register(operand, register)
            && (self.view.source.variable(at, register) == name || self.refers(register, at, name))
    }

    /// Whether the register that the instruction at an index set has the variable of the view, or refers into its object. `next`
    /// is the instruction in front of which the registers contain the same.
    fn sets(&self, instruction: Instruction, at: u16, next: u16) -> bool {
        let Some(name) = self.view.only else {
            return true;
        };
        let register = instruction.a;
        is_register(instruction.operation.row().a, register)
            && (self.view.source.variable_after(register, at, next) == name
                || self.refers(register, next, name))
    }

    /// Whether a register refers into the object with this name in front of an instruction.
    fn refers(&self, register: u8, instruction: u16, name: &str) -> bool {
        match self.known.in_front_of(instruction).get(register) {
            RegisterType::Reference(_, _) | RegisterType::ReadOnly(_, _) => {
                self.paths.begins_at(register, name)
            }
            RegisterType::Undefined | RegisterType::Int | RegisterType::Owner(_) => false,
        }
    }
}

/// Whether an operand is a register.
fn is_register(operand: Operand, number: u8) -> bool {
    operand != Operand::Unused && number < REGISTERS
}
