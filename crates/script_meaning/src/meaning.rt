//! Whether a client has the meaning of a program.
ghost use Rattle.std.specs.Prelude.{◌≡◌, ◌≢◌, [], Ok, Some, true, map, IfOk, IfSome};
ghost use Rattle.client_spec.specs.Types.{Form, form_at};
ghost use Rattle.client_spec.specs.Grammar.{listing};
ghost use Rattle.client_code.specs.Views.{instruction_of};
ghost use Rattle.client_code.specs.Clients.{OfTree, bytes_of};
ghost use Rattle.script_meaning.specs.Following.{FileMeans};
ghost use Rattle.script_meaning.specs.Comparing.{IsWhole};

use crate::comparison::Comparison;
use crate::core_program::core_of;
use crate::knowledge::{Held, Knowledge};
use crate::program::Program;
use client_code::{Client, Instruction, Type, TypeId, TypeTable};
use std::alloc::{AllocError, Global};

/// Whether a client does what a program of the core says, in the way in which the compiler writes it. If it doesn't, the client
/// may do the same in another way.
pub fn has_meaning(
    alloc: Global,
    program: &Program,
    client: &Client<'_>,
) -> Result<bool, AllocError>
    ensures { result ≡ Ok true → FileMeans (bytes_of client.now) program.now }
{
    let Some(int) = int_type(&client.types(), program) else {
        return Ok(false);
    };
    let instructions = instructions_of(alloc, client)?;
    let constants = client.constants_in(alloc)?;
    let comparison = Comparison {
        instructions: instructions.as_slice(),
        constants: constants.as_slice(),
        objects: program.objects.as_slice(),
        int,
    };
    Ok(comparison.is_whole(program))
}

/// The program of the core that a text is, if it was shown that the client in a file does what this program says. `None` if the
/// text isn't a program of the core, or if the client does the same in another way than the compiler writes it.
pub fn shown_core(alloc: Global, text: &[u8], file: &[u8]) -> Result<Option<Program>, AllocError>
    ensures { IfOk result (λ core. IfSome core (FileMeans file.now)) }
{
    let tree = match script_syntax::parse(alloc, text) {
        Ok(tree) => tree,
        Err(script_syntax::Failure::Memory) => return Err(AllocError),
        Err(script_syntax::Failure::Errors(_)) => return Ok(None),
    };
    let Some(program) = core_of(alloc, &tree)? else {
        return Ok(None);
    };
    let Ok(client) = client_code::parse(file) else {
        return Ok(None);
    };
    if has_meaning(alloc, &program, &client)? {
        return Ok(Some(program));
    }
    Ok(None)
}

/// All instructions of a client.
fn instructions_of(alloc: Global, client: &Client<'_>) -> Result<Vec<Instruction>, AllocError>
    ensures { IfOk result (λ instructions. OfTree client.now (λ tree.
        map instruction_of instructions.items ≡ listing tree.code)) }
{
    let mut instructions = Vec::with_capacity(alloc, client.instruction_count() as usize)?;
    for at in 0..client.instruction_count() {
        let Some(instruction) = client.instruction(at) else {
            return Ok(instructions);
        };
        instructions.push(instruction)?;
    }
    Ok(instructions)
}

/// The number of the type `int`, or 0 if a program has no objects.
fn int_type(types: &TypeTable, program: &Program) -> Option<TypeId>
    ensures { IfSome result (λ int. program.now.objects.items ≢ [] →
        form_at types.now int ≡ Some Form.i64) }
{
    if program.objects.is_empty() {
        return Some(0);
    }
    (0..types.len() as u8).find(|t| types.kind(*t) == Some(Type::I64))
}

impl Comparison<'_> {
    /// Whether the whole code does what the program says.
    fn is_whole(&self, program: &Program) -> bool
        ensures { result ≡ true → IsWhole self.now program.now.code }
    {
        let mut knowledge = Knowledge::new();
        let held = Held::nothing();
        let Some(end) = self.code(&mut knowledge, &program.code, 0, held) else {
            return false;
        };
        match self.settled(&mut knowledge, end, &held) {
            Some(after) => after == self.instructions.len(),
            None => false,
        }
    }
}
