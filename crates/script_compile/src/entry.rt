//! From the tree of a program to its client: the loop that does one task after the other.

use crate::compiler::Compiler;
use crate::failure::{Failure, Wrong};
use crate::perform::perform;
use crate::variables::{VariableChange, Variables};
use client_code::TypeTable;
use script_code::{
    Code, Compiled, Emitter, Error, ErrorKind, Linked, NOWHERE, Problem, Program, Trouble, Types,
    link,
};
use script_syntax::Tree;
use script_values::declare;
use std::alloc::{AllocError, Global};

/// How many tasks one program may take. The largest client takes far fewer.
const MOST_TASKS: usize = 4_000_000;

/// The longest code that is written before the compiler gives up.
const MOST_EMITTED: usize = 65_536;

/// A client, and which variables its registers have.
#[derive(Drop)]
pub struct Translation {
    pub compiled: Compiled,
    pub variables: Vec<VariableChange>,
}

/// Compiles a program for the types of an image. Types that the image doesn't have get the next
/// numbers.
pub fn compile(alloc: Global, tree: &Tree<'_>, image: &TypeTable) -> Result<Compiled, Failure> {
    let Translation { compiled, .. } = translate(alloc, tree, image)?;
    Ok(compiled)
}

/// Compiles a program as [`compile`] does, and also tells which variables the registers have.
pub fn translate(
    alloc: Global,
    tree: &Tree<'_>,
    image: &TypeTable,
) -> Result<Translation, Failure> {
    let Ok(program) = new_program(alloc) else {
        return Err(Failure::Memory);
    };
    let mut compiler = Compiler::new(alloc, program, Code::new(alloc, NOWHERE));
    run(&mut compiler, tree);
    let Compiler {
        emitter,
        variables,
        ..
    } = compiler;
    let mut emitter = emitter;
    match link_code(&mut emitter, image) {
        Some(linked) => Ok(translation_of(emitter, variables, linked)),
        None => Err(failure_of(emitter)),
    }
}

/// The parts of the client, for the types of an image. `None` if the program has an error.
fn link_code(emitter: &mut Emitter, image: &TypeTable) -> Option<Linked> {
    if has_failed(emitter) {
        return None;
    }
    let mut trouble = Trouble::NONE;
    let types = &emitter.program.types;
    let linked = link(emitter.alloc, &emitter.code, types, image, &mut trouble);
    if let Some(Problem::Error(error)) = trouble.take() {
        emitter.report(error);
    }
    if trouble.is_out_of_memory {
        emitter.code.trouble.is_out_of_memory = true;
    }
    if has_failed(emitter) {
        return None;
    }
    Some(linked)
}

/// Whether an error was found, or memory was refused.
fn has_failed(emitter: &Emitter) -> bool {
    emitter.code.trouble.is_out_of_memory || !emitter.errors.is_empty()
}

/// The client with these parts. Its warnings are in the order of the text.
fn translation_of(emitter: Emitter, variables: Variables, linked: Linked) -> Translation {
    let Emitter { code, warnings, .. } = emitter;
    let Code { constants, .. } = code;
    let mut warnings = warnings;
    warnings.sort_unstable_by_key(|warning| warning.span.start);
    Translation {
        compiled: linked.into_compiled(constants, warnings),
        variables: variables.into_changes(),
    }
}

/// Why the program isn't compiled. The errors are in the order of the text.
fn failure_of(emitter: Emitter) -> Failure {
    let Emitter {
        program,
        code,
        errors,
        alive,
        ..
    } = emitter;
    if code.trouble.is_out_of_memory {
        return Failure::Memory;
    }
    let Program { types, .. } = program;
    let mut errors = errors;
    errors.sort_unstable_by_key(|error| error.span.start);
    Failure::Errors(Wrong {
        errors,
        types,
        alive,
    })
}

/// Reads the program's declarations, and compiles its statements.
fn run(compiler: &mut Compiler, tree: &Tree<'_>) {
    declare(&mut compiler.emitter, tree);
    if !compiler.emitter.passes_limit() {
        do_tasks(compiler, tree);
    }
    compiler.seen.warn_unused(&mut compiler.emitter, tree)
}

fn do_tasks(compiler: &mut Compiler, tree: &Tree<'_>) {
    compiler.begin_main(tree);
    for _ in 0..MOST_TASKS {
        let emitter = &mut compiler.emitter;
        let Some(task) = emitter.tasks.pop() else {
            return;
        };
        compiler.variables.note(&emitter.names, &mut emitter.code);
        perform(compiler, tree, task);
        if compiler.emitter.code.trouble.is_set() {
            compiler.recover(tree);
        }
        let code = &compiler.emitter.code;
        if code.instructions.len() > MOST_EMITTED || code.trouble.is_out_of_memory {
            break;
        }
    }
    compiler
        .emitter
        .report(Error::at(NOWHERE, ErrorKind::TOO_LONG));
}

/// A program that declares nothing.
fn new_program(alloc: Global) -> Result<Program, AllocError> {
    Ok(Program {
        types: Types::new(alloc)?,
        values: Vec::new(alloc),
        objects: Vec::new(alloc),
        functions: Vec::new(alloc),
        fail: None,
    })
}
