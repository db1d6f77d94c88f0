ghost use Rattle.std.specs.Prelude.{◌≡◌, List, map, IfOk, IfErr};
ghost use Rattle.client_spec.specs.Types.{longer};
ghost use Rattle.client_spec.specs.Syntax as syntax;
ghost use Rattle.client_spec.specs.Grammar.{SpellsClient};
ghost use Rattle.client_spec.specs.Clients.{IsVerified, AreAccepted};
ghost use Rattle.client_code.specs.Clients.{bytes_of};
ghost use Rattle.client_verify.specs.Accepted.{client_of};
ghost use Rattle.client_verify.specs.Texts.{texts_of, IsWrongText, AreWrong};

use crate::refused::Refused;
use crate::{Verified, verify_typed};
use client_code::parse_typed;
use seg_layout::TypeTable;
use seg_raw::Fault;
use std::alloc::Allocator;

/// Verifies the clients in order, each against the types with those of the clients before it added.
pub fn verify_all<'a, A: Allocator + Copy>(
    alloc: A,
    clients: &[&'a [u8]],
    types: &TypeTable,
) -> Result<Vec<Verified<'a>, A>, Refused>
    ensures texts { IfOk result
        (λ programs. texts_of programs.items ≡ map (λ c. c.now) clients.now) }
    ensures accepted { IfOk result (λ programs. (trees : List syntax.Client) ×
        AreAccepted types.now (map (λ c. c.now) clients.now) trees) }
    ensures refused { IfErr result (λ refused.
        AreWrong types.now (map (λ c. c.now) clients.now) refused) }
{
    let mut types = types.copy();
    let mut programs = Vec::with_capacity(alloc, clients.len())?;
    for (i, bytes) in clients.iter().enumerate() {
        match verify_one(bytes, &types) {
            Ok(program) => {
                extend(&mut types, program.types());
                programs.push(program)?;
            }
            Err(fault) => {
                return Err(Refused {
                    client: Some(i),
                    fault,
                });
            }
        }
    }
    Ok(programs)
}

/// Parses the file of a client, and verifies the client against the types.
fn verify_one<'a>(bytes: &'a [u8], types: &TypeTable) -> Result<Verified<'a>, Fault>
    ensures text { IfOk result (λ program. bytes_of (client_of program) ≡ bytes.now) }
    ensures accepted { IfOk result (λ program. (tree : syntax.Client) × SpellsClient bytes.now tree
        × IsVerified types.now tree) }
    ensures wrong { IfErr result (IsWrongText types.now bytes.now) }
{
    verify_typed(parse_typed(bytes)?, types)
}

/// Replaces a table by another one that is longer.
fn extend(types: &mut TypeTable, more: &TypeTable)
    ensures { types.new ≡ longer types.old more.now }
{
    if types.len() < more.len() {
        *types = more.copy();
    }
}
